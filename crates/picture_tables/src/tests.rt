//! Pictures that were written by hand from the definition, those of docs/pictures/ and of some sizes, and runs that draw
//! nothing.

use crate::inputs::{CONSTANT, EMPTY, LARGE, MIXED, NO_END, WRONG_RANK};
use crate::pictures::PICTURES;
use crate::running::{expect_none, expect_picture, expect_run};
use memory_runs::{Streams, holds};
use std::test::Fail;

/// The picture of nothing: the two tails, which have neither columns nor rows, and the legend.
const EMPTY_PICTURE: &str =
    "<svg xmlns=\"http://www.w3.org/2000/svg\" font-family=\"sans-serif\" style=\"background:#fff\" font-size=\"1\" width=\"400\" height=\"360\" viewBox=\"-6 -14 20 18\">\n<style>path{fill:#eef2f6;stroke:#667;stroke-width:.06}.o{fill:#fbeeb8}.m{fill:#f9d3d3}.c,.s{vector-effect:none;stroke-width:.6;stroke-linecap:square}.c{stroke:#1f4e79}.s{stroke:#d2601a;stroke-width:.68;stroke-linecap:round}.n{stroke:none}.p{text-anchor:end;fill:#667;font-size:.8em}</style>\n<path class=\"o\" d=\"M0 0H0V0H0z\"><title>first, rows 0, columns 0</title></path>\n<path class=\"m\" d=\"M0 0H0V0H0z\"><title>last, rows 0, columns 0</title></path>\n<g font-size=\".75\">\n<path class=\"c\" d=\"M0.5 1.5h0\"/>\n<text x=\"1\" y=\"1\" dx=\".4em\" dy=\"1em\">a constant, in a row of P</text>\n<path class=\"s\" d=\"M0.5 2.5h0\"/>\n<text x=\"1\" y=\"2\" dx=\".4em\" dy=\"1em\">a symbol, in a row of T</text>\n<text x=\"0\" y=\"3\" dx=\"-4em\" dy=\"1em\">first 0x0, blocks 0, last 0x0, entries 0</text>\n</g>\n</svg>\n";

/// What the picture of one constant has: the frame of block 1 with its number and its size, the entry, the two names,
/// and the sizes.
const CONSTANT_PIECES: [&str; 4] = [
    "\n<path d=\"M0 0H1V1H0z\"><title>1, rows 1, columns 1</title></path>\n<text class=\"p\" x=\"0\" y=\"1\" dx=\"-.3em\" dy=\"-.2em\">1</text>\n<path class=\"m\" d=\"M1 1H1V1H1z\"><title>last, rows 0, columns 0</title></path>\n",
    "\n<path class=\"c\" d=\"M0.5 0.5h0\"><title>a</title></path>\n",
    "\n<text transform=\"translate(0 0)rotate(-90)\" dx=\".4em\" dy=\".95em\">x</text>\n<text x=\"1\" y=\"0\" dx=\".4em\" dy=\"1em\">a</text>\n",
    "\n<text x=\"0\" y=\"4\" dx=\"-4em\" dy=\"1em\">first 0x0, blocks 1, last 0x0, entries 1</text>\n",
];

/// What the picture of two equations has, of which one is split: block 2, which stands right of and below block 1, its
/// two kinds of entries, and the names of its auxiliary column and of its row of symbols.
const MIXED_PIECES: [&str; 4] = [
    "\n<path d=\"M1 1H3V3H1z\"><title>2, rows 2, columns 2</title></path>\n<text class=\"p\" x=\"1\" y=\"3\" dx=\"-.3em\" dy=\"-.2em\">2</text>\n",
    "\n<path class=\"c\" d=\"M0.5 0.5h0M2.5 0.5h0\"><title>a</title></path>\n<path class=\"c\" d=\"M1.5 1.5h0M2.5 1.5h0\"><title>b</title></path>\n<path class=\"s\" d=\"M1.5 2.5h0M2.5 2.5h0\"><title>b</title></path>\n",
    "\n<text transform=\"translate(2 0)rotate(-90)\" dx=\".4em\" dy=\".95em\">*b</text>\n",
    "\n<text x=\"3\" y=\"2\" dx=\".4em\" dy=\"1em\">b</text>\n",
];

#[test]
fn nothing_is_drawn_as_two_tails(rt: HostRuntime) -> Result<(), Fail> {
    expect_picture(&rt, rt.alloc(), EMPTY, EMPTY_PICTURE)
}

#[test]
fn pieces_stand_in_their_pictures(rt: HostRuntime) -> Result<(), Fail> {
    let tables = [
        (CONSTANT, CONSTANT_PIECES),
        (LARGE, CONSTANT_PIECES),
        (MIXED, MIXED_PIECES),
    ];
    for (certificate, pieces) in tables {
        let streams = Streams::calm(&[], certificate.as_bytes());
        let left = expect_run(&rt, rt.alloc(), &streams, 0, b"")?;
        for piece in pieces {
            assert!(rt; holds(left.out.bytes(), piece.as_bytes()));
        }
    }
    Ok(())
}

#[test]
fn pictures_of_the_page_and_of_some_sizes(rt: HostRuntime) -> Result<(), Fail> {
    for (certificate, picture) in PICTURES {
        expect_picture(&rt, rt.alloc(), certificate, picture)?;
    }
    Ok(())
}

#[test]
fn what_is_not_accepted_is_not_drawn(rt: HostRuntime) -> Result<(), Fail> {
    let alloc = rt.alloc();
    expect_none(
        &rt,
        alloc,
        "",
        3,
        b"mixed: line 1: not a certificate line\n",
    )?;
    expect_none(
        &rt,
        alloc,
        NO_END,
        3,
        b"mixed: line 15: not a certificate line\n",
    )?;
    expect_none(&rt, alloc, WRONG_RANK, 7, b"mixed: rejected by rule 7\n")
}

#[test]
fn failed_calls_are_told(rt: HostRuntime) -> Result<(), Fail> {
    let alloc = rt.alloc();
    let calm = Streams::calm(&[], CONSTANT.as_bytes());
    let reads = Streams {
        source_fails: &[1],
        ..calm
    };
    expect_run(&rt, alloc, &reads, 4, b"mixed: read fault\n")?;
    let writes = Streams {
        out_fails: &[1],
        ..calm
    };
    expect_run(&rt, alloc, &writes, 5, b"mixed: write fault\n")?;
    Ok(())
}
