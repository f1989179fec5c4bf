//! The sizes of a form, put into a writer.

ghost use Rattle.std.specs.Prelude.{◌≡◌, ◌+◌, length};
ghost use Rattle.std.specs.List.{sum_by};
ghost use Rattle.port_io.specs.Causes.{shown};
ghost use Rattle.text_writer.specs.Texts.{Puts};
ghost use Rattle.matrix_picture.specs.Texts.{size_text, sizes_below, sizes_text};

use crate::frames::put_place;
use cert_text::{Ccf, CcfPart, Items};
use port_io::Sink;
use residue_field::Field;
use text_writer::TextWriter;

/// Puts the line of the sizes, below `top` rows.
pub fn put_sizes_below<F: Field, K: Sink>(out: &mut TextWriter<'_, K>, top: u64, ccf: &Ccf<F>)
    ensures { Puts K.Sink out.old out.new (sizes_below top ccf.now) }
{
    out.piece(b"<text");
    put_place(out, 0, top);
    out.piece(b" dx=\"-4em\" dy=\"1em\">");
    put_sizes(out, ccf);
    out.piece(b"</text>\n");
}

// Puts the sizes of the tails, and how many blocks and entries there are.
fn put_sizes<F: Field, K: Sink>(out: &mut TextWriter<'_, K>, ccf: &Ccf<F>)
    ensures { Puts K.Sink out.old out.new (sizes_text ccf.now) }
{
    out.piece(b"first");
    put_size(out, ccf.first());
    out.piece(b", blocks");
    out.number(b' ', ccf.blocks().as_slice().len() as u64);
    out.piece(b", last");
    put_size(out, ccf.last());
    out.piece(b", entries");
    out.number(b' ', count_all(ccf));
}

// Puts how many rows and columns a tail has.
fn put_size<K: Sink>(out: &mut TextWriter<'_, K>, part: &CcfPart)
    ensures { Puts K.Sink out.old out.new (size_text part.now) }
{
    let rows = part.q_rows.as_slice().len() as u64 + part.t_rows.as_slice().len() as u64;
    out.number(b' ', rows);
    out.number(b'x', part.columns.as_slice().len() as u64);
}

// How many entries a form has, or the last number of 64 bits.
fn count_all<F: Field>(ccf: &Ccf<F>) -> u64
    ensures { result ≡ shown (sum_by length ccf.now.p + sum_by length ccf.now.t) }
{
    let constants = count_entries(0, ccf.p().as_slice());
    count_entries(constants, ccf.t().as_slice())
}

// So many entries more than before.
fn count_entries<T: Drop>(before: u64, rows: &[Items<T>]) -> u64
    ensures { result ≡ shown (before + sum_by length rows.now) }
{
    let mut count = before;
    for row in rows {
        count = count.saturating_add(row.as_slice().len() as u64);
    }
    count
}
