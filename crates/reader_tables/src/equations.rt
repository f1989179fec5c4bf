//! Small lists, and what is read from them.

use matrix_reader::{MatrixReader, read};
use mixed_model::Mixed;
use refusals::{Place, ReadModel, Refused, Why};
use residue_field::{Field, Res};
use std::alloc::Global;
use std::process::Abort;
use std::test::Fail;

// What stands at a place: the number of the constant, or -1 for none, and whether a symbol does.
type Found = (i64, bool);

// A text, its equations and its unknowns, and what stands at each place, by rising equation.
type Case = (
    &'static [u8],
    &'static [&'static str],
    &'static [&'static str],
    &'static [Found],
);

const NONE: Found = (-1, false);

const SYMBOL: Found = (-1, true);

const READ: [Case; 7] = [
    (b"", &[], &[], &[]),
    (
        b"# one\xff\nunknown w\neq mass y=3 x=007\r\n\n\teq heat x=65522 w=1/3 z=0 # two\neq none\nunknown z u",
        &["mass", "heat", "none"],
        &["w", "y", "x", "z", "u"],
        &[
            NONE,
            (3, false),
            (7, false),
            NONE,
            NONE,
            (43_681, false),
            NONE,
            (1, false),
            NONE,
            NONE,
            NONE,
            NONE,
            NONE,
            NONE,
            NONE,
        ],
    ),
    (
        b"eq a x=? y=1+? z=0+? u=-1/3+? v=2 w=0\neq b y=? x=5",
        &["a", "b"],
        &["x", "y", "z", "u", "v", "w"],
        &[
            SYMBOL,
            (1, true),
            SYMBOL,
            (21_840, true),
            (2, false),
            NONE,
            (5, false),
            SYMBOL,
            NONE,
            NONE,
            NONE,
            NONE,
        ],
    ),
    (
        b"# a\r\neq e x=1+? y=-1/2 z=0+?\r\n\nunknown w # b\neq f w=3 x=?\r",
        &["e", "f"],
        &["x", "y", "z", "w"],
        &[
            (1, true),
            (32_760, false),
            SYMBOL,
            NONE,
            SYMBOL,
            NONE,
            NONE,
            (3, false),
        ],
    ),
    // constants alone over a mixed row
    (
        b"eq a x=1 y=1\neq b x=1 y=?\n",
        &["a", "b"],
        &["x", "y"],
        &[(1, false), (1, false), (1, false), SYMBOL],
    ),
    (
        b"eq a x=1\r\neq b y=?\r\n",
        &["a", "b"],
        &["x", "y"],
        &[(1, false), NONE, NONE, SYMBOL],
    ),
    (
        b"eq a x=1 # one y=2 \xff z=3\nunknown u",
        &["a"],
        &["x", "u"],
        &[(1, false), NONE],
    ),
];

// What stands at each place of a model.
fn places(alloc: Global, model: &Mixed<Res>) -> Result<Vec<Found>, Fail> {
    let mut found = Vec::new(alloc);
    for i in 0..model.equations() {
        for j in 0..model.unknowns() {
            let constant = match model.constant(i, j) {
                Some(residue) => i64::from(residue.value()),
                None => -1,
            };
            found.push((constant, model.symbol(i, j)))?;
        }
    }
    Ok(found)
}

fn assert_names(rt: &impl Abort, model: &Mixed<Res>, equations: &[&str], unknowns: &[&str]) {
    assert_eq!(rt; model.equations(), equations.len());
    for (i, name) in equations.iter().enumerate() {
        assert!(rt; i < model.equations());
        assert_eq!(rt; model.equation_name(i), *name);
    }
    assert_eq!(rt; model.unknowns(), unknowns.len());
    for (j, name) in unknowns.iter().enumerate() {
        assert_eq!(rt; model.find_unknown(name), Some(j));
    }
}

fn assert_model(
    rt: &impl Abort,
    alloc: Global,
    model: &Mixed<Res>,
    case: &Case,
) -> Result<(), Fail> {
    let (_, equations, unknowns, want) = case;
    assert_names(rt, model, equations, unknowns);
    assert_eq!(rt; places(alloc, model)?.as_slice(), *want);
    Ok(())
}

// What is read is the model of the case.
fn assert_read(
    rt: &impl Abort,
    alloc: Global,
    read: Result<Mixed<Res>, ReadModel>,
    case: &Case,
) -> Result<(), Fail> {
    assert_model(rt, alloc, &read?, case)
}

#[test]
fn reads_lists(rt: HostRuntime) -> Result<(), Fail> {
    for case in READ {
        assert!(rt; case.0.len() < 999);
        assert_read(&rt, rt.alloc(), read(rt.alloc(), case.0), &case)?;
    }
    Ok(())
}

fn read_pieces(alloc: Global, pieces: &[&[u8]]) -> Result<Mixed<Res>, ReadModel> {
    let mut reader = MatrixReader::new(alloc)?;
    for piece in pieces {
        reader = reader.feed(piece)?;
    }
    reader.finish()
}

#[test]
fn a_model_is_the_same_wherever_its_text_is_cut(rt: HostRuntime) -> Result<(), Fail> {
    for case in READ {
        for cut in 0..=case.0.len() {
            let (front, back) = case.0.split_at(cut);
            let read = read_pieces(rt.alloc(), &[front, back]);
            assert_read(&rt, rt.alloc(), read, &case)?;
        }
    }
    Ok(())
}

fn read_bytes(alloc: Global, text: &[u8]) -> Result<Mixed<Res>, Fail> {
    let mut reader: MatrixReader<Res> = MatrixReader::new(alloc)?;
    for place in 0..text.len() {
        reader = reader.feed(&text[place..place + 1])?;
    }
    Ok(reader.finish()?)
}

#[test]
fn a_list_may_come_byte_by_byte(rt: HostRuntime) -> Result<(), Fail> {
    for case in READ {
        let model = read_bytes(rt.alloc(), case.0)?;
        assert_model(&rt, rt.alloc(), &model, &case)?;
    }
    Ok(())
}

// Texts, and the line and the reason of the refusal of each.
const REFUSED: [(&str, u32, Why); 22] = [
    ("eq a x=1 \u{7f} y", 1, Why::BadByte),
    ("eq a x=1\r \n", 1, Why::BadByte),
    ("sum a", 1, Why::BadWord),
    ("\neq", 2, Why::BadShape),
    ("unknown # x", 1, Why::BadShape),
    ("eq 1a x", 1, Why::BadName),
    ("eq a\neq a x", 2, Why::Twice),
    ("eq a x", 1, Why::BadShape),
    ("eq a =?", 1, Why::BadName),
    ("eq a x=1=2", 1, Why::BadNumber),
    ("eq a x=+?", 1, Why::BadNumber),
    ("eq a x=?+?", 1, Why::BadNumber),
    ("eq a x=1/0", 1, Why::Vanish),
    ("eq a x=65521+?", 1, Why::Vanish),
    ("eq a x=??", 1, Why::BadNumber),
    ("eq a x=1+?+?", 1, Why::BadNumber),
    ("eq a x=?+1", 1, Why::BadNumber),
    ("eq a x=1 x=?", 1, Why::Twice),
    ("eq a x=? x=?", 1, Why::Twice),
    ("eq a x=0 x=2", 1, Why::Twice),
    ("unknown x 1y", 1, Why::BadName),
    ("eq a x=1\neq b y=2\neq a z=3\nsum a", 3, Why::Twice),
];

// The refusal of what was read, or none.
fn refusal(read: Result<Mixed<Res>, ReadModel>) -> Option<Refused> {
    match read {
        Err(ReadModel::Refused(refused)) => Some(refused),
        _ => None,
    }
}

#[test]
fn the_first_broken_rule_is_the_answer(rt: HostRuntime) {
    for (text, line, why) in REFUSED {
        assert!(rt; text.len() < 99);
        let place = Place::Line(line);
        let found = refusal(read(rt.alloc(), text.as_bytes()));
        assert_eq!(rt; found, Some(Refused { place, why }), "{text}");
    }
    let place = Place::Line(2);
    let why = Why::BadShape;
    // later pieces change no refusal
    let pieces: [&[u8]; 3] = [b"eq a x=1\neq b x", b"\neq", b"\nsum c\n"];
    let found = refusal(read_pieces(rt.alloc(), &pieces));
    assert_eq!(rt; found, Some(Refused { place, why }));
}
