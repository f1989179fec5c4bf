//! Why texts give no problem.

use cert_text::Kind;
use input_problems::read_problem;
use problem_heads::{Form, counted_on};
use refusals::{Place, ReadModel, Refused, Why};
use residue_field::Res;
use std::alloc::{AllocError, Global};
use std::test::Fail;

const SOLVE: [(&str, Place, Why); 33] = [
    // no line ends the head
    ("", Place::Document, Why::BadShape),
    ("value a x 2\n", Place::Document, Why::BadShape),
    ("# model", Place::Document, Why::BadShape),
    // one line of the head
    ("right a 1\r \nmodel", Place::Line(1), Why::BadByte),
    ("model \u{7f}", Place::Line(1), Why::BadByte),
    ("cost a 1\nmodel", Place::Line(1), Why::BadWord),
    ("Model", Place::Line(1), Why::BadWord),
    ("eq a x=1\nmodel", Place::Line(1), Why::BadWord),
    ("\nmodel it\nmodel", Place::Line(2), Why::BadShape),
    ("value\nmodel", Place::Line(1), Why::BadShape),
    ("value a 2\nmodel", Place::Line(1), Why::BadShape),
    ("value a x 2 3\nmodel", Place::Line(1), Why::BadShape),
    ("right 2\nmodel", Place::Line(1), Why::BadShape),
    ("right a x 2\nmodel", Place::Line(1), Why::BadShape),
    ("right a two\nmodel", Place::Line(1), Why::BadNumber),
    ("value a x ?\nmodel", Place::Line(1), Why::BadNumber),
    ("value a x 65521\nmodel", Place::Line(1), Why::Vanish),
    ("right a 1/65521\nmodel", Place::Line(1), Why::Vanish),
    ("right a 1\nright a 2\nmodel", Place::Line(2), Why::Twice),
    (
        "value a x 1\n\nvalue a x 1\nmodel",
        Place::Line(3),
        Why::Twice,
    ),
    (
        "right a 1\nright a b\nmodel",
        Place::Line(2),
        Why::BadNumber,
    ),
    ("right a 1\nright a 1\nno", Place::Line(2), Why::Twice),
    // the model, behind the head's lines
    ("model\neq", Place::Line(2), Why::BadShape),
    ("right a 1\nmodel\neq a\neq a", Place::Line(4), Why::Twice),
    ("right b 1\nmodel\nmodel", Place::Line(3), Why::BadWord),
    // the head at the model
    (
        "right b 1\nmodel\neq a x=1",
        Place::Line(1),
        Why::Undeclared,
    ),
    (
        "\nvalue b x 1\nmodel\neq a x=?",
        Place::Line(2),
        Why::Undeclared,
    ),
    (
        "value a y 1\nmodel\neq a x=?",
        Place::Line(1),
        Why::Undeclared,
    ),
    (
        "value a x 1\nmodel\neq a x=1",
        Place::Line(1),
        Why::Undeclared,
    ),
    (
        "value x a 1\nmodel\neq a x=?",
        Place::Line(1),
        Why::Undeclared,
    ),
    (
        "right c 1\nmodel\neq a x=?",
        Place::Line(1),
        Why::Undeclared,
    ),
    (
        "model\neq a x=? y=?\neq b x=?",
        Place::Document,
        Why::Missing,
    ),
    (
        "value a x 1\nmodel\neq a x=? y=0+?",
        Place::Document,
        Why::Missing,
    ),
];

const REPAIR: [(&str, Place, Why); 12] = [
    ("cost a 1", Place::Document, Why::BadShape),
    ("value a x 1\nmodel", Place::Line(1), Why::BadWord),
    ("right a 1\nmodel", Place::Line(1), Why::BadWord),
    ("cost a\nmodel", Place::Line(1), Why::BadShape),
    ("cost a 1 2\nmodel", Place::Line(1), Why::BadShape),
    ("cost a 1234567890\nmodel", Place::Line(1), Why::BadNumber),
    ("cost a -1\nmodel", Place::Line(1), Why::BadNumber),
    ("cost a 1.0\nmodel", Place::Line(1), Why::BadNumber),
    (
        "cost a 1\ncost a 2\nmodel\neq a",
        Place::Line(2),
        Why::Twice,
    ),
    ("cost a 1\nmodel\nunknown", Place::Line(3), Why::BadShape),
    (
        "cost a 1\ncost x 2\nmodel\neq a x=1",
        Place::Line(2),
        Why::Undeclared,
    ),
    ("cost b 1\nmodel", Place::Line(1), Why::Undeclared),
];

// The refusal of a text, if it is short and has one.
fn refusal(alloc: Global, kind: Kind, form: Form, text: &[u8]) -> Option<Refused> {
    if text.len() > 8_388_608 {
        return None;
    }
    match read_problem::<Res>(alloc, kind, form, text) {
        Err(ReadModel::Refused(refused)) => Some(refused),
        _ => None,
    }
}

#[test]
fn the_first_broken_rule_of_a_head_of_values_is_the_answer(rt: HostRuntime) {
    for (text, place, why) in SOLVE {
        let found = refusal(rt.alloc(), Kind::Matrix, Form::Solve, text.as_bytes());
        assert_eq!(rt; found, Some(Refused { place, why }), "{text}");
    }
}

#[test]
fn the_first_broken_rule_of_a_head_of_costs_is_the_answer(rt: HostRuntime) {
    for (text, place, why) in REPAIR {
        let found = refusal(rt.alloc(), Kind::Matrix, Form::Repair, text.as_bytes());
        assert_eq!(rt; found, Some(Refused { place, why }), "{text}");
    }
}

#[test]
fn only_lines_are_counted_on(rt: HostRuntime) {
    let line = Refused {
        place: Place::Line(3),
        why: Why::Twice,
    };
    let unit = Refused {
        place: Place::Unit(3),
        why: Why::BadKind,
    };
    assert_eq!(rt; counted_on(line, 4).place, Place::Line(7));
    assert_eq!(rt; counted_on(unit, 4), unit);
    let text = b"\nmodel\nR1 a 0\nR1 a 0";
    assert_eq!(rt;
        refusal(rt.alloc(), Kind::Netlist, Form::Repair, text),
        Some(Refused {
            place: Place::Line(4),
            why: Why::Twice
        })
    );
    let text = b"model\nR1 a b";
    assert_eq!(rt;
        refusal(rt.alloc(), Kind::Netlist, Form::Repair, text),
        Some(Refused {
            place: Place::Document,
            why: Why::NoGround
        })
    );
    let text = b"model\n[[unit]]\nname = 'u'\nkind = 'none'";
    assert_eq!(rt;
        refusal(rt.alloc(), Kind::Flowsheet, Form::Solve, text),
        Some(Refused {
            place: Place::Unit(1),
            why: Why::BadKind
        })
    );
}

// So many equations, each with a cost of its own.
fn levels(alloc: Global, count: u8) -> Result<Vec<u8>, AllocError> {
    let mut text = Vec::new(alloc);
    for place in 0..count {
        text.extend_from_slice(b"cost e")?;
        push_number(&mut text, place)?;
        text.extend_from_slice(b" 1")?;
        push_number(&mut text, place)?;
        text.extend_from_slice(b"\n")?;
    }
    text.extend_from_slice(b"model\n")?;
    for place in 0..count {
        text.extend_from_slice(b"eq e")?;
        push_number(&mut text, place)?;
        text.extend_from_slice(b"\n")?;
    }
    Ok(text)
}

// Two digits.
fn push_number(text: &mut Vec<u8>, number: u8) -> Result<(), AllocError> {
    text.push(b'0' + number / 10 % 10)?;
    text.push(b'0' + number % 10)?;
    Ok(())
}

#[test]
fn at_most_sixteen_costs_differ(rt: HostRuntime) -> Result<(), Fail> {
    let place = Place::Document;
    let why = Why::TooMany;
    let many = levels(rt.alloc(), 17)?;
    assert_eq!(rt;
        refusal(rt.alloc(), Kind::Matrix, Form::Repair, &many),
        Some(Refused { place, why })
    );
    // the cost that is not given is one more
    let mut text = levels(rt.alloc(), 16)?;
    assert_eq!(rt;
        refusal(rt.alloc(), Kind::Matrix, Form::Repair, &text),
        None
    );
    text.extend_from_slice(b"eq one")?;
    assert_eq!(rt;
        refusal(rt.alloc(), Kind::Matrix, Form::Repair, &text),
        Some(Refused { place, why })
    );
    Ok(())
}
