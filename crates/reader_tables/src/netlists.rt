//! Small netlists, and why they are refused.

use mixed_model::Mixed;
use netlist_reader::{DeviceKind, NetlistReader, read};
use refusals::{Place, ReadModel, Refused, Why};
use residue_field::Res;
use std::alloc::{AllocError, Global};
use std::test::Fail;

const KINDS: [(&str, Option<DeviceKind>); 17] = [
    ("R1", Some(DeviceKind::Passive)),
    ("l", Some(DeviceKind::Passive)),
    ("C.2", Some(DeviceKind::Passive)),
    ("Vin", Some(DeviceKind::Voltage)),
    ("i1", Some(DeviceKind::Current)),
    ("E1", Some(DeviceKind::VoltageByVoltage)),
    ("g1", Some(DeviceKind::CurrentByVoltage)),
    ("F1", Some(DeviceKind::CurrentByCurrent)),
    ("h1", Some(DeviceKind::VoltageByCurrent)),
    (".OpAmp", Some(DeviceKind::Opamp)),
    (".transformer", Some(DeviceKind::Transformer)),
    (".GYRATOR", Some(DeviceKind::Gyrator)),
    (".opamps", None),
    ("opamp", None),
    ("M1", None),
    ("_R", None),
    ("", None),
];

#[test]
fn words_tell_kinds(rt: HostRuntime) {
    for (word, kind) in KINDS {
        assert_eq!(rt; DeviceKind::of(word), kind, "{word}");
    }
}

// The place and the reason of the refusal of a text, or none.
fn refusal(alloc: Global, text: &[u8]) -> Option<Refused> {
    if text.len() > 8_388_608 {
        return None;
    }
    match read::<Res>(alloc, text) {
        Err(ReadModel::Refused(refused)) => Some(refused),
        _ => None,
    }
}

// Texts that break a rule of a line, and then those that break one of a whole netlist, which come last.
const REFUSED: [(&str, Place, Why); 41] = [
    (".include x", Place::Line(1), Why::Unsupported),
    ("R1 a 0\n.model D d\n", Place::Line(2), Why::Unsupported),
    ("R1 a 0\n+ 5", Place::Line(2), Why::Unsupported),
    ("M1 d g s b", Place::Line(1), Why::Unsupported),
    ("My amplifier\nR1 a 0", Place::Line(1), Why::Unsupported),
    ("A title\nR1 a 0", Place::Line(1), Why::Unsupported),
    ("Rectifier\nR1 a 0", Place::Line(1), Why::BadShape),
    ("R1 a 0\r \n", Place::Line(1), Why::BadByte),
    ("R1 a 0 \u{7f}", Place::Line(1), Why::BadByte),
    ("D1 \u{7f}", Place::Line(1), Why::BadByte),
    ("R1 a", Place::Line(1), Why::BadShape),
    ("E1 a 0 b", Place::Line(1), Why::BadShape),
    ("F1 a 0", Place::Line(1), Why::BadShape),
    (".opamp", Place::Line(1), Why::BadShape),
    (".opamp U1 a b", Place::Line(1), Why::BadShape),
    (".opamp U1 a b c d", Place::Line(1), Why::BadShape),
    (".gyrator Y1 a 0 b 0 1 2", Place::Line(1), Why::BadShape),
    (
        ".transformer T1 a 0 b 0 1 2 3 4 5",
        Place::Line(1),
        Why::BadShape,
    ),
    ("R= a", Place::Line(1), Why::BadShape),
    ("R= a 0", Place::Line(1), Why::BadName),
    (".opamp 1 a b c", Place::Line(1), Why::BadName),
    ("R1 a- 0", Place::Line(1), Why::BadName),
    ("G1 a 0 b +", Place::Line(1), Why::BadName),
    ("F1 a 0 1", Place::Line(1), Why::BadName),
    (".gyrator Y1 a 0 = 0 1k", Place::Line(1), Why::BadName),
    (".gyrator Y1 a 0 b 0 1k", Place::Line(1), Why::BadNumber),
    (
        ".transformer T1 a 0 b 0 1/65521",
        Place::Line(1),
        Why::Vanish,
    ),
    ("T1 a 0\n", Place::Line(1), Why::Unsupported),
    ("R1 a 0\nV1 a 0\nC1 a 0\nR1 a 0", Place::Line(4), Why::Twice),
    ("R1 a 0\n.opamp R1 a b c", Place::Line(2), Why::Twice),
    (
        "R1 a 0\n.gyrator R1 a 0 b 0 1k",
        Place::Line(2),
        Why::BadNumber,
    ),
    ("F1 a b V9\nR1 a", Place::Line(2), Why::BadShape),
    ("R1 a b", Place::Document, Why::NoGround),
    ("Low pass filter", Place::Document, Why::NoGround),
    ("R1 a b 0", Place::Document, Why::NoGround),
    ("R1 a 00", Place::Document, Why::NoGround),
    ("F1 a b V9", Place::Document, Why::NoGround),
    ("\nF1 a 0 V9\nH1 a 0 V8", Place::Line(2), Why::NoSuchSource),
    ("R1 a 0\nF1 a 0 R1", Place::Line(2), Why::NoSuchSource),
    ("V1 a 0\n\nF1 a 0 v1", Place::Line(3), Why::NoSuchSource),
    (
        "F1 a 0 V1\nH1 a 0 F1\nV1 a 0",
        Place::Line(2),
        Why::NoSuchSource,
    ),
];

// What keeps the rules.
const KEPT: [&str; 8] = [
    "",
    "# any\n\n \t\n",
    "R1 a 0\r\nr1 a 0 1k ic=5 \\ # again\r\n",
    "E1 a b c 0",
    ".opamp U1 a b c",
    ".Transformer T1 a a b 0 0",
    "F1 a 0 V1\nH1 a 0 V1\nV1 0 0",
    "R1 a 0 1 2 3 4 5 6 7 8 9",
];

#[test]
fn the_first_broken_rule_is_the_answer(rt: HostRuntime) {
    for (text, place, why) in REFUSED {
        let want = Some(Refused { place, why });
        assert_eq!(rt; refusal(rt.alloc(), text.as_bytes()), want, "{text}");
    }
    for text in KEPT {
        assert_eq!(rt; refusal(rt.alloc(), text.as_bytes()), None, "{text}");
    }
}

#[test]
fn a_byte_outside_a_comment_may_be_bad(rt: HostRuntime) {
    let place = Place::Line(2);
    let why = Why::BadByte;
    let text = b"R1 a 0 # \xff\nR2 a 0 \xff\n";
    assert_eq!(rt; refusal(rt.alloc(), text), Some(Refused { place, why }));
}

#[test]
fn an_empty_text_gives_an_empty_model(rt: HostRuntime) -> Result<(), Fail> {
    for text in ["", "# any\n\n"] {
        assert!(rt; text.len() < 99);
        let model: Mixed<Res> = read(rt.alloc(), text.as_bytes())?;
        assert_eq!(rt; (model.equations(), model.unknowns()), (0, 0));
    }
    Ok(())
}

// 1,365 resistors from node to node, each with a node of its own, and one more node: 1 + 1,365 * 3 of 4,096.
fn ladder(alloc: Global) -> Result<Vec<u8>, AllocError> {
    let mut text = Vec::new(alloc);
    for place in 0..1365_u32 {
        text.extend_from_slice(b"R")?;
        push_number(&mut text, place)?;
        text.extend_from_slice(b" n ")?;
        push_number(&mut text, place + 1)?;
        text.extend_from_slice(b"\n")?;
    }
    Ok(text)
}

// Four digits.
fn push_number(text: &mut Vec<u8>, number: u32) -> Result<(), AllocError> {
    for power in [1000, 100, 10, 1] {
        text.push(b'0' + (number / power % 10) as u8)?;
    }
    Ok(())
}

#[test]
fn one_unknown_too_many_is_refused(rt: HostRuntime) -> Result<(), Fail> {
    let full = ladder(rt.alloc())?;
    assert_eq!(rt;
        refusal(rt.alloc(), &full).map(|refused| refused.why),
        Some(Why::NoGround)
    );
    for (line, why) in [
        (b"Rx n 0".as_slice(), Why::TooMany),
        (b".opamp U n 0 0", Why::TooMany),
        (b".opamp R0000 n 0 0", Why::Twice),
    ] {
        let mut text = Vec::from_slice(rt.alloc(), &full)?;
        text.extend_from_slice(line)?;
        let place = Place::Line(1366);
        assert_eq!(rt; refusal(rt.alloc(), &text), Some(Refused { place, why }));
    }
    Ok(())
}

#[test]
fn a_refusal_is_the_same_wherever_its_text_is_cut(rt: HostRuntime) -> Result<(), Fail> {
    let text = b"R1 a 0\r\nF1 a 0 V1 # \xff\r\n\nH1 b 0 V2\nV1 a 0";
    let place = Place::Line(4);
    let why = Why::NoSuchSource;
    for cut in 0..=text.len() {
        let (front, back) = text.split_at(cut);
        let reader: NetlistReader<Res> = NetlistReader::new(rt.alloc())?;
        let reader = reader.feed(front)?.feed(back)?;
        match reader.finish() {
            Ok(_) => assert!(rt; false, "{cut}"),
            Err(error) => assert_eq!(rt; error, ReadModel::Refused(Refused { place, why })),
        }
    }
    Ok(())
}
