//! Certificates that read back, and texts that are refused in a line.

ghost use Rattle.cert_text.specs.Certificates.{IsCertificate};
ghost use Rattle.cert_reader.specs.Certificates.{certificate_in};

use cert_reader::{AnyCertificate, CERTIFICATE_LIMIT, ReadCert, read};
use cert_text::{Certificate, write};
use port_io::MemSink;
use residue_field::Field;
use std::alloc::Global;
use std::process::Abort;
use std::test::Fail;

// The certificate of `eq a x=1`.
const ONE: &str =
    "mixed-certificate 1\nkind matrix\nlength 9\neq a x=1\n\nshape 1 1 1 0 1\nrank 1\nbase 1=1\nmatch\nS 1: 1=1\nU 1: 1=1\nP 1: 1=1\nfirst |\nblock 1: 1 | q1 |\nlast |\nend\n";

// The certificate of the empty input.
const NONE: &str =
    "mixed-certificate 1\nkind matrix\nlength 0\n\nshape 0 0 0 0 0\nrank 0\nbase\nmatch\nfirst |\nlast |\nend\n";

// The same in version 2.
const SMALL: &str =
    "mixed-certificate 2\nfield 65521\nkind matrix\nlength 9\neq a x=1\n\nshape 1 1 1 0 1\nrank 1\n\
     base 1=1\nmatch\nS 1: 1=1\nU 1: 1=1\nP 1: 1=1\nfirst |\nblock 1: 1 | q1 |\nlast |\nend\n";

// The certificate of `eq a x=65521`, a number that is 0 in the smaller field.
const LARGE: &str =
    "mixed-certificate 2\nfield 2147483647\nkind matrix\nlength 13\neq a x=65521\n\nshape 1 1 1 0 1\nrank 1\n\
     base 1=1\nmatch\nS 1: 1=1675614749\nU 1: 1=65521\nP 1: 1=1\nfirst |\nblock 1: 1 | q1 |\nlast |\nend\n";

// Writes a certificate that was read from this text.
fn expect_written<F: Field>(
    rt: &impl Abort,
    alloc: Global,
    certificate: &Certificate<F>,
    text: &str,
) -> Result<(), Fail>
    requires { IsCertificate certificate.now }
{
    let mut sink = MemSink::new(alloc, 512, 512, &[])?;
    assert!(rt; write(certificate, &mut sink).is_ok());
    assert_eq!(rt; sink.bytes(), text.as_bytes());
    Ok(())
}

// Writes a certificate over the larger field, or over the smaller one.
fn expect_field(
    rt: &impl Abort,
    alloc: Global,
    certificate: &AnyCertificate,
    text: &str,
    is_large: bool,
) -> Result<(), Fail>
    requires { IsCertificate (certificate_in certificate.now) }
{
    match certificate {
        AnyCertificate::Small(certificate) => {
            assert!(rt; !is_large);
            expect_written(rt, alloc, certificate, text)
        }
        AnyCertificate::Large(certificate) => {
            assert!(rt; is_large);
            expect_written(rt, alloc, certificate, text)
        }
    }
}

// Reads a certificate, and writes it again.
fn expect_round_trip(
    rt: &impl Abort,
    alloc: Global,
    text: &str,
    is_large: bool,
) -> Result<(), Fail> {
    assert!(rt; text.len() <= CERTIFICATE_LIMIT);
    let Ok(certificate) = read(alloc, text.as_bytes()) else {
        return Err(Fail::from("it is the text of a certificate"));
    };
    expect_field(rt, alloc, &certificate, text, is_large)
}

#[test]
fn certificates_read_back(rt: HostRuntime) -> Result<(), Fail> {
    expect_round_trip(&rt, rt.alloc(), ONE, false)?;
    expect_round_trip(&rt, rt.alloc(), NONE, false)?;
    expect_round_trip(&rt, rt.alloc(), SMALL, false)?;
    expect_round_trip(&rt, rt.alloc(), LARGE, true)
}

// The text with something else in a place, or the text up to that place.
fn changed(alloc: Global, text: &str, place: &str, new: Option<&str>) -> Result<String, Fail> {
    let (before, after) = text.split_once(place).ok_or("the place is in the text")?;
    match new {
        Some(new) => Ok(format!(in alloc; "{before}{new}{after}")?),
        None => Ok(String::from_str(alloc, before)?),
    }
}

// The line in which a text is refused, if it is.
fn refused_line(alloc: Global, text: &str) -> Option<u32> {
    if CERTIFICATE_LIMIT < text.len() {
        return None;
    }
    match read(alloc, text.as_bytes()) {
        Err(ReadCert::Refused { line }) => Some(line),
        _ => None,
    }
}

// Each change makes the text one that is refused in this line.
fn expect_refusals(
    rt: &impl Abort,
    alloc: Global,
    text: &str,
    cases: &[(&str, Option<&str>, u32)],
) -> Result<(), Fail> {
    for &(place, new, line) in cases {
        let text = changed(alloc, text, place, new)?;
        assert_eq!(rt; refused_line(alloc, &text), Some(line));
    }
    Ok(())
}

#[test]
fn the_first_line_that_no_certificate_has_is_told(rt: HostRuntime) -> Result<(), Fail> {
    let of_none: [(&str, Option<&str>, u32); 4] = [
        ("first", None, 9),
        ("end\n", Some("end\nend\n"), 12),
        ("shape 0 0 0 0 0", Some("shape 4096 4096 4096 4096 8192"), 9),
        ("shape 0", Some("shape 4097"), 5),
    ];
    expect_refusals(&rt, rt.alloc(), NONE, &of_none)?;
    let of_one: [(&str, Option<&str>, u32); 21] = [
        // it breaks off
        ("mixed", None, 1),
        (" 1\nkind", None, 1),
        ("kind", None, 2),
        ("\nrank", None, 5),
        ("rank", None, 6),
        ("U 1", None, 10),
        ("end", None, 15),
        // it goes on
        ("end\n", Some("end\n\n"), 16),
        // the echo is not there
        ("length 9", Some("length 8388608"), 4),
        // a number is too large, or is not written so
        ("length 9", Some("length 8388609"), 3),
        ("length 9", Some("length 09"), 3),
        ("rank 1", Some("rank 8193"), 6),
        ("base 1=1", Some("base 01=1"), 7),
        ("S 1: 1=1", Some("S 1: 1=65521"), 9),
        ("S 1: 1=1", Some("S 1: 1=0"), 9),
        ("block 1", Some("block 2"), 13),
        // no kind, lists that do not rise, and a block without a column
        ("matrix", Some("plant"), 2),
        ("P 1: 1=1", Some("P 1: 1=1 1=2"), 11),
        ("block 1: 1 |", Some("block 1: 1 1 |"), 13),
        ("block 1: 1 |", Some("block 1: |"), 13),
        ("q1 |\n", Some("q1 | 1\n"), 13),
    ];
    expect_refusals(&rt, rt.alloc(), ONE, &of_one)
}

#[test]
fn the_field_is_told_in_version_2_alone(rt: HostRuntime) -> Result<(), Fail> {
    let of_large: [(&str, Option<&str>, u32); 9] = [
        // no version, no field, and none of the two
        ("certificate 2", Some("certificate 3"), 1),
        ("field 2147483647\n", Some(""), 2),
        ("field 2147483647", Some("field 7"), 2),
        ("7\nkind", None, 2),
        // version 1 does not tell its field, which is the smaller one
        ("certificate 2", Some("certificate 1"), 2),
        ("2\nfield 2147483647", Some("1"), 9),
        // values of the field, each line one later than in version 1
        ("field 2147483647", Some("field 65521"), 10),
        ("U 1: 1=65521", Some("U 1: 1=2147483647"), 11),
        ("end\n", Some("end\n\n"), 17),
    ];
    expect_refusals(&rt, rt.alloc(), LARGE, &of_large)?;
    let of_small: [(&str, Option<&str>, u32); 2] = [
        ("S 1: 1=1", Some("S 1: 1=65521"), 10),
        ("field 65521", Some("field 065521"), 2),
    ];
    expect_refusals(&rt, rt.alloc(), SMALL, &of_small)
}
