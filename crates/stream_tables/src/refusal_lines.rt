//! Tests of the texts of refusals.

use port_io::MemSink;
use refusals::{Place, Refused, Why};
use std::test::Fail;
use text_writer::TextWriter;

#[test]
fn puts_places_and_reasons(rt: HostRuntime) -> Result<(), Fail> {
    let cases = [
        (Place::Line(3), Why::BadByte, "line 3: bad byte"),
        (Place::Document, Why::BadWord, "document: bad word"),
        (Place::Component(1), Why::BadShape, "component 1: bad shape"),
        (Place::Stream(20), Why::BadName, "stream 20: bad name"),
        (Place::Unit(7), Why::BadNumber, "unit 7: bad number"),
        (Place::Line(1), Why::Vanish, "line 1: vanishes in the field"),
        (Place::Line(2), Why::Twice, "line 2: twice"),
        (Place::Line(4097), Why::TooMany, "line 4097: too many"),
        (Place::Line(5), Why::Unsupported, "line 5: unsupported"),
        (Place::Document, Why::NoGround, "document: no ground"),
        (Place::Line(6), Why::NoSuchSource, "line 6: no such source"),
        (Place::Document, Why::NotToml, "document: not TOML"),
        (Place::Document, Why::BadVersion, "document: bad version"),
        (Place::Document, Why::UnknownKey, "document: unknown key"),
        (Place::Unit(1), Why::Missing, "unit 1: missing key"),
        (Place::Component(2), Why::BadValue, "component 2: bad value"),
        (Place::Unit(3), Why::BadKind, "unit 3: bad kind"),
        (Place::Unit(4), Why::Undeclared, "unit 4: undeclared"),
    ];
    for (place, why, want) in cases {
        let mut sink = MemSink::new(rt.alloc(), 64, 64, &[])?;
        let mut writer = TextWriter::new(&mut sink);
        Refused { place, why }.put(&mut writer);
        assert!(rt; writer.finish().is_ok());
        assert_eq!(rt; sink.bytes(), want.as_bytes());
    }
    Ok(())
}
