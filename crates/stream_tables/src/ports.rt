//! Calls over memory, with ample memory.

use port_io::{MemSink, MemSource, Pump, ReadError, Sink, Source, read_all, write_all};
use std::test::Fail;

#[test]
fn reads_all_in_pieces_of_any_size(rt: HostRuntime) -> Result<(), Fail> {
    let alloc = rt.alloc();
    for most in 1..12 {
        let mut source = MemSource::new(alloc, b"seventeen", most, &[])?;
        let bytes = read_all(alloc, &mut source, 9)?;
        assert_eq!(rt; bytes.as_slice(), b"seventeen".as_slice(), "at {most}");
    }
    Ok(())
}

#[test]
fn reads_nothing_past_a_fault_or_the_limit(rt: HostRuntime) -> Result<(), Fail> {
    let alloc = rt.alloc();
    let cases: [(u64, u64, ReadError, &[u8]); 3] = [
        (9, 2, ReadError::ReadFault, b"teen"),
        (9, 3, ReadError::ReadFault, b""),
        (8, 9, ReadError::TooLong, b""),
    ];
    for (limit, failing, want, left) in cases {
        let mut source = MemSource::new(alloc, b"seventeen", 5, &[failing])?;
        let outcome = read_all(alloc, &mut source, limit);
        assert_eq!(rt; outcome.err(), Some(want), "at {failing}");
        let rest = read_all(alloc, &mut source, 9)?;
        assert_eq!(rt; rest.as_slice(), left, "at {failing}");
    }
    Ok(())
}

#[test]
fn pumps_pieces_to_the_end(rt: HostRuntime) -> Result<(), Fail> {
    let mut source = MemSource::new(rt.alloc(), b"seventeen", 4, &[2])?;
    let mut pump = Pump::new(rt.alloc(), 9)?;
    let cases: [(Result<usize, ReadError>, &[u8]); 5] = [
        (Ok(4), b"seve"),
        (Err(ReadError::ReadFault), b""),
        (Ok(4), b"ntee"),
        (Ok(1), b"n"),
        (Ok(0), b""),
    ];
    for (want, piece) in cases {
        assert!(rt; !pump.ended());
        assert_eq!(rt; pump.next(&mut source), want);
        assert_eq!(rt; pump.piece(), piece);
    }
    assert!(rt; pump.ended());
    Ok(())
}

#[test]
fn a_pump_stays_too_long(rt: HostRuntime) -> Result<(), Fail> {
    let mut source = MemSource::new(rt.alloc(), b"seventeen", 4, &[])?;
    let mut pump = Pump::new(rt.alloc(), 6)?;
    for want in [Ok(4), Err(ReadError::TooLong), Err(ReadError::TooLong)] {
        assert!(rt; !pump.ended());
        assert_eq!(rt; pump.next(&mut source), want);
    }
    let rest = read_all(rt.alloc(), &mut source, 9)?;
    assert_eq!(rt; rest.as_slice(), b"en".as_slice());
    Ok(())
}

#[test]
fn writes_all_or_a_counted_part(rt: HostRuntime) -> Result<(), Fail> {
    let alloc = rt.alloc();
    let cases: [(usize, u64, Option<usize>); 4] = [
        (9, 9, None),
        (9, 1, Some(0)),
        (9, 3, Some(4)),
        (7, 9, Some(7)),
    ];
    for (room, failing, want) in cases {
        let mut sink = MemSink::new(alloc, 2, room, &[failing])?;
        let fault = write_all(&mut sink, b"seventeen").err();
        let written = fault.map(|fault| fault.written);
        assert_eq!(rt; written, want, "at {failing}");
        let count = want.unwrap_or(9);
        assert_eq!(rt; sink.bytes().len(), count, "at {failing}");
        assert!(rt; b"seventeen".starts_with(sink.bytes()));
    }
    Ok(())
}

#[test]
fn counts_a_flush_as_a_call(rt: HostRuntime) -> Result<(), Fail> {
    let mut sink = MemSink::new(rt.alloc(), 2, 9, &[2, 4])?;
    assert_eq!(rt; sink.write(b"abc").ok(), Some(2));
    assert!(rt; sink.flush().is_err());
    assert!(rt; sink.flush().is_ok());
    assert!(rt; sink.write(b"c").is_err());
    assert_eq!(rt; sink.write(b"").ok(), Some(0));
    assert_eq!(rt; sink.bytes(), b"ab".as_slice());
    Ok(())
}
