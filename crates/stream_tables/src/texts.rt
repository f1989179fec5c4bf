//! Pieces, numbers and items over a sink in memory.

use port_io::{MemSink, Sink};
use std::alloc::Global;
use std::test::Fail;
use text_writer::TextWriter;

// Pieces, numbers behind their marks, and items, given in calls of two bytes.
#[test]
fn puts_pieces_numbers_and_items(rt: HostRuntime) -> Result<(), Fail> {
    let mut sink = MemSink::new(rt.alloc(), 2, 200, &[])?;
    let mut writer = TextWriter::new(&mut sink);
    let numbers = [
        (b':', 0),
        (b' ', 9),
        (b' ', 10),
        (b'=', 65_520),
        (b'/', 18_446_744_073_709_551_615),
    ];
    writer.piece(b"rank");
    for (mark, number) in numbers {
        writer.number(mark, number);
    }
    writer.item(1, 65_520);
    writer.item(8_192, 0);
    writer.text("\n");
    let outcome = writer.finish();
    assert!(rt; outcome.is_ok());
    assert_eq!(rt;
        sink.bytes(),
        b"rank:0 9 10=65520/18446744073709551615 1=65520 8192=0\n".as_slice()
    );
    Ok(())
}

// Puts a piece many times, and then one that is longer than what may wait.
fn put_many<K: Sink>(alloc: Global, sink: &mut K) -> Result<Option<usize>, Fail> {
    let long = vec![in alloc; b'x'; 5000]?;
    let mut writer = TextWriter::new(sink);
    for _ in 0..1000 {
        writer.piece(b"12345\n");
    }
    writer.piece(&long);
    Ok(writer.finish().err().map(|fault| fault.written))
}

#[test]
fn gathers_small_pieces(rt: HostRuntime) -> Result<(), Fail> {
    let alloc = rt.alloc();
    let mut whole = Vec::new(alloc);
    for _ in 0..1000 {
        whole.extend_from_slice(b"12345\n")?;
    }
    whole.extend_from_slice(&vec![in alloc; b'x'; 5000]?)?;
    let cases: [(u64, Option<usize>); 4] = [
        (99, None),
        (1, Some(0)),
        (3, Some(4092)),
        (5, Some(8500)),
    ];
    for (failing, want) in cases {
        let mut sink = MemSink::new(alloc, 2500, 20_000, &[failing])?;
        let written = put_many(alloc, &mut sink)?;
        assert_eq!(rt; written, want, "at {failing}");
        assert_eq!(rt;
            sink.bytes().len(),
            want.unwrap_or(whole.len()),
            "at {failing}"
        );
        assert!(rt; whole.starts_with(sink.bytes()));
    }
    Ok(())
}
