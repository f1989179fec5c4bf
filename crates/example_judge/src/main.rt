//! Reads a certificate from standard input, and prints whether it is right for the input that it repeats: an example of a
//! program on the crates (docs/as-a-library.md).
#![tactic(auto)]

use cert_reader::CERTIFICATE_LIMIT;
use cert_verdict::{NotAccepted, judge};
use port_io::{StdSource, read_all};
use std::process::ExitCode;

fn main(rt: HostRuntime) -> ExitCode {
    let mut source = StdSource::new(rt.stdin());
    let Ok(text) = read_all(rt.alloc(), &mut source, CERTIFICATE_LIMIT as u64) else {
        return ExitCode::from(4);
    };
    let (printed, status) = match judge(rt.alloc(), text) {
        Ok(()) => (println!(rt; "right"), 0),
        Err(NotAccepted::Rejected { rule }) => (
            println!(rt; "not right: it breaks rule {rule}"),
            7,
        ),
        Err(NotAccepted::Refused { line }) => (println!(rt; "no certificate: see line {line}"), 3),
        Err(NotAccepted::NoMemory) => return ExitCode::from(6),
    };
    match printed {
        Ok(()) => ExitCode::from(status),
        Err(_) => ExitCode::from(5),
    }
}
