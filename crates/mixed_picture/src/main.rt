//! The program `mixed_picture`: the process's streams around the call that draws a certificate.
#![tactic(auto)]

use picture_cli::run;
use port_io::{StdSink, StdSource};
use std::process::ExitCode;

fn main(rt: HostRuntime) -> ExitCode {
    let mut source = StdSource::new(rt.stdin());
    let mut out = StdSink::new(rt.stdout());
    let mut notes = StdSink::new(rt.stderr());
    let status = run(rt.alloc(), &mut source, &mut out, &mut notes);
    ExitCode::from(status.number())
}
