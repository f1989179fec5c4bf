//! The program `mixed`: the process's words and streams around the top call.
#![tactic(auto)]

use port_io::{StdSink, StdSource};
use report_cli::{Status, run};
use std::alloc::Global;
use std::process::ExitCode;
use std::rt::Env;
use std::{env, io};

fn main(rt: HostRuntime) -> ExitCode {
    let status = match words(&rt) {
        Ok(words) => {
            let mut source = StdSource::new(rt.stdin());
            let mut out = StdSink::new(rt.stdout());
            let mut notes = StdSink::new(rt.stderr());
            run(rt.alloc(), &words, &mut source, &mut out, &mut notes)
        }
        Err(status) => status,
    };
    ExitCode::from(status.number())
}

// The words of the command line: no status but `Memory`, and `Usage` where the system does not give them as text.
fn words(rt: &(impl Env + AllocGlobal)) -> Result<Vec<String>, Status> {
    match env::args(rt) {
        Ok(args) => match args.collect(rt.alloc()) {
            Ok(words) => Ok(words),
            Err(_) => Err(Status::Memory),
        },
        Err(error) if error.kind() == io::ErrorKind::InvalidData => Err(Status::Usage),
        Err(_) => Err(Status::Memory),
    }
}
