//! Where bytes come from and where they go.
//!
//! A source or a sink counts its faults, and code over it cannot raise that count: so a call above
//! may answer a fault only where the outside gave one.
#![tactic(auto)]

mod asking;
mod memory;
mod ports;
mod pump;
mod reading;
mod streams;
mod writing;

pub use asking::Asked;
pub use memory::{MemSink, MemSource};
pub use ports::{Failed, Sink, Source};
pub use pump::Pump;
pub use reading::{ReadError, read_all};
pub use streams::{StdSink, StdSource};
pub use writing::{WriteFault, write_all};
