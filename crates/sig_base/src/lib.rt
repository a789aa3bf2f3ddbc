//! Where bytes come from and go to, the gate at which events are told, and a counter for
//! contracts.
//!
//! A [`Source`] gives bytes and a [`Sink`] takes them, a piece a call, and either may fail at a
//! call. [`read_all`] and [`write_whole`] make the calls until all is read or written. There are
//! sources and sinks in memory, ones that fail at chosen calls, and adapters of std's readers and
//! writers.
#![tactic(auto)]

mod end;
mod failing_sink;
mod failing_source;
mod gate;
mod memory_sink;
mod memory_source;
mod reading;
mod sink;
mod source;
mod std_sink;
mod std_source;
mod steps;
mod writing;

pub use end::End;
pub use failing_sink::FailingSink;
pub use failing_source::FailingSource;
pub use gate::{Gate, OpenGate, Point};
pub use memory_sink::MemorySink;
pub use memory_source::MemorySource;
pub use reading::{ReadAll, read_all};
pub use sink::Sink;
pub use source::{Failed, Source};
pub use std_sink::StdSink;
pub use std_source::StdSource;
pub use steps::Steps;
pub use writing::{Written, write_whole};
