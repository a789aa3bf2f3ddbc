//! The shapes of a chart.

use crate::sort::Sort;
use sig_lists::Sequence;

/// Bytes of a script or a record.
pub type Bytes = Sequence<u8>;

/// A process.
#[derive(Drop)]
pub struct Lane {
    /// Its pid, which is the lane's place from the left, from 0.
    pub pid: u32,
    /// Its name.
    pub name: Bytes,
    /// How it stands.
    pub state: Bytes,
}

/// An event.
#[derive(Drop)]
pub struct Mark {
    /// Its process: the lane.
    pub pid: u32,
    /// Its row, from the top, from 0.
    pub row: u32,
    /// Its stamp.
    pub stamp: u64,
    /// Whether the process handled a signal; else it executed an instruction.
    pub handled: bool,
    /// What the process did, and what came of it.
    pub text: Bytes,
}

/// A signal that was handled.
#[derive(Clone, Copy, PartialEq, Eq)]
pub struct Arrow {
    /// What it is.
    pub sort: Sort,
    /// Its number among those of its sender to its receiver, from 1.
    pub number: u64,
    /// The process that sent it.
    pub from: u32,
    /// The row of the event that sent it; `None` where that event isn't shown.
    pub start: Option<u32>,
    /// The process that handled it.
    pub to: u32,
    /// The row of the event that handled it.
    pub end: u32,
}

/// A signal that is still queued.
#[derive(Drop)]
pub struct Stub {
    /// What it is.
    pub sort: Sort,
    /// The process that sent it.
    pub from: u32,
    /// The row of the event that sent it.
    pub start: u32,
    /// The process that it is for.
    pub to: u32,
    /// What it says.
    pub text: Bytes,
}

/// A chart.
#[derive(Drop)]
pub struct Chart {
    /// How many processes the script has.
    pub count: u32,
    /// How many rows there are.
    pub rows: u32,
    /// The processes.
    pub lanes: Sequence<Lane>,
    /// The events.
    pub marks: Sequence<Mark>,
    /// The signals that were handled.
    pub arrows: Sequence<Arrow>,
    /// The signals that are queued.
    pub stubs: Sequence<Stub>,
}
