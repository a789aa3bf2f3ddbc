use sig_process::Process;
use sig_queue::QSeat;
use std::snapshot::Snapshot;

/// What a crew was at the begin of a round, as contracts see it.
#[derive(Drop)]
pub(crate) struct Base {
    // Nothing but a size, which a snapshot alone doesn't have.
    pub(crate) size: u8,
    /// The crew's processes.
    pub(crate) crew: Snapshot<Vec<Process>>,
}

/// A worker's part of a crew at work: its processes, and its seat at each queue.
#[derive(Drop)]
pub(crate) struct Part {
    /// The worker's number, from 0.
    pub(crate) worker: u32,
    /// The pid of its first process.
    pub(crate) first: u32,
    /// Its processes, with pids from `first` on.
    pub(crate) procs: Vec<Process>,
    /// Its seat at the queue of each process of the crew, by pid.
    pub(crate) seats: Vec<QSeat>,
    /// The crew at the round's begin.
    pub(crate) base: Base,
}

/// A part at the end of its work, and whether it had an event.
#[derive(Drop)]
pub(crate) struct Worked {
    /// The part.
    pub(crate) part: Part,
    /// Whether it had an event.
    pub(crate) moved: bool,
}
