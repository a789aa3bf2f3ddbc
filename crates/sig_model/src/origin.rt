use sig_lists::Sequence;
use sig_terms::Pid;

/// Which event sent a signal.
#[derive(Clone, Copy, PartialEq, Eq)]
pub struct Origin {
    /// The process that sent the signal.
    pub from: Pid,
    /// The process that the signal is for.
    pub to: Pid,
    /// The signal's number among those of this sender to this receiver, from 1.
    pub number: u64,
    /// The number of the event that sent it, among its sender's events, from 1.
    pub event: u64,
}

/// A list of origins.
pub type Origins = Sequence<Origin>;
