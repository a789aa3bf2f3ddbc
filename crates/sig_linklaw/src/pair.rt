use sig_lists::Sequence;
use sig_terms::Pid;

/// Two processes with a link between them.
#[derive(Clone, Copy, PartialEq, Eq)]
pub struct Pair {
    /// The one with the lower pid.
    pub low: Pid,
    /// The other.
    pub high: Pid,
}

/// A list of pairs.
pub type Pairs = Sequence<Pair>;
