ghost use Rattle.std.specs.Prelude.{◌≡◌, IsTrue, ◌↔◌};

use sig_lists::Same;
use sig_terms::Term;

/// The stamp at which a process is cut, and from which on a signal isn't handled: 2^62.
pub const LAST_STAMP: u64 = 4611686018427387904;

/// How a process stands at the end of a run.
#[derive(Drop)]
pub enum State {
    /// It has ended.
    Ended { reason: Term },
    /// It waits at a receive.
    Waiting,
    /// It was cut: it has executed its turns, or a stamp is too great to go on.
    Cut,
}

impl Same for State {
    fn same(&self, other: &State) -> bool
        ensures { IsTrue result ↔ (self.now ≡ other.now) }
    {
        match self {
            State::Ended { reason } => match other {
                State::Ended { reason: another } => reason.same(another),
                _ => false,
            },
            State::Waiting => matches!(other, State::Waiting),
            State::Cut => matches!(other, State::Cut),
        }
    }
}
