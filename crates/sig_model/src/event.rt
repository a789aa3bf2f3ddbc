ghost use Rattle.std.specs.Prelude.{◌≡◌, IsTrue, ◌↔◌};

use sig_lists::{Same, Sequence};
use sig_terms::{Pid, Term};

/// What a process did at an event.
#[derive(Drop)]
pub enum Did {
    /// It executed the instruction at this place. Places count from 1; the one after the last
    /// instruction is the implicit stop.
    Exec { place: u32 },
    /// It handled the signal with this number of this sender.
    From { from: Pid, number: u64 },
}

/// How an event went.
#[derive(Drop)]
pub enum Outcome {
    /// The message was sent to this target.
    Sent {
        to: Term,
        message: Term,
    },
    /// A variable got the value.
    Set {
        value: Term,
    },
    /// The instruction has no result.
    Done,
    /// The answer of the instruction.
    Answered {
        yes: bool,
    },
    /// A receive took the message.
    Took {
        /// The number of the clause that took it, from 1.
        clause: u32,
        /// How many messages the scan looked at, the one that was taken among them.
        looked: u64,
        /// The message.
        message: Term,
    },
    /// A receive took none, and the process went on with its `after` part.
    After {
        /// How many messages the scan looked at.
        looked: u64,
    },
    /// The process ended.
    Ended {
        reason: Term,
    },
    /// The message was appended to the process's messages.
    Kept {
        message: Term,
    },
    /// The signal had no effect.
    Dropped,
    /// A link signal set up the link.
    Linked,
    /// An unlink signal ended the link, where there was one, and was acknowledged.
    Unlinked,
    /// An acknowledgement had the awaited id.
    Acked,
    /// A monitor signal came: the process bears its monitor.
    Watched,
    /// A demonitor signal ended a monitor that the process bore.
    Unwatched,
    /// The process has ended, and the sender of a link or a monitor signal was told so.
    NoProc,
}

/// An event of a process.
#[derive(Drop)]
pub struct Event {
    /// The stamp, which orders the events of all processes.
    pub stamp: u64,
    /// What the process did.
    pub did: Did,
    /// How it went.
    pub outcome: Outcome,
}

/// A list of events.
pub type Events = Sequence<Event>;

impl Same for Did {
    fn same(&self, other: &Did) -> bool
        ensures { IsTrue result ↔ (self.now ≡ other.now) }
    {
        match self {
            Did::Exec { place } => match other {
                Did::Exec { place: another } => place == another,
                Did::From { from: _, number: _ } => false,
            },
            Did::From { from, number } => match other {
                Did::Exec { place: _ } => false,
                Did::From {
                    from: another,
                    number: its,
                } => from.0 == another.0 && number == its,
            },
        }
    }
}

impl Outcome {
    /// Whether this message was sent to this target.
    fn is_sent(&self, to: &Term, message: &Term) -> bool
        ensures { IsTrue result ↔ (Outcome.Sent to.now message.now ≡ self.now) }
    {
        match self {
            Outcome::Sent {
                to: another,
                message: its,
            } => to.same(another) && message.same(its),
            _ => false,
        }
    }

    /// Whether a receive took this message with this clause, after it looked at so many.
    fn is_taken(&self, clause: u32, looked: u64, message: &Term) -> bool
        ensures { IsTrue result ↔ (Outcome.Took clause looked message.now ≡ self.now) }
    {
        match self {
            Outcome::Took {
                clause: another,
                looked: count,
                message: its,
            } => clause == *another && looked == *count && message.same(its),
            _ => false,
        }
    }
}

impl Same for Outcome {
    fn same(&self, other: &Outcome) -> bool
        ensures { IsTrue result ↔ (self.now ≡ other.now) }
    {
        match self {
            Outcome::Sent { to, message } => other.is_sent(to, message),
            Outcome::Set { value } => match other {
                Outcome::Set { value: another } => value.same(another),
                _ => false,
            },
            Outcome::Done => matches!(other, Outcome::Done),
            Outcome::Answered { yes } => match other {
                Outcome::Answered { yes: another } => yes == another,
                _ => false,
            },
            Outcome::Took {
                clause,
                looked,
                message,
            } => other.is_taken(*clause, *looked, message),
            Outcome::After { looked } => match other {
                Outcome::After { looked: another } => looked == another,
                _ => false,
            },
            Outcome::Ended { reason } => match other {
                Outcome::Ended { reason: another } => reason.same(another),
                _ => false,
            },
            Outcome::Kept { message } => match other {
                Outcome::Kept { message: another } => message.same(another),
                _ => false,
            },
            Outcome::Dropped => matches!(other, Outcome::Dropped),
            Outcome::Linked => matches!(other, Outcome::Linked),
            Outcome::Unlinked => matches!(other, Outcome::Unlinked),
            Outcome::Acked => matches!(other, Outcome::Acked),
            Outcome::Watched => matches!(other, Outcome::Watched),
            Outcome::Unwatched => matches!(other, Outcome::Unwatched),
            Outcome::NoProc => matches!(other, Outcome::NoProc),
        }
    }
}

impl Same for Event {
    fn same(&self, other: &Event) -> bool
        ensures { IsTrue result ↔ (self.now ≡ other.now) }
    {
        self.stamp == other.stamp && self.did.same(&other.did) && self.outcome.same(&other.outcome)
    }
}
