ghost use Rattle.std.specs.Prelude.{◌≡◌};
ghost use Rattle.sig_view.specs.Statuses.{number_of, of_script, of_tool};
ghost use Rattle.sig_view.specs.declared.status.ViewStatus.TheVariants as status;

use sig_script::{FaultKind, ScriptError};
use sig_tool::ToolStatus;
use std::alloc::AllocError;

/// How a call of the viewer ended.
#[derive(Clone, Copy, Debug, PartialEq, Eq)]
pub enum ViewStatus {
    /// The command's text was written whole.
    Done,
    /// The script's part of the input is no script, or is too long for one: then it is line 0.
    BadScript { line: u64, kind: FaultKind },
    /// The arguments aren't those of a command.
    Usage,
    /// A read failed.
    ReadFault,
    /// A write to `out` failed.
    WriteFault,
    /// There was no memory to go on.
    Memory,
    /// The record is none of a settled run of the script: from this event on, counted from 1.
    No { event: u64 },
    /// The record's part of the input is no record: this line, counted from its first, is the first
    /// that can't stand there.
    BadRecord { line: u64 },
    /// The input has more than [`MOST_INPUT`](sig_tool::MOST_INPUT) bytes.
    TooLong,
    /// The record is that of a settled run, and lacks the event of which `concurrent` asks.
    NoEvent,
    /// The record is that of a settled run, and more than [`MOST_EVENTS`](sig_chart::MOST_EVENTS) of
    /// its events have the stamps that `chart` is to draw.
    TooManyEvents,
    /// The script has no outcome of the number for whose record `outcomes` was asked: all outcomes of its
    /// settled runs are fewer than that. Or the number is 0.
    NoOutcome,
    /// No outcome of this number was found, but the search was cut off: it has met so many states, more
    /// than it may visit. There may be one.
    NotFound { states: u64 },
    /// The outcomes that the search found were written whole, or the record of a run that ends in one of them.
    /// It was cut off: it has met so many states, more than it may visit, and there may be more outcomes.
    Unfinished { states: u64 },
}

impl ViewStatus {
    /// The number with which the program ends. It is that of the tool for the same cause; 10, which the
    /// tool has for a cause of its own, isn't used. Where all was written it is 0.
    pub fn number(self) -> u8
        ensures { result ≡ number_of self }
    {
        match self {
            ViewStatus::Done => 0,
            ViewStatus::BadScript { line: _, kind: _ } => 1,
            ViewStatus::Usage => 2,
            ViewStatus::ReadFault => 3,
            ViewStatus::WriteFault => 4,
            ViewStatus::Memory => 5,
            ViewStatus::No { event: _ } => 6,
            ViewStatus::BadRecord { line: _ } => 7,
            ViewStatus::TooLong => 8,
            ViewStatus::NoEvent => 9,
            ViewStatus::TooManyEvents => 11,
            ViewStatus::NoOutcome => 12,
            ViewStatus::NotFound { states: _ } => 13,
            ViewStatus::Unfinished { states: _ } => 0,
        }
    }
}

impl From<AllocError> for ViewStatus {
    ghost from_gives = { λ _ s. s ≡ status.Memory };

    fn from(_e: AllocError) -> ViewStatus {
        ViewStatus::Memory
    }
}

impl From<ScriptError> for ViewStatus {
    ghost from_gives = { λ e s. s ≡ of_script e };

    fn from(e: ScriptError) -> ViewStatus {
        match e {
            ScriptError::Fault { line, kind } => ViewStatus::BadScript { line, kind },
            ScriptError::Memory => ViewStatus::Memory,
        }
    }
}

/// The status that says why there is no input, as the tool says it. Those that the tool has for other
/// causes, of which reading answers none, are `Usage`.
pub(crate) fn of_tool(told: ToolStatus) -> ViewStatus
    ensures { result ≡ of_tool told }
{
    match told {
        ToolStatus::BadScript { line, kind } => ViewStatus::BadScript { line, kind },
        ToolStatus::ReadFault => ViewStatus::ReadFault,
        ToolStatus::Memory => ViewStatus::Memory,
        ToolStatus::No { event } => ViewStatus::No { event },
        ToolStatus::BadRecord { line } => ViewStatus::BadRecord { line },
        ToolStatus::TooLong => ViewStatus::TooLong,
        _ => ViewStatus::Usage,
    }
}
