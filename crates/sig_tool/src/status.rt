ghost use Rattle.std.specs.Prelude.{◌≡◌};
ghost use Rattle.sig_tool.specs.Statuses.{number_of, of_call_error, of_record_error, of_script_error};
ghost use Rattle.sig_tool.specs.declared.status.ToolStatus.TheVariants as status;

use sig_call::{CallError, CallFault};
use sig_record::RecordError;
use sig_script::{FaultKind, ScriptError};
use std::alloc::AllocError;

/// How a call of the tool ended.
#[derive(Clone, Copy, Debug, PartialEq, Eq)]
pub enum ToolStatus {
    /// The command's text was written whole.
    Done,
    /// The script's part of the input is no script, or is too long for one: then it is line 0. Or a text
    /// of calls is expanded to no script: then it is the line of that text from which the refused line
    /// comes; line 0 where what it is expanded to is too long for a script, and the line after the last
    /// where that ends too early.
    BadScript { line: u64, kind: FaultKind },
    /// The arguments aren't those of a command.
    Usage,
    /// A read failed.
    ReadFault,
    /// A write to `out` failed.
    WriteFault,
    /// There was no memory to go on.
    Memory,
    /// The record is none of a settled run of the script: from this event on, counted from 1.
    No { event: u64 },
    /// The record's part of the input is no record: this line, counted from its first, is the first
    /// that can't stand there.
    BadRecord { line: u64 },
    /// The record is that of a settled run, and lacks an event of which `before` asks.
    NoEvent,
    /// The input has more than [`MOST_INPUT`](crate::MOST_INPUT) bytes; or a text of calls has more
    /// than [`MOST_BYTES`](sig_script::MOST_BYTES).
    TooLong,
    /// This line can't stand in a text of calls.
    BadCall { line: u64, kind: CallFault },
}

impl ToolStatus {
    /// The number with which the program ends.
    pub fn number(self) -> u8
        ensures { result ≡ number_of self }
    {
        match self {
            ToolStatus::Done => 0,
            ToolStatus::BadScript { line: _, kind: _ } => 1,
            ToolStatus::Usage => 2,
            ToolStatus::ReadFault => 3,
            ToolStatus::WriteFault => 4,
            ToolStatus::Memory => 5,
            ToolStatus::No { event: _ } => 6,
            ToolStatus::BadRecord { line: _ } => 7,
            ToolStatus::TooLong => 8,
            ToolStatus::NoEvent => 9,
            ToolStatus::BadCall { line: _, kind: _ } => 10,
        }
    }
}

impl From<AllocError> for ToolStatus {
    ghost from_gives = { λ _ s. s ≡ status.Memory };

    fn from(_e: AllocError) -> ToolStatus {
        ToolStatus::Memory
    }
}

impl From<ScriptError> for ToolStatus {
    ghost from_gives = { λ e s. s ≡ of_script_error e };

    fn from(e: ScriptError) -> ToolStatus {
        match e {
            ScriptError::Fault { line, kind } => ToolStatus::BadScript { line, kind },
            ScriptError::Memory => ToolStatus::Memory,
        }
    }
}

impl From<RecordError> for ToolStatus {
    ghost from_gives = { λ e s. s ≡ of_record_error e };

    fn from(e: RecordError) -> ToolStatus {
        match e {
            RecordError::BadRecord { line } => ToolStatus::BadRecord { line },
            RecordError::Memory => ToolStatus::Memory,
        }
    }
}

impl From<CallError> for ToolStatus {
    ghost from_gives = { λ e s. s ≡ of_call_error e };

    fn from(e: CallError) -> ToolStatus {
        match e {
            CallError::TooLong => ToolStatus::TooLong,
            CallError::Call { line, kind } => ToolStatus::BadCall { line, kind },
            CallError::Script { line, kind } => ToolStatus::BadScript { line, kind },
            CallError::Memory => ToolStatus::Memory,
        }
    }
}
