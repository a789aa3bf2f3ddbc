ghost use Rattle.std.specs.Prelude.{◌≡◌, Some};
ghost use Rattle.sig_call.specs.CallTexts.{word_of, error_text};
ghost use Rattle.sig_call.specs.declared.fault.CallError.TheVariants.{Memory};

use sig_tokens::FaultKind;
use std::alloc::AllocError;
use std::error::Error;
use std::fmt;

/// Why a line can't stand in a text of calls.
#[derive(Clone, Copy, Debug, PartialEq, Eq)]
pub enum CallFault {
    /// Its first token is the name `call`, and it can't be cut into tokens, or isn't one of the forms
    /// of a call.
    Form,
    /// It has a variable that begins with `Call_`.
    Reserved,
}

impl CallFault {
    /// The word for it, as a program tells it: `call_form` or `reserved_variable`.
    pub fn word(self) -> &'static str
        ensures { result.now ≡ word_of self }
    {
        match self {
            CallFault::Form => "call_form",
            CallFault::Reserved => "reserved_variable",
        }
    }
}

impl fmt::Display for CallFault {
    ghost output = { λ kind. Some (word_of kind) };

    fn fmt<W: fmt::Write>(&self, f: &mut fmt::Formatter<W>) -> fmt::Result {
        f.write_str(self.word())
    }
}

/// Why a text of calls gives no script. Lines are those of that text, and count from 1.
#[derive(Clone, Copy, Debug, PartialEq, Eq)]
pub enum CallError {
    /// The text has more than [`MOST_BYTES`](sig_reader::MOST_BYTES) bytes.
    TooLong,
    /// A line can't stand in a text of calls.
    Call { line: u64, kind: CallFault },
    /// The expanded text spells no script. The line is the one from which the refused line comes: the
    /// line after the last where the expanded text ends too early, and 0 where that text is too long.
    Script { line: u64, kind: FaultKind },
    /// There was no memory.
    Memory,
}

impl fmt::Display for CallError {
    ghost output = { λ e. Some (error_text e) };

    fn fmt<W: fmt::Write>(&self, f: &mut fmt::Formatter<W>) -> fmt::Result {
        match self {
            CallError::TooLong => f.write_str("too long"),
            CallError::Call { line, kind } => write!(f, "line {line}: {kind}"),
            CallError::Script { line, kind } => write!(f, "line {line}: {kind}"),
            CallError::Memory => f.write_str("out of memory"),
        }
    }
}

impl Error for CallError {}

impl From<AllocError> for CallError {
    ghost from_gives = { λ _ e. e ≡ Memory };

    fn from(_e: AllocError) -> CallError {
        CallError::Memory
    }
}
