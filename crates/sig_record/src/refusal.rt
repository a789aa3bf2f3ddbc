//! Why bytes are read as no record.

ghost use Rattle.std.specs.Prelude.{◌≡◌};
ghost use Rattle.sig_record.specs.declared.refusal.Refusal.TheVariants as refused;
ghost use Rattle.sig_record.specs.declared.refusal.RecordError.TheVariants as wrong;

use std::alloc::AllocError;
use thiserror::Error;

/// Why bytes give no record.
#[derive(Clone, Copy, Debug, PartialEq, Eq, Error)]
pub enum RecordError {
    /// The bytes are no record's text: this line, from 1, is the first that can't stand behind those
    /// before it, or that isn't whole.
    #[error("line {line}: no record")]
    BadRecord { line: u64 },
    /// Memory ran out.
    #[error("out of memory")]
    Memory,
}

impl From<AllocError> for RecordError {
    ghost from_gives = { λ _ e. e ≡ wrong.Memory };

    fn from(_e: AllocError) -> RecordError {
        RecordError::Memory
    }
}

/// Why lines are not read.
#[derive(Clone, Copy)]
pub(crate) enum Refusal {
    /// A line can't stand there: with it begins a rest of so many bytes.
    Bad { left: usize },
    /// Memory ran out.
    Memory,
}

impl From<AllocError> for Refusal {
    ghost from_gives = { λ _ e. e ≡ refused.Memory };

    fn from(_e: AllocError) -> Refusal {
        Refusal::Memory
    }
}
