//! Why bytes are read as no term.

ghost use Rattle.std.specs.Prelude.{◌≡◌};
ghost use Rattle.sig_terms.specs.declared.refusal.ReadTerm.TheVariants.{Memory};

use std::alloc::AllocError;
use thiserror::Error;

/// Why a reader gave no term.
#[derive(Clone, Copy, Debug, PartialEq, Eq, Error)]
pub enum ReadTerm {
    /// The bytes are the text of no term of at most `READ_NODES` nodes and depth `READ_DEPTH`.
    #[error("no term")]
    BadTerm,
    /// Memory ran out.
    #[error("out of memory")]
    Memory,
}

impl From<AllocError> for ReadTerm {
    ghost from_gives = { λ _ e. e ≡ Memory };

    fn from(_e: AllocError) -> ReadTerm {
        ReadTerm::Memory
    }
}
