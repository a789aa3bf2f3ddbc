ghost use Rattle.std.specs.Prelude.{◌≡◌};
ghost use Rattle.sig_host.specs.declared.words_error.WordsError.TheVariants.{Memory};

use std::alloc::AllocError;
use thiserror::Error;

/// Why the arguments gave no settings.
#[derive(Clone, Copy, Debug, PartialEq, Eq, Error)]
pub enum WordsError {
    /// The command doesn't take these arguments, or a value isn't in its range.
    #[error("the command doesn't take these arguments")]
    Usage,
    /// There was no memory.
    #[error("out of memory")]
    Memory,
}

impl From<AllocError> for WordsError {
    ghost from_gives = { λ _ e. e ≡ Memory };

    fn from(_e: AllocError) -> WordsError {
        WordsError::Memory
    }
}
