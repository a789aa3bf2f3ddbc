ghost use Rattle.std.specs.Prelude.{◌≡◌, IfOk, MatchOption, false, true};
ghost use Rattle.sig_terms.specs.Words.{is_token};

use crate::bytes::spells_token;
use std::alloc::{AllocError, Global};
use std::marker::Model;

/// A name token or a variable token of a script: a letter and what may follow it, at most
/// `MOST_WORD_BYTES` bytes.
#[derive(Drop)]
pub struct Name {
    bytes: Vec<u8>,
}

impl Model for Name {
    ghost use Rattle.std.specs.Prelude.{◌≡◌, ℕ, List, true};
    ghost use Rattle.sig_terms.specs.Words.{is_token};

    ghost Value = { List ℕ };

    ghost view = { λ n. n.bytes.items };

    ghost invariant = { λ n. is_token n.bytes.items ≡ true };
}

impl Name {
    /// The name or variable of these bytes. `None` exactly where they are neither a name token nor
    /// a variable token. The error is want of memory.
    pub fn new(alloc: Global, bytes: &[u8]) -> Result<Option<Name>, AllocError>
        ensures { IfOk result (λ name. MatchOption name (is_token bytes.now ≡ false) (λ n. n ≡ bytes.now)) }
    {
        if spells_token(bytes) {
            let bytes = Vec::from_slice(alloc, bytes)?;
            Ok(Some(Name { bytes }))
        } else {
            Ok(None)
        }
    }

    /// The name's bytes.
    pub fn bytes(&self) -> &[u8]
        ensures bytes { result.now ≡ self.now }
        ensures token { is_token self.now ≡ true }
    {
        self.bytes.as_slice()
    }

    /// An equal name. The error is want of memory.
    pub fn copy(&self, alloc: Global) -> Result<Name, AllocError>
        ensures { IfOk result (λ name. name ≡ self.now) }
    {
        let bytes = Vec::from_slice(alloc, self.bytes.as_slice())?;
        Ok(Name { bytes })
    }
}
