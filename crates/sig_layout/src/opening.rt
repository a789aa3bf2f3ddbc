ghost use Rattle.std.specs.Prelude.{◌≡◌, IfOk, slice_index_or};

use crate::numbers::Numbers;
use sig_terms::Pid;
use std::alloc::{AllocError, Global};

/// What the signals of a queue have in common.
#[derive(Drop)]
pub struct Opening {
    /// The process to which they go.
    pub receiver: Pid,
    /// Every pid and every owner of a reference in them is below it.
    pub count: u32,
    /// At each place, from 0, the number of the first signal of the sender with that pid.
    pub first: Numbers,
}

impl Opening {
    /// The number of this sender's first signal, or 0 where there is none.
    pub fn first_of(&self, sender: Pid) -> u64
        ensures { result ≡ slice_index_or self.now.first sender.0 0 }
    {
        match self.first.get(sender.0 as usize) {
            Some(number) => *number,
            None => 0,
        }
    }

    /// An equal opening.
    pub fn copy(&self, alloc: Global) -> Result<Opening, AllocError>
        ensures { IfOk result (λ o. o ≡ self.now) }
    {
        Ok(Opening {
            receiver: self.receiver,
            count: self.count,
            first: self.first.copy(alloc)?,
        })
    }
}
