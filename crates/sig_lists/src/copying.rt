//! Equal values, each in memory of its own.

ghost use Rattle.std.specs.Prelude.{◌≡◌, IfOk};

use crate::sequence::Sequence;
use std::alloc::{AllocError, Global};

/// What has equal values.
pub trait Copied: Drop + Sized {
    /// An equal value. The error is want of memory.
    fn copied(&self, alloc: Global) -> Result<Self, AllocError>
        ensures { IfOk result (λ x. x ≡ self.now) };
}

/// Equal values in the same order. The error is want of memory.
pub fn copy_all<T: Copied>(alloc: Global, items: &Sequence<T>) -> Result<Sequence<T>, AllocError>
    ensures { IfOk result (λ xs. xs ≡ items.now) }
{
    let mut copies = Sequence::new(alloc);
    for item in items.as_slice() {
        let copy = item.copied(alloc)?;
        copies.add(copy)?;
    }
    Ok(copies)
}

impl<T: Copied> Copied for Sequence<T> {
    fn copied(&self, alloc: Global) -> Result<Sequence<T>, AllocError> {
        copy_all(alloc, self)
    }
}
