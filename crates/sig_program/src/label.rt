ghost use Rattle.std.specs.Prelude.{◌≡◌, IfOk};

use sig_lists::{Copied, Sequence};
use sig_terms::Name;
use std::alloc::{AllocError, Global};

/// A place of a process that has a name.
#[derive(Drop)]
pub struct Label {
    /// The label's name.
    pub name: Name,
    /// The instruction before which it stands, from 1. It may be one past the last instruction.
    pub place: u32,
}

/// The labels of a process, in the order of their lines.
pub type Labels = Sequence<Label>;

impl Label {
    /// An equal label. The error is want of memory.
    pub fn copy(&self, alloc: Global) -> Result<Label, AllocError>
        ensures { IfOk result (λ l. l ≡ self.now) }
    {
        let name = self.name.copy(alloc)?;
        Ok(Label {
            name,
            place: self.place,
        })
    }
}

impl Copied for Label {
    fn copied(&self, alloc: Global) -> Result<Label, AllocError> {
        self.copy(alloc)
    }
}
