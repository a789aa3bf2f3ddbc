ghost use Rattle.std.specs.Prelude.{◌≡◌, IfOk};

use crate::guard::Guard;
use crate::pattern::Pattern;
use sig_lists::{Copied, Sequence};
use std::alloc::{AllocError, Global};

/// A clause of a receive: a message that the pattern matches, and on which the guard is true, is
/// taken, and the process goes on at the target. (Erlang Reference Manual, Expressions, Receive.)
#[derive(Drop)]
pub struct Clause {
    /// What the message must match.
    pub pattern: Pattern,
    /// What must be true after the match. `None` asks for nothing more.
    pub guard: Option<Guard>,
    /// The place of a label among those of the process. `None` is the next instruction.
    pub target: Option<u32>,
}

/// The clauses of a receive, in the order in which they are tried.
pub type Clauses = Sequence<Clause>;

/// An equal guard, where there is one.
fn copy_guard(alloc: Global, guard: &Option<Guard>) -> Result<Option<Guard>, AllocError>
    ensures { IfOk result (λ g. g ≡ guard.now) }
{
    match guard {
        None => Ok(None),
        Some(guard) => guard.copy(alloc).map(Some),
    }
}

impl Clause {
    /// An equal clause. The error is want of memory.
    pub fn copy(&self, alloc: Global) -> Result<Clause, AllocError>
        ensures { IfOk result (λ c. c ≡ self.now) }
    {
        let pattern = self.pattern.copy(alloc)?;
        let guard = copy_guard(alloc, &self.guard)?;
        Ok(Clause {
            pattern,
            guard,
            target: self.target,
        })
    }
}

impl Copied for Clause {
    fn copied(&self, alloc: Global) -> Result<Clause, AllocError> {
        self.copy(alloc)
    }
}
