ghost use Rattle.std.specs.Prelude.{◌≡◌, IfOk};

use sig_terms::Name;
use std::alloc::{AllocError, Global};

/// A variable. (Erlang Reference Manual, Expressions, Variables.)
#[derive(Drop)]
pub struct Var(pub Name);

impl Var {
    /// An equal variable. The error is want of memory.
    pub fn copy(&self, alloc: Global) -> Result<Var, AllocError>
        ensures { IfOk result (λ v. v ≡ self.now) }
    {
        self.0.copy(alloc).map(Var)
    }
}
