//! A term that an event tells, and that goes elsewhere besides.
ghost use Rattle.std.specs.Prelude.{◌≡◌, IfOk};

use sig_terms::Term;
use std::alloc::{AllocError, Global};
use std::mem::drop;

/// The term, and a copy of it. The error is want of memory.
pub(crate) fn with_copy(alloc: Global, term: Term) -> Result<(Term, Term), AllocError>
    ensures { IfOk result (λ x. x ≡ (term, term)) }
{
    match term.copy(alloc) {
        Ok(copy) => Ok((term, copy)),
        Err(fault) => {
            drop(term);
            Err(fault)
        }
    }
}
