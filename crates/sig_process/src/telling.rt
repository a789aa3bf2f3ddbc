//! What is told, at the end of a process, to those whom one of its tables lists.

ghost use Rattle.std.specs.Prelude.{◌≡◌, ◌++◌, IfOk, map};
ghost use Rattle.sig_terms.specs.declared.term.Term.{Term};
ghost use Rattle.sig_model.specs.ProcessState.{Post};
ghost use Rattle.sig_process.specs.Plans.{post_of};

use crate::plan::Outgoing;
use sig_terms::Term;
use std::alloc::{AllocError, Global};

/// A table that lists whom its process tells that it ends.
pub(crate) trait Tells {
    /// One of those who are told, as the table lists it.
    type Listed: Drop;

    // What it is told, with this reason.
    ghost post: { Self.Listed → Term → Post };

    /// What it is told, with a copy of the reason. The error is want of memory.
    fn post(alloc: Global, listed: Self::Listed, reason: &Term) -> Result<Outgoing, AllocError>
        ensures { IfOk result (λ outgoing. post_of outgoing ≡ post listed reason.now) };
}

/// Behind these signals, what each of those whom the table listed is told, in their order. The error
/// is want of memory.
pub(crate) fn tell_all<T: Tells>(
    alloc: Global,
    before: Vec<Outgoing>,
    listed: Vec<T::Listed>,
    reason: &Term,
) -> Result<Vec<Outgoing>, AllocError>
    ensures { IfOk result (λ posts. map post_of posts.items ≡ map post_of before.items ++ map (λ one. T.post one reason.now) listed.items) }
{
    let mut posts = before;
    for one in listed {
        let post = T::post(alloc, one, reason)?;
        posts.push(post)?;
    }
    Ok(posts)
}
