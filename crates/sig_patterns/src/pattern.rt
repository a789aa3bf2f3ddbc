ghost use Rattle.std.specs.Prelude.{◌≡◌, IfOk};

use crate::var::Var;
use sig_lists::Sequence;
use sig_terms::{Atom, Pid};
use sqlite_items::Boxed;
use std::alloc::{AllocError, Global};

/// A list of patterns.
pub type Patterns = Sequence<Pattern>;

/// What a clause of a receive asks of a message. (Erlang Reference Manual, Pattern Matching.)
#[derive(Drop)]
pub enum Pattern {
    /// `_`, which every term matches.
    Any,
    /// A variable. It is bound to the first term that it meets in the pattern, and where it stands
    /// again it asks for an equal one.
    Bind(Var),
    /// `^X`, the value that the variable had before the match.
    Pin(Var),
    /// The integer.
    Int(i64),
    /// The atom.
    Atom(Atom),
    /// The process.
    Pid(Pid),
    /// A tuple of as many elements, each of which matches the pattern at its place.
    Tuple(Patterns),
    /// A list of as many elements, each of which matches the pattern at its place.
    List(Patterns),
    /// `[P | Q]`: a list whose first element matches the head, and the list of the rest matches the
    /// tail. `[P1, P2 | Q]` is `[P1 | [P2 | Q]]`.
    Cons {
        /// The pattern of the first element.
        head: Boxed<Pattern>,
        /// The pattern of the list of the rest.
        tail: Boxed<Pattern>,
    },
}

/// A copy of a part of a pattern.
#[cycle(copy)]
fn copy_part(alloc: Global, part: &Boxed<Pattern>) -> Result<Boxed<Pattern>, AllocError>
    ensures { IfOk result (λ p. p ≡ part.now) }
{
    let copy = part.get().copy(alloc)?;
    Boxed::new(alloc, copy)
}

/// Copies of the patterns, in their order.
#[cycle(copy)]
fn copy_all(alloc: Global, items: &[Pattern]) -> Result<Patterns, AllocError>
    ensures { IfOk result (λ ps. ps ≡ items.now) }
{
    let mut copies = Sequence::new(alloc);
    for item in items {
        let copy = item.copy(alloc)?;
        copies.add(copy)?;
    }
    Ok(copies)
}

impl Pattern {
    /// An equal pattern. The error is want of memory.
    #[cycle(copy)]
    pub fn copy(&self, alloc: Global) -> Result<Pattern, AllocError>
        ensures { IfOk result (λ p. p ≡ self.now) }
    {
        match self {
            Pattern::Any => Ok(Pattern::Any),
            Pattern::Bind(var) => var.copy(alloc).map(Pattern::Bind),
            Pattern::Pin(var) => var.copy(alloc).map(Pattern::Pin),
            Pattern::Int(n) => Ok(Pattern::Int(*n)),
            Pattern::Atom(atom) => atom.copy(alloc).map(Pattern::Atom),
            Pattern::Pid(pid) => Ok(Pattern::Pid(*pid)),
            Pattern::Tuple(items) => copy_all(alloc, items.as_slice()).map(Pattern::Tuple),
            Pattern::List(items) => copy_all(alloc, items.as_slice()).map(Pattern::List),
            Pattern::Cons { head, tail } => {
                let head = copy_part(alloc, head)?;
                let tail = copy_part(alloc, tail)?;
                Ok(Pattern::Cons { head, tail })
            }
        }
    }
}
