//! Whether the processes that something names are known.

ghost use Rattle.std.specs.Prelude.{◌↔◌, IsTrue, All};
ghost use Rattle.sig_terms.specs.Names.{process, AllNames, IsAmong};

use crate::pid::Pid;
use crate::term::Term;

impl Pid {
    /// Whether the process is known: `known` is true at its place.
    pub fn is_among(self, known: &[bool]) -> bool
        ensures { IsTrue result ↔ IsAmong known.now (process self.0) }
    {
        match known.get(self.0 as usize) {
            Some(is_known) => *is_known,
            None => false,
        }
    }
}

/// Whether the terms name known processes alone.
#[cycle(names_only)]
fn all_name_only(items: &[Term], known: &[bool]) -> bool
    ensures { IsTrue result ↔ All (AllNames (IsAmong known.now)) items.now }
{
    for item in items {
        if !item.names_only(known) {
            return false;
        }
    }
    true
}

impl Term {
    /// Whether each process that the term names is known, also each owner of a reference: `known` is true
    /// at its place.
    #[cycle(names_only)]
    pub fn names_only(&self, known: &[bool]) -> bool
        ensures { IsTrue result ↔ AllNames (IsAmong known.now) self.now }
    {
        match self {
            Term::Int(_) => true,
            Term::Atom(_) => true,
            Term::Pid(pid) => pid.is_among(known),
            Term::Ref(reference) => reference.owner.is_among(known),
            Term::Tuple(items) => all_name_only(items.as_slice(), known),
            Term::List(items) => all_name_only(items.as_slice(), known),
        }
    }
}
