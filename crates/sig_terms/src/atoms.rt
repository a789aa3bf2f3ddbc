//! Terms that are atoms.

ghost use Rattle.std.specs.Prelude.{◌≡◌, true, IfOk};
ghost use Rattle.sig_terms.specs.TermTest.{same_term};
ghost use Rattle.sig_terms.specs.Words.{is_atom};

use crate::atom::Atom;
use crate::term::Term;
use std::alloc::{AllocError, Global};

impl Term {
    /// The atom of these bytes. The error is want of memory.
    ///
    /// Asks that the bytes are those of an atom, as [`spells_atom`](crate::bytes::spells_atom)
    /// tells.
    pub fn plain_atom(alloc: Global, bytes: &[u8]) -> Result<Term, AllocError>
        requires { is_atom bytes.now ≡ true }
        ensures { IfOk result (λ term. term ≡ Term.Atom bytes.now) }
    {
        match Atom::new(alloc, bytes)? {
            Some(atom) => Ok(Term::Atom(atom)),
            None => unreachable!(),
        }
    }

    /// Whether the term is the atom of these bytes.
    pub fn is_atom(&self, bytes: &[u8]) -> bool
        ensures { result ≡ same_term self.now (Term.Atom bytes.now) }
    {
        match self {
            Term::Atom(atom) => atom.bytes() == bytes,
            _ => false,
        }
    }
}
