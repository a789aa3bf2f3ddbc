ghost use Rattle.std.specs.Prelude.{◌≡◌, IfOk, option_and_then};
ghost use Rattle.std.specs.Option.{option_map};
ghost use Rattle.sig_terms.specs.TermTest.{same_term};
ghost use Rattle.sig_terms.specs.declared.term.Term.TheVariants as term;
ghost use Rattle.sig_patterns.specs.Matching.{tuple_items, list_items};
ghost use Rattle.sig_patterns.specs.Guarding.{int_value, is_kind};
ghost use Rattle.sig_patterns.specs.declared.guard.TermKind.TheVariants as kind;
ghost use Rattle.sig_patterns.specs.Fitting.{term_seen, split};

use crate::guard::TermKind;
use sig_terms::bytes::equal_bytes;
use sig_terms::{Pid, Term, copy_terms, same_terms};
use std::alloc::{AllocError, Global};

/// What a part of a pattern meets: a term, or the rest of a list as a list, which is no term of its
/// own in memory.
#[derive(Clone, Copy)]
pub(crate) enum Seen<'a> {
    /// A term.
    Whole(&'a Term),
    /// The list of these elements, the rest of a list.
    Rest(&'a [Term]),
}

impl<'a> Seen<'a> {
    /// The elements, where it is a tuple.
    pub(crate) fn tuple_items(self) -> Option<&'a [Term]>
        ensures { option_map (λ ts. ts.now) result ≡ tuple_items (term_seen self.entry) }
    {
        match self {
            Seen::Whole(Term::Tuple(items)) => Some(items.as_slice()),
            _ => None,
        }
    }

    /// The elements, where it is a list.
    pub(crate) fn list_items(self) -> Option<&'a [Term]>
        ensures { option_map (λ ts. ts.now) result ≡ list_items (term_seen self.entry) }
    {
        match self {
            Seen::Whole(Term::List(items)) => Some(items.as_slice()),
            Seen::Rest(items) => Some(items),
            _ => None,
        }
    }

    /// The first element and the rest, where it is a list that has one.
    pub(crate) fn split_list(self) -> Option<(&'a Term, &'a [Term])>
        ensures { option_map (λ parts. (parts.0.now, parts.1.now)) result ≡ option_and_then split (list_items (term_seen self.entry)) }
    {
        self.list_items()?.split_first()
    }

    /// Whether the two are equal.
    pub(crate) fn same(self, other: Seen<'_>) -> bool
        ensures { result ≡ same_term (term_seen self.entry) (term_seen other.entry) }
    {
        match (self, other) {
            (Seen::Whole(a), Seen::Whole(b)) => a.same(b),
            (Seen::Whole(Term::List(a)), Seen::Rest(b)) => same_terms(a.as_slice(), b),
            (Seen::Rest(a), Seen::Whole(Term::List(b))) => same_terms(a, b.as_slice()),
            (Seen::Rest(a), Seen::Rest(b)) => same_terms(a, b),
            _ => false,
        }
    }

    /// Whether it is the integer.
    pub(crate) fn is_int(self, n: i64) -> bool
        ensures { result ≡ same_term (term.Int n) (term_seen self.entry) }
    {
        match self {
            Seen::Whole(Term::Int(other)) => n == *other,
            _ => false,
        }
    }

    /// Whether it is the atom of these bytes.
    pub(crate) fn is_atom(self, bytes: &[u8]) -> bool
        ensures { result ≡ same_term (term.Atom bytes.now) (term_seen self.entry) }
    {
        match self {
            Seen::Whole(Term::Atom(other)) => equal_bytes(bytes, other.bytes()),
            _ => false,
        }
    }

    /// Whether it is the process.
    pub(crate) fn is_pid(self, pid: Pid) -> bool
        ensures { result ≡ same_term (term.Pid pid) (term_seen self.entry) }
    {
        match self {
            Seen::Whole(Term::Pid(other)) => pid.0 == other.0,
            _ => false,
        }
    }

    /// The integer, where it is one.
    pub(crate) fn int_value(self) -> Option<i64>
        ensures { result ≡ int_value (term_seen self.entry) }
    {
        match self {
            Seen::Whole(Term::Int(n)) => Some(*n),
            _ => None,
        }
    }

    fn is_any_integer(self) -> bool
        ensures { result ≡ is_kind kind.Integer (term_seen self.entry) }
    {
        matches!(self, Seen::Whole(Term::Int(_)))
    }

    fn is_any_atom(self) -> bool
        ensures { result ≡ is_kind kind.Atom (term_seen self.entry) }
    {
        matches!(self, Seen::Whole(Term::Atom(_)))
    }

    fn is_any_pid(self) -> bool
        ensures { result ≡ is_kind kind.Pid (term_seen self.entry) }
    {
        matches!(self, Seen::Whole(Term::Pid(_)))
    }

    fn is_any_reference(self) -> bool
        ensures { result ≡ is_kind kind.Reference (term_seen self.entry) }
    {
        matches!(self, Seen::Whole(Term::Ref(_)))
    }

    fn is_any_tuple(self) -> bool
        ensures { result ≡ is_kind kind.Tuple (term_seen self.entry) }
    {
        matches!(self, Seen::Whole(Term::Tuple(_)))
    }

    fn is_any_list(self) -> bool
        ensures { result ≡ is_kind kind.List (term_seen self.entry) }
    {
        match self {
            Seen::Whole(Term::List(_)) => true,
            Seen::Rest(_) => true,
            _ => false,
        }
    }

    /// Whether it is of the kind.
    pub(crate) fn is_kind(self, kind: TermKind) -> bool
        ensures { result ≡ is_kind kind (term_seen self.entry) }
    {
        match kind {
            TermKind::Integer => self.is_any_integer(),
            TermKind::Atom => self.is_any_atom(),
            TermKind::Pid => self.is_any_pid(),
            TermKind::Reference => self.is_any_reference(),
            TermKind::Tuple => self.is_any_tuple(),
            TermKind::List => self.is_any_list(),
        }
    }

    /// An equal term.
    pub(crate) fn copy(self, alloc: Global) -> Result<Term, AllocError>
        ensures { IfOk result (λ t. t ≡ term_seen self.entry) }
    {
        match self {
            Seen::Whole(term) => term.copy(alloc),
            Seen::Rest(items) => copy_terms(alloc, items).map(Term::List),
        }
    }
}
