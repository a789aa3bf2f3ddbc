ghost use Rattle.std.specs.Prelude.{◌≡◌, ◌++◌, ◌∷◌, [], IfOk, OnOk, OnErr, IsTrue, ◌↔◌, map, true, take, length};
ghost use Rattle.std.specs.Fmt.{signed_decimal};
ghost use Rattle.std.specs.List.{list_all};
ghost use Rattle.sig_terms.specs.TermText.{term_text, after_comma, joined};
ghost use Rattle.sig_terms.specs.Readable.{is_wide, is_term, IsTerm};
ghost use Rattle.sig_terms.specs.TermTest.{same_term, same_list};
ghost use Rattle.sig_terms.specs.declared.term.Term.{Term};

use crate::atom::Atom;
use crate::pid::Pid;
use crate::reference::Ref;
use itoa::Buffer;
use sig_lists::Sequence;
use std::alloc::{AllocError, Global};

/// A list of terms.
pub type Terms = Sequence<Term>;

/// A value of Erlang: what is sent, stored and compared.
/// (Erlang Reference Manual, Data Types.)
#[derive(Drop)]
pub enum Term {
    /// An integer of 64 bits.
    Int(i64),
    /// An atom.
    Atom(Atom),
    /// A process.
    Pid(Pid),
    /// A reference.
    Ref(Ref),
    /// A tuple of these elements.
    Tuple(Terms),
    /// A proper list of these elements.
    List(Terms),
}

/// Copies of the terms, in their order. The error is want of memory.
#[cycle(copy)]
pub fn copy_terms(alloc: Global, items: &[Term]) -> Result<Terms, AllocError>
    ensures { IfOk result (λ ts. ts ≡ items.now) }
{
    let room = Vec::with_capacity(alloc, items.len())?;
    let mut copies = Sequence::from_vec(room);
    for item in items {
        let copy = item.copy(alloc)?;
        copies.add(copy)?;
    }
    Ok(copies)
}

/// Whether the two have equal terms in the same order.
#[cycle(same)]
pub fn same_terms(a: &[Term], b: &[Term]) -> bool
    ensures { result ≡ same_list (map same_term a.now) b.now }
{
    if a.len() != b.len() {
        return false;
    }
    let mut i = 0;
    while i < a.len() {
        if !a[i].equals(&b[i]) {
            return false;
        }
        i += 1;
    }
    true
}

/// Appends a comma and the text of the term.
#[cycle(append)]
fn append_next(item: &Term, into: &mut Vec<u8>) -> Result<(), AllocError>
    ensures text { OnOk result (into.new.items ≡ into.old.items ++ after_comma (term_text item.now)) }
    ensures front { OnErr result (take (length into.old.items) into.new.items ≡ into.old.items) }
    ensures term { OnOk result (IsTerm item.now) }
{
    into.push(b',')?;
    item.append(into)
}

/// Appends the texts of the terms, with a comma between two.
#[cycle(append)]
fn append_all(items: &[Term], into: &mut Vec<u8>) -> Result<(), AllocError>
    ensures text { OnOk result (into.new.items ≡ into.old.items ++ joined (map term_text items.now)) }
    ensures front { OnErr result (take (length into.old.items) into.new.items ≡ into.old.items) }
    ensures terms { OnOk result (list_all (λ b. b) (map is_term items.now) ≡ true) }
{
    match items {
        [] => Ok(()),
        [first, rest @ ..] => {
            first.append(into)?;
            for item in rest {
                append_next(item, into)?;
            }
            Ok(())
        }
    }
}

/// Appends the texts of the terms, between two brackets.
#[cycle(append)]
fn append_between(
    opening: u8,
    items: &[Term],
    closing: u8,
    into: &mut Vec<u8>,
) -> Result<(), AllocError>
    ensures text { OnOk result (into.new.items ≡ into.old.items ++ opening ∷ (joined (map term_text items.now) ++ closing ∷ [])) }
    ensures front { OnErr result (take (length into.old.items) into.new.items ≡ into.old.items) }
    ensures terms { OnOk result (list_all (λ b. b) (map is_term items.now) ≡ true) }
{
    into.push(opening)?;
    append_all(items, into)?;
    into.push(closing)?;
    Ok(())
}

/// Appends the text of an integer.
fn append_int(n: i64, into: &mut Vec<u8>) -> Result<(), AllocError>
    ensures text { OnOk result (into.new.items ≡ into.old.items ++ signed_decimal n) }
    ensures err { OnErr result (into.new.items ≡ into.old.items) }
    ensures wide { is_wide n ≡ true }
{
    let mut buffer = Buffer::new();
    into.extend_from_slice(buffer.format(n).as_bytes())
}

impl Term {
    /// An equal term. The error is want of memory.
    #[cycle(copy)]
    pub fn copy(&self, alloc: Global) -> Result<Term, AllocError>
        ensures { IfOk result (λ t. t ≡ self.now) }
    {
        match self {
            Term::Int(n) => Ok(Term::Int(*n)),
            Term::Atom(atom) => atom.copy(alloc).map(Term::Atom),
            Term::Pid(pid) => Ok(Term::Pid(*pid)),
            Term::Ref(reference) => Ok(Term::Ref(*reference)),
            Term::Tuple(items) => copy_terms(alloc, items.as_slice()).map(Term::Tuple),
            Term::List(items) => copy_terms(alloc, items.as_slice()).map(Term::List),
        }
    }

    /// Whether the two are equal.
    #[tactic(auto, using(crate::proofs::SameTerms::test_is_equality))]
    pub fn same(&self, other: &Term) -> bool
        ensures equal { IsTrue result ↔ (self.now ≡ other.now) }
        ensures test { result ≡ same_term self.now other.now }
    {
        self.equals(other)
    }

    /// The test of two terms, layer by layer.
    #[cycle(same)]
    fn equals(&self, other: &Term) -> bool
        ensures { result ≡ same_term self.now other.now }
    {
        match (self, other) {
            (Term::Int(a), Term::Int(b)) => a == b,
            (Term::Atom(a), Term::Atom(b)) => a.bytes() == b.bytes(),
            (Term::Pid(a), Term::Pid(b)) => a == b,
            (Term::Ref(a), Term::Ref(b)) => a == b,
            (Term::Tuple(a), Term::Tuple(b)) => same_terms(a.as_slice(), b.as_slice()),
            (Term::List(a), Term::List(b)) => same_terms(a.as_slice(), b.as_slice()),
            _ => false,
        }
    }

    /// Appends the term's text. Each term has one text, from which `read` gives the term back where
    /// it has at most [`READ_NODES`](crate::READ_NODES) nodes and a depth of at most
    /// [`READ_DEPTH`](crate::READ_DEPTH). Where memory is refused, `into` is as before.
    pub fn print(&self, into: &mut Vec<u8>) -> Result<(), AllocError>
        ensures text { OnOk result (into.new.items ≡ into.old.items ++ term_text self.now) }
        ensures err { OnErr result (into.new.items ≡ into.old.items) }
        // What is printed is a term as `read` knows them.
        ensures term { OnOk result (IsTerm self.now) }
    {
        let before = into.len();
        let appended = self.append(into);
        if appended.is_err() {
            into.truncate(before);
        }
        appended
    }

    /// Appends the term's text. Where memory is refused, a part of it may stand behind what was
    /// there.
    #[cycle(append)]
    fn append(&self, into: &mut Vec<u8>) -> Result<(), AllocError>
        ensures text { OnOk result (into.new.items ≡ into.old.items ++ term_text self.now) }
        ensures front { OnErr result (take (length into.old.items) into.new.items ≡ into.old.items) }
        ensures term { OnOk result (IsTerm self.now) }
    {
        match self {
            Term::Int(n) => append_int(*n, into),
            Term::Atom(atom) => atom.print(into),
            Term::Pid(pid) => pid.print(into),
            Term::Ref(reference) => reference.print(into),
            Term::Tuple(items) => append_between(b'{', items.as_slice(), b'}', into),
            Term::List(items) => append_between(b'[', items.as_slice(), b']', into),
        }
    }
}

/// The test of two terms passes exactly where they are equal.
/// (Erlang Reference Manual, Expressions, Term Comparisons: `=:=`.)
pub fn same_is_equality()
    ensures { (t u : Term) → IsTrue (same_term t u) ↔ (t ≡ u) }
{}
