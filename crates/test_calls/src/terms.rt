//! Texts of terms both ways, and what is an atom or a name.

use crate::shared::{Row, each_row_holds, passes};
use sig_lists::Sequence;
use sig_terms::*;
use std::alloc::{AllocError, Global};

/// A term that is made from nothing.
enum Plain {
    Int(i64),
    Pid(u32),
    Ref(u32, u64),
    TwoWords,
    EmptyList,
    EmptyTuple,
}

/// What is so of a text.
enum Said {
    /// Whether it makes an atom, and a name.
    Word(bool, bool),
    /// How many bytes at its front are a text of a term, as many as can be.
    Front(Option<usize>),
    /// It is no text of a term.
    NoTerm,
    /// It is a text of a term.
    SomeTerm,
    /// It is the text of a term with so many nodes and this depth, which prints it.
    Term(u64, u64),
    /// It is a text of this term.
    Plain(Plain),
    /// It is a text of a term, and whether a node of that is `#Ref<1.2>`.
    Holds(bool),
}

/// Whether the bytes make an atom.
fn makes_atom(alloc: Global, bytes: &[u8]) -> Result<bool, AllocError> {
    let atom = Atom::new(alloc, bytes)?;
    let is_made = atom.is_some();
    drop(atom);
    Ok(is_made)
}

/// Whether the bytes make a name.
fn makes_name(alloc: Global, bytes: &[u8]) -> Result<bool, AllocError> {
    let name = Name::new(alloc, bytes)?;
    let is_made = name.is_some();
    drop(name);
    Ok(is_made)
}

/// How many bytes the longest front that is a text has, if there is one.
fn front_length(alloc: Global, bytes: &[u8]) -> Result<Option<usize>, AllocError> {
    match read_front(alloc, bytes) {
        Ok(front) => Ok(Some(front.used)),
        Err(ReadTerm::BadTerm) => Ok(None),
        Err(ReadTerm::Memory) => Err(AllocError),
    }
}

/// Whether the term prints this text.
fn prints(alloc: Global, term: &Term, text: &[u8]) -> Result<bool, AllocError> {
    let mut printed = Vec::new(alloc);
    term.print(&mut printed)?;
    Ok(printed.as_slice() == text)
}

fn term_of(alloc: Global, plain: &Plain) -> Result<Term, AllocError> {
    Ok(match plain {
        Plain::Int(number) => Term::Int(*number),
        Plain::Pid(pid) => Term::Pid(Pid(*pid)),
        Plain::Ref(owner, serial) => Term::Ref(Ref {
            owner: Pid(*owner),
            serial: *serial,
        }),
        Plain::TwoWords => Term::plain_atom(alloc, b"Two words")?,
        Plain::EmptyList => Term::List(Sequence::new(alloc)),
        Plain::EmptyTuple => Term::Tuple(Sequence::new(alloc)),
    })
}

/// Whether the term is this one, and an atom is known by its bytes.
fn is_plain(alloc: Global, term: &Term, plain: &Plain) -> Result<bool, AllocError> {
    let other = term_of(alloc, plain)?;
    let is_same = term.same(&other);
    let is_known = match plain {
        Plain::TwoWords => other.is_atom(b"Two words"),
        _ => true,
    };
    drop(other);
    Ok(is_same && is_known)
}

/// Whether this is so of the term of this text.
fn is_said(alloc: Global, term: &Term, text: &[u8], said: &Said) -> Result<bool, AllocError> {
    let reference = Ref {
        owner: Pid(1),
        serial: 2,
    };
    match said {
        Said::SomeTerm => Ok(true),
        Said::Term(nodes, depth) => {
            let is_large = term.size() == *nodes && term.depth() == *depth;
            Ok(prints(alloc, term, text)? && is_large)
        }
        Said::Plain(plain) => is_plain(alloc, term, plain),
        Said::Holds(answer) => Ok(term.holds_ref(reference) == *answer),
        _ => Ok(false),
    }
}

/// Whether this is so of the term that is read, where one is.
fn is_read(alloc: Global, text: &[u8], said: &Said) -> Result<bool, AllocError> {
    match read(alloc, text) {
        Ok(term) => {
            let answer = is_said(alloc, &term, text, said);
            drop(term);
            answer
        }
        Err(ReadTerm::BadTerm) => Ok(matches!(said, Said::NoTerm)),
        Err(_) => Ok(false),
    }
}

/// Whether this is so of the text.
fn is_so(alloc: Global, text: &[u8], said: &Said) -> Result<bool, AllocError> {
    match said {
        Said::Word(atom, name) => {
            Ok(makes_atom(alloc, text)? == *atom && makes_name(alloc, text)? == *name)
        }
        Said::Front(length) => Ok(front_length(alloc, text)? == *length),
        _ => is_read(alloc, text, said),
    }
}

/// A text, and what is so of it.
struct Text(&'static [u8], Said);

impl Row for Text {
    fn holds(&self, alloc: Global) -> Result<bool, AllocError> {
        is_so(alloc, self.0, &self.1)
    }
}

const TEXTS: [Text; 55] = [
    Text(b"0", Said::Term(1, 1)),
    Text(b"-1", Said::Term(1, 1)),
    Text(b"10", Said::Term(1, 1)),
    Text(b"9223372036854775807", Said::Term(1, 1)),
    Text(b"-9223372036854775808", Said::Term(1, 1)),
    Text(b"ok", Said::Term(1, 1)),
    Text(b"a@b_C9", Said::Term(1, 1)),
    Text(b"''", Said::Term(1, 1)),
    Text(b"'Big'", Said::Term(1, 1)),
    Text(b"'two words'", Said::Term(1, 1)),
    Text(b"'10'", Said::Term(1, 1)),
    Text(b"'{a,b}'", Said::Term(1, 1)),
    Text(b"<0>", Said::Term(1, 1)),
    Text(b"<4294967295>", Said::Term(1, 1)),
    Text(b"#Ref<0.1>", Said::Term(1, 1)),
    Text(b"#Ref<4294967295.18446744073709551615>", Said::Term(1, 1)),
    Text(b"{}", Said::Term(1, 1)),
    Text(b"[]", Said::Term(1, 1)),
    Text(b"{[],{},[[]]}", Said::Term(5, 3)),
    Text(b"[a,b,c]", Said::Term(4, 2)),
    Text(b"{ok,'Big',-5,<3>,#Ref<2.7>,[1,{}]}", Said::Term(9, 3)),
    // no texts
    Text(b"", Said::NoTerm),
    Text(b" ", Said::NoTerm),
    Text(b"'ok'", Said::NoTerm),
    Text(b"00", Said::NoTerm),
    Text(b"01", Said::NoTerm),
    Text(b"-0", Said::NoTerm),
    Text(b"-", Said::NoTerm),
    Text(b"-01", Said::NoTerm),
    Text(b"+1", Said::NoTerm),
    Text(b"1.5", Said::NoTerm),
    Text(b"1a", Said::NoTerm),
    Text(b"9223372036854775808", Said::NoTerm),
    Text(b"-9223372036854775809", Said::NoTerm),
    Text(b"'a\\'", Said::NoTerm),
    Text(b"'it's'", Said::NoTerm),
    Text(b"'", Said::NoTerm),
    Text(b"Var", Said::NoTerm),
    Text(b"_", Said::NoTerm),
    Text(b"<>", Said::NoTerm),
    Text(b"<01>", Said::NoTerm),
    Text(b"<4294967296>", Said::NoTerm),
    Text(b"<1", Said::NoTerm),
    Text(b"#Ref<1>", Said::NoTerm),
    Text(b"#Ref<4294967296.1>", Said::NoTerm),
    Text(b"#Ref<1.18446744073709551616>", Said::NoTerm),
    Text(b"#Ref<1.02>", Said::NoTerm),
    Text(b"{", Said::NoTerm),
    Text(b"{a,}", Said::NoTerm),
    Text(b"{a, b}", Said::NoTerm),
    Text(b"{a]", Said::NoTerm),
    Text(b"[a}", Said::NoTerm),
    Text(b"[a|b]", Said::NoTerm),
    Text(b"a ", Said::NoTerm),
    Text(b"a\n", Said::NoTerm),
];

#[test]
fn texts_of_terms_and_no_others_are_read(rt: HostRuntime) {
    each_row_holds(&rt, rt.alloc(), &TEXTS);
}

const PARTS: [Text; 39] = [
    // words
    Text(b"ok", Said::Word(true, true)),
    Text(b"Var", Said::Word(true, true)),
    Text(b"", Said::Word(true, false)),
    Text(b"a@b_C9", Said::Word(true, true)),
    Text(b"A@", Said::Word(true, false)),
    Text(b"'", Said::Word(false, false)),
    Text(b"\\", Said::Word(false, false)),
    Text(b"two words", Said::Word(true, false)),
    // the longest front
    Text(b"ok", Said::Front(Some(2))),
    Text(b"ok,more", Said::Front(Some(2))),
    Text(b"aB@ c", Said::Front(Some(3))),
    Text(b"12a", Said::Front(Some(2))),
    Text(b"01", Said::Front(Some(1))),
    Text(b"-12-", Said::Front(Some(3))),
    Text(b"99999999999999999999", Said::Front(Some(18))),
    Text(b"-9223372036854775809", Said::Front(Some(19))),
    Text(b"''x", Said::Front(Some(2))),
    Text(b"{a}]", Said::Front(Some(3))),
    Text(b"[][]", Said::Front(Some(2))),
    Text(b"<1>2", Said::Front(Some(3))),
    Text(b"#Ref<1.2>3", Said::Front(Some(9))),
    Text(b"", Said::Front(None)),
    Text(b"-0", Said::Front(None)),
    Text(b"{a", Said::Front(None)),
    Text(b" a", Said::Front(None)),
    Text(b"'ok'", Said::Front(None)),
    // terms
    Text(b"-9223372036854775808", Said::Plain(Plain::Int(i64::MIN))),
    Text(b"9223372036854775807", Said::Plain(Plain::Int(i64::MAX))),
    Text(b"<12>", Said::Plain(Plain::Pid(12))),
    Text(b"#Ref<12.34>", Said::Plain(Plain::Ref(12, 34))),
    Text(b"[]", Said::Plain(Plain::EmptyList)),
    Text(b"{}", Said::Plain(Plain::EmptyTuple)),
    Text(b"'Two words'", Said::Plain(Plain::TwoWords)),
    // references inside
    Text(b"#Ref<1.2>", Said::Holds(true)),
    Text(b"{a,[#Ref<1.2>],b}", Said::Holds(true)),
    Text(b"#Ref<1.3>", Said::Holds(false)),
    Text(b"#Ref<2.2>", Said::Holds(false)),
    Text(b"[<1>,2]", Said::Holds(false)),
    Text(b"[]", Said::Holds(false)),
];

#[test]
fn texts_have_words_fronts_and_references(rt: HostRuntime) {
    each_row_holds(&rt, rt.alloc(), &PARTS);
}

/// Appends the piece so often.
fn repeat(text: &mut Vec<u8>, piece: &[u8], times: usize) -> Result<(), AllocError> {
    for _ in 0..times {
        text.extend_from_slice(piece)?;
    }
    Ok(())
}

/// The text of these pieces, each as often as it says.
fn text_of(alloc: Global, pieces: &[(&[u8], usize)]) -> Result<Vec<u8>, AllocError> {
    let mut text = Vec::new(alloc);
    for (piece, times) in pieces {
        repeat(&mut text, piece, *times)?;
    }
    Ok(text)
}

/// Pieces of a text with how often each stands, and what is so of it.
struct Long(&'static [(&'static [u8], usize)], Said);

impl Row for Long {
    fn holds(&self, alloc: Global) -> Result<bool, AllocError> {
        let text = text_of(alloc, self.0)?;
        is_so(alloc, text.as_slice(), &self.1)
    }
}

const LONG: [Long; 9] = [
    Long(&[(b"a", 255)], Said::SomeTerm),
    Long(&[(b"a", 256)], Said::NoTerm),
    Long(&[(b"'", 1), (b" ", 255), (b"'", 1)], Said::SomeTerm),
    Long(&[(b"'", 1), (b" ", 256), (b"'", 1)], Said::NoTerm),
    Long(&[(b"[0", 1), (b",0", 1027), (b"]", 1)], Said::SomeTerm),
    Long(&[(b"[0", 1), (b",0", 1028), (b"]", 1)], Said::NoTerm),
    Long(&[(b"[", 65), (b"]", 65)], Said::SomeTerm),
    Long(&[(b"[", 66), (b"]", 66)], Said::NoTerm),
    Long(&[(b"a", 300)], Said::Front(Some(255))),
];

#[test]
fn texts_have_limits(rt: HostRuntime) {
    each_row_holds(&rt, rt.alloc(), &LONG);
}

/// Adds atoms, and a term of each other kind but a tuple.
fn add_kinds(alloc: Global, items: &mut Sequence<Term>) -> Result<(), AllocError> {
    items.add(Term::plain_atom(alloc, b"ok")?)?;
    items.add(Term::plain_atom(alloc, b"Big")?)?;
    items.add(Term::plain_atom(alloc, b"")?)?;
    items.add(Term::Int(i64::MIN))?;
    items.add(Term::Pid(Pid(4294967295)))?;
    let owner = Pid(0);
    items.add(Term::Ref(Ref { owner, serial: 7 }))?;
    items.add(Term::List(Sequence::new(alloc)))?;
    Ok(())
}

/// Whether the term is the integer 0.
fn is_zero(term: &Term) -> bool {
    let zero = Term::Int(0);
    let same = term.same(&zero);
    drop(zero);
    same
}

/// Whether a copy of the term is the same, isn't the integer 0, and prints this text.
fn copy_prints(alloc: Global, term: &Term, text: &[u8]) -> Result<bool, AllocError> {
    let copy = term.copy(alloc)?;
    let same = copy.same(term) && !is_zero(&copy);
    let printed = prints(alloc, &copy, text);
    drop(copy);
    Ok(printed? && same)
}

/// Whether a tuple with a term of each kind prints its text.
fn kinds_print(alloc: Global) -> Result<bool, AllocError> {
    let mut items = Sequence::new(alloc);
    add_kinds(alloc, &mut items)?;
    let text = b"{ok,'Big','',-9223372036854775808,<4294967295>,#Ref<0.7>,[]}";
    copy_prints(alloc, &Term::Tuple(items), text)
}

#[test]
fn terms_print_their_texts(rt: HostRuntime) {
    passes(&rt, kinds_print(rt.alloc()));
}
