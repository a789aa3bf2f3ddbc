//! Phrases, which are expressions and patterns, at the front of a line, within a depth and a number
//! of nodes.

ghost use Rattle.std.specs.Prelude.{◌≡◌, true, IfOk};
ghost use Rattle.sig_terms.specs.Words.{is_atom};
ghost use Rattle.sig_tokens.specs.Faults.{Gives};
ghost use Rattle.sig_tokens.specs.Phrases.{
  Spelling,
  begins_phrase,
  refusal_of,
  is_before_tail,
  closed,
  single_in,
  ending_in,
  elements_in,
  bracketed_in,
  phrase_behind,
  phrase_at,
  phrase_of,
};
ghost use Rattle.sig_tokens.specs.Signs.{closes};
ghost use Rattle.sig_tokens.specs.Tokens.{IsWellSpelled};

use crate::fault::{FaultKind, Stop};
use crate::known::{Known, find_pid};
use crate::line::Line;
use crate::names::name_of;
use crate::number::read_int;
use crate::token::{Sign, Token, TokenKind, behind_first, unquoted};
use sig_lists::Sequence;
use sig_patterns::{MOST_DEPTH, MOST_NODES, Var};
use sig_terms::{Atom, Pid};
use std::alloc::{AllocError, Global};
use std::mem::drop;

/// An expression or a pattern, by how it is made of its parts.
pub trait Phrase: Drop + Sized {
    // How all of its kind are made.
    ghost spelling: { Spelling Self };

    fn int(n: i64) -> Self
        ensures { result ≡ spelling.int n };

    fn atom(atom: Atom) -> Self
        ensures { result ≡ spelling.atom atom };

    fn var(var: Var) -> Self
        ensures { result ≡ spelling.var var };

    fn pid(pid: Pid) -> Self
        ensures { result ≡ spelling.pid pid };

    /// Whether the sign begins one that opens no bracket.
    fn begins(kind: TokenKind) -> bool
        ensures { result ≡ spelling.begins kind };

    /// What the sign begins, which opens no bracket; and the line behind it.
    fn signed<'l>(alloc: Global, kind: TokenKind, rest: Line<'l>) -> Result<(Self, Line<'l>), Stop>
        ensures value { Gives (λ x. (x.0, x.1.tokens)) result (spelling.signed rest.entry.text kind rest.entry.tokens) }
        ensures line { IfOk result (λ x. x.1.text ≡ rest.entry.text) };

    /// What the elements make that the sign closes.
    fn enclosing(close: Sign, items: Sequence<Self>) -> Self
        ensures { result ≡ spelling.enclosing close items };

    /// Whether lists have tails.
    fn has_tails() -> bool
        ensures { result ≡ spelling.has_tails };

    /// The list of these first elements and this tail.
    fn nested(alloc: Global, items: Sequence<Self>, tail: Self) -> Result<Self, AllocError>
        ensures { IfOk result (λ x. x ≡ spelling.nested items tail) };
}

/// Whether a phrase may begin with the token.
fn begins<T: Phrase>(kind: TokenKind) -> bool
    ensures { result ≡ begins_phrase T.spelling kind }
{
    kind.is_sign(Sign::OpenBrace)
        || kind.is_sign(Sign::OpenBracket)
        || kind.is_word()
        || T::begins(kind)
}

/// What is wrong with the first token where no node or no depth is left.
fn refusal<T: Phrase>(line: &Line) -> FaultKind
    ensures { result ≡ refusal_of T.spelling line.now.tokens }
{
    match line.split_first() {
        Some((token, _)) if begins::<T>(token.kind) => FaultKind::TermTooLarge,
        _ => FaultKind::Syntax,
    }
}

/// The atom of these bytes.
///
/// Asks that the bytes are those of an atom, as [`spells_atom`](sig_terms::bytes::spells_atom)
/// tells.
pub fn atom_of(alloc: Global, bytes: &[u8]) -> Result<Atom, AllocError>
    requires { is_atom bytes.now ≡ true }
    ensures { IfOk result (λ a. a ≡ bytes.now) }
{
    match Atom::new(alloc, bytes)? {
        Some(atom) => Ok(atom),
        None => unreachable!(),
    }
}

/// The phrase without elements that the token begins, and the line behind it.
fn take_single<'l, T: Phrase>(
    alloc: Global,
    known: &Known,
    token: Token,
    rest: Line<'l>,
) -> Result<(T, Line<'l>), Stop>
    requires { IsWellSpelled rest.text token }
    ensures value { Gives (λ x. (x.0, x.1.tokens)) result (single_in T.spelling known.now token rest.entry) }
    ensures line { IfOk result (λ x. x.1.text ≡ rest.entry.text) }
{
    let word = rest.word(token);
    match token.kind {
        TokenKind::Name => Ok((T::atom(atom_of(alloc, word)?), rest)),
        TokenKind::Quoted => Ok((T::atom(atom_of(alloc, unquoted(word))?), rest)),
        TokenKind::Integer => Ok((T::int(read_int(word)), rest)),
        TokenKind::Variable => Ok((T::var(Var(name_of(alloc, word)?)), rest)),
        TokenKind::Process => {
            let pid = find_pid(known, behind_first(word))?;
            Ok((T::pid(Pid(pid)), rest))
        }
        TokenKind::Sign(_) => T::signed(alloc, token.kind, rest),
    }
}

/// Whether the token stands before the tail of a list.
fn is_before_tail<T: Phrase>(close: Sign, kind: TokenKind) -> bool
    ensures { result ≡ is_before_tail T.spelling close kind }
{
    match close {
        Sign::CloseBracket => T::has_tails() && kind.is_sign(Sign::Bar),
        _ => false,
    }
}

/// A phrase whose last token is the sign that closes it.
fn closed<'l, T: Phrase>(
    close: Sign,
    phrase: T,
    nodes: u64,
    line: &Line<'l>,
) -> Result<(T, u64, Line<'l>), Stop>
    ensures value { Gives (λ x. (x.0, x.1, x.2.tokens)) result (closed (closes close) phrase nodes line.now.tokens) }
    ensures line { IfOk result (λ x. x.2.text ≡ line.now.text) }
{
    match line.split_first() {
        Some((token, rest)) if token.kind.closes(close) => Ok((phrase, nodes, rest)),
        _ => {
            drop(phrase);
            Err(Stop::Fault(FaultKind::Syntax))
        }
    }
}

/// Behind elements: the sign that closes them, or a bar, the tail, and that sign.
#[cycle(front)]
fn end<'l, T: Phrase>(
    alloc: Global,
    known: &Known,
    close: Sign,
    items: Sequence<T>,
    depth: u64,
    nodes: u64,
    line: &Line<'l>,
) -> Result<(T, u64, Line<'l>), Stop>
    ensures value { Gives (λ x. (x.0, x.1, x.2.tokens)) result (ending_in T.spelling known.now depth close items nodes line.now) }
    ensures line { IfOk result (λ x. x.2.text ≡ line.now.text) }
{
    match line.split_first() {
        Some((token, more)) if is_before_tail::<T>(close, token.kind) => {
            let (tail, left, behind) = front::<T>(alloc, known, depth, nodes, &more)?;
            let list = T::nested(alloc, items, tail)?;
            closed(close, list, left, &behind)
        }
        _ => closed(close, T::enclosing(close, items), nodes, line),
    }
}

/// Elements at the front of the line, at least one, and what ends them.
#[cycle(front)]
fn some_elements<'l, T: Phrase>(
    alloc: Global,
    known: &Known,
    close: Sign,
    depth: u64,
    nodes: u64,
    line: Line<'l>,
) -> Result<(T, u64, Line<'l>), Stop>
    ensures value { Gives (λ x. (x.0, x.1, x.2.tokens)) result (elements_in T.spelling known.now depth close nodes line.entry) }
    ensures line { IfOk result (λ x. x.2.text ≡ line.entry.text) }
{
    let mut items = Sequence::new(alloc);
    let mut left = nodes;
    let count = line.len();
    let mut rest = line;
    for _ in 0..count {
        let (item, fewer, behind) = front::<T>(alloc, known, depth, left, &rest)?;
        items.add(item)?;
        left = fewer;
        match behind.split_first() {
            Some((token, more)) if token.kind.is_sign(Sign::Comma) => rest = more,
            _ => return end(alloc, known, close, items, depth, left, &behind),
        }
    }
    Err(Stop::Fault(FaultKind::Syntax))
}

/// What stands behind an opening bracket.
#[cycle(front)]
fn behind_bracket<'l, T: Phrase>(
    alloc: Global,
    known: &Known,
    close: Sign,
    depth: u64,
    nodes: u64,
    line: Line<'l>,
) -> Result<(T, u64, Line<'l>), Stop>
    ensures value { Gives (λ x. (x.0, x.1, x.2.tokens)) result (bracketed_in T.spelling known.now depth close nodes line.entry) }
    ensures line { IfOk result (λ x. x.2.text ≡ line.entry.text) }
{
    match line.split_first() {
        None => Err(Stop::Fault(FaultKind::Syntax)),
        Some((token, rest)) => {
            if token.kind.closes(close) {
                Ok((T::enclosing(close, Sequence::new(alloc)), nodes, rest))
            } else {
                some_elements(alloc, known, close, depth, nodes, line)
            }
        }
    }
}

/// The phrase that the token begins.
#[cycle(front)]
fn behind_token<'l, T: Phrase>(
    alloc: Global,
    known: &Known,
    token: Token,
    depth: u64,
    nodes: u64,
    rest: Line<'l>,
) -> Result<(T, u64, Line<'l>), Stop>
    requires { IsWellSpelled rest.text token }
    ensures value { Gives (λ x. (x.0, x.1, x.2.tokens)) result (phrase_behind T.spelling known.now depth token nodes rest.entry) }
    ensures line { IfOk result (λ x. x.2.text ≡ rest.entry.text) }
{
    if token.kind.is_sign(Sign::OpenBrace) {
        behind_bracket(alloc, known, Sign::CloseBrace, depth, nodes, rest)
    } else if token.kind.is_sign(Sign::OpenBracket) {
        behind_bracket(alloc, known, Sign::CloseBracket, depth, nodes, rest)
    } else {
        let (phrase, behind) = take_single(alloc, known, token, rest)?;
        Ok((phrase, nodes, behind))
    }
}

/// The phrase at the front of the line, of at most `nodes` nodes and of this depth; then the nodes
/// that are left, and the line behind.
#[cycle(front)]
fn front<'l, T: Phrase>(
    alloc: Global,
    known: &Known,
    depth: u64,
    nodes: u64,
    line: &Line<'l>,
) -> Result<(T, u64, Line<'l>), Stop>
    ensures value { Gives (λ x. (x.0, x.1, x.2.tokens)) result (phrase_at T.spelling known.now line.now.text depth nodes line.now.tokens) }
    ensures line { IfOk result (λ x. x.2.text ≡ line.now.text) }
{
    if depth == 0 || nodes == 0 {
        return Err(Stop::Fault(refusal::<T>(line)));
    }
    match line.split_first() {
        None => Err(Stop::Fault(FaultKind::Syntax)),
        Some((token, rest)) => behind_token(alloc, known, token, depth - 1, nodes - 1, rest),
    }
}

/// A phrase of at most [`MOST_NODES`] nodes and depth [`MOST_DEPTH`], and the line behind it.
pub fn take_phrase<'l, T: Phrase>(
    alloc: Global,
    known: &Known,
    line: &Line<'l>,
) -> Result<(T, Line<'l>), Stop>
    ensures value { Gives (λ x. (x.0, x.1.tokens)) result (phrase_of T.spelling known.now line.now.text line.now.tokens) }
    ensures line { IfOk result (λ x. x.1.text ≡ line.now.text) }
{
    let (phrase, _, rest) = front::<T>(alloc, known, MOST_DEPTH, MOST_NODES, line)?;
    Ok((phrase, rest))
}
