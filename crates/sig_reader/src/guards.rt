//! The guards of clauses.

ghost use Rattle.std.specs.Prelude.{◌≡◌, ◌++◌, ◌∷◌, [], Ok, IfOk, IfSome, option_map};
ghost use Rattle.sig_tokens.specs.Faults.{Gives};
ghost use Rattle.sig_reader.specs.Guards.{
  kind_of,
  side_at,
  op_at,
  compare_at,
  behind_sign,
  enclosed_at,
  is_at,
  test_at,
  begins_test,
  test_refusal,
  join_of,
  join_at,
  alternatives_from,
  is_when,
  some_guard_at,
  guard_at,
};

use sig_lists::Sequence;
use sig_patterns::{Alternatives, Guard, Op, Operand, TermKind, Test, Tests, Var};
use sig_terms::bytes::equal_bytes;
use sig_tokens::{
    FaultKind, Line, Sign, Stop, TokenKind, name_of, read_int, take_variable, take_word,
};
use std::alloc::Global;

/// The most tests of a guard, in all of its alternatives.
pub const MOST_TESTS: u64 = 64;

/// What stands between two tests.
#[derive(Clone, Copy)]
pub enum Join {
    /// `and`: both are of one alternative.
    And,
    /// `or`: the second begins the next alternative.
    Or,
}

/// The kind of terms for which the word asks.
fn read_kind(word: &[u8]) -> Option<TermKind>
    ensures { result ≡ kind_of word.now }
{
    if equal_bytes(word, b"is_integer") {
        Some(TermKind::Integer)
    } else if equal_bytes(word, b"is_atom") {
        Some(TermKind::Atom)
    } else if equal_bytes(word, b"is_pid") {
        Some(TermKind::Pid)
    } else if equal_bytes(word, b"is_reference") {
        Some(TermKind::Reference)
    } else if equal_bytes(word, b"is_tuple") {
        Some(TermKind::Tuple)
    } else if equal_bytes(word, b"is_list") {
        Some(TermKind::List)
    } else {
        None
    }
}

/// A side of a comparison, and the line behind it.
fn take_side<'l>(alloc: Global, line: &Line<'l>) -> Result<(Operand, Line<'l>), Stop>
    ensures value { Gives (λ x. (x.0, x.1.tokens)) result (side_at line.now.text line.now.tokens) }
    ensures line { IfOk result (λ x. x.1.text ≡ line.now.text) }
{
    match line.split_first() {
        None => Err(Stop::Fault(FaultKind::Syntax)),
        Some((token, rest)) => match token.kind {
            TokenKind::Integer => Ok((Operand::Int(read_int(line.word(token))), rest)),
            TokenKind::Variable => {
                let name = name_of(alloc, line.word(token))?;
                Ok((Operand::Var(Var(name)), rest))
            }
            _ => Err(Stop::Fault(FaultKind::Syntax)),
        },
    }
}

/// A comparison sign, and the line behind it.
fn take_op<'l>(line: &Line<'l>) -> Result<(Op, Line<'l>), Stop>
    ensures value { Gives (λ x. (x.0, x.1.tokens)) result (op_at line.now.tokens) }
    ensures line { IfOk result (λ x. x.1.text ≡ line.now.text) }
{
    match line.split_first() {
        None => Err(Stop::Fault(FaultKind::Syntax)),
        Some((token, rest)) => match token.kind.op() {
            Some(op) => Ok((op, rest)),
            None => Err(Stop::Fault(FaultKind::Syntax)),
        },
    }
}

/// A comparison, and the line behind it.
fn take_compare<'l>(alloc: Global, line: &Line<'l>) -> Result<(Test, Line<'l>), Stop>
    ensures value { Gives (λ x. (x.0, x.1.tokens)) result (compare_at line.now.text line.now.tokens) }
    ensures line { IfOk result (λ x. x.1.text ≡ line.now.text) }
{
    let (left, behind_left) = take_side(alloc, line)?;
    let (op, behind_op) = take_op(&behind_left)?;
    let (right, rest) = take_side(alloc, &behind_op)?;
    Ok((Test::Compare { left, op, right }, rest))
}

/// The line behind this sign.
fn behind_sign<'l>(sign: Sign, line: &Line<'l>) -> Result<Line<'l>, Stop>
    ensures value { Gives (λ x. x.tokens) result (behind_sign sign line.now.tokens) }
    ensures line { IfOk result (λ x. x.text ≡ line.now.text) }
{
    match line.split_first() {
        Some((token, rest)) if token.kind.is_sign(sign) => Ok(rest),
        _ => Err(Stop::Fault(FaultKind::Syntax)),
    }
}

/// A variable between parentheses, and the line behind it.
fn take_enclosed<'l>(alloc: Global, line: &Line<'l>) -> Result<(Var, Line<'l>), Stop>
    ensures value { Gives (λ x. (x.0.0, x.1.tokens)) result (enclosed_at line.now.text line.now.tokens) }
    ensures line { IfOk result (λ x. x.1.text ≡ line.now.text) }
{
    let inside = behind_sign(Sign::OpenParen, line)?;
    let (var, behind_var) = take_variable(alloc, &inside)?;
    let rest = behind_sign(Sign::CloseParen, &behind_var)?;
    Ok((var, rest))
}

/// The test for a kind of terms, and the line behind it.
fn take_is<'l>(alloc: Global, line: &Line<'l>) -> Result<(Test, Line<'l>), Stop>
    ensures value { Gives (λ x. (x.0, x.1.tokens)) result (is_at line.now.text line.now.tokens) }
    ensures line { IfOk result (λ x. x.1.text ≡ line.now.text) }
{
    let (word, behind_word) = take_word(line)?;
    match read_kind(word) {
        None => Err(Stop::Fault(FaultKind::Syntax)),
        Some(kind) => {
            let (var, rest) = take_enclosed(alloc, &behind_word)?;
            Ok((Test::Is { kind, var }, rest))
        }
    }
}

/// A test, and the line behind it.
fn take_test<'l>(alloc: Global, line: &Line<'l>) -> Result<(Test, Line<'l>), Stop>
    ensures value { Gives (λ x. (x.0, x.1.tokens)) result (test_at line.now.text line.now.tokens) }
    ensures line { IfOk result (λ x. x.1.text ≡ line.now.text) }
{
    match line.split_first() {
        None => Err(Stop::Fault(FaultKind::Syntax)),
        Some((token, _)) => match token.kind {
            TokenKind::Name => take_is(alloc, line),
            _ => take_compare(alloc, line),
        },
    }
}

/// Whether a test may begin with the token of this kind and these bytes.
fn begins_test(kind: TokenKind, word: &[u8]) -> bool
    ensures { result ≡ begins_test kind word.now }
{
    match kind {
        TokenKind::Integer => true,
        TokenKind::Variable => true,
        TokenKind::Name => read_kind(word).is_some(),
        _ => false,
    }
}

/// What is wrong with the first token where no test more may stand.
fn refusal(line: &Line) -> FaultKind
    ensures { result ≡ test_refusal line.now.text line.now.tokens }
{
    match line.split_first() {
        Some((token, _)) if begins_test(token.kind, line.word(token)) => FaultKind::TermTooLarge,
        _ => FaultKind::Syntax,
    }
}

/// What joins tests, by the kind and the bytes of a token.
fn read_join(kind: TokenKind, word: &[u8]) -> Option<Join>
    ensures { result ≡ join_of kind word.now }
{
    match kind {
        TokenKind::Name if equal_bytes(word, b"and") => Some(Join::And),
        TokenKind::Name if equal_bytes(word, b"or") => Some(Join::Or),
        _ => None,
    }
}

/// What joins the test before the line with the next one, and the line behind it. `None` where the
/// guard ends.
fn split_join<'l>(line: &Line<'l>) -> Option<(Join, Line<'l>)>
    ensures join { option_map (λ x. (x.0, x.1.tokens)) result ≡ join_at line.now.text line.now.tokens }
    ensures line { IfSome result (λ x. x.1.text ≡ line.now.text) }
{
    let (token, rest) = line.split_first()?;
    let join = read_join(token.kind, line.word(token))?;
    Some((join, rest))
}

/// The alternatives, and one more.
fn with_alternative(done: Alternatives, tests: Tests) -> Result<Alternatives, Stop>
    ensures { Gives (λ a. a) result (Ok (done ++ tests ∷ [])) }
{
    let mut done = done;
    done.add(tests)?;
    Ok(done)
}

/// The tests, and one more.
fn with_test(tests: Tests, test: Test) -> Result<Tests, Stop>
    ensures { Gives (λ t. t) result (Ok (tests ++ test ∷ [])) }
{
    let mut tests = tests;
    tests.add(test)?;
    Ok(tests)
}

/// The alternatives of a guard behind these, and behind these tests of the next one, where so many
/// tests more may stand; and the line behind them.
fn take_alternatives<'l>(
    alloc: Global,
    done: Alternatives,
    tests: Tests,
    room: u64,
    line: &Line<'l>,
) -> Result<(Alternatives, Line<'l>), Stop>
    ensures value { Gives (λ x. (x.0, x.1.tokens)) result (alternatives_from line.now.text room done tests line.now.tokens) }
    ensures line { IfOk result (λ x. x.1.text ≡ line.now.text) }
{
    if room == 0 {
        return Err(Stop::Fault(refusal(line)));
    }
    let (test, behind) = take_test(alloc, line)?;
    let tests = with_test(tests, test)?;
    match split_join(&behind) {
        Some((Join::And, rest)) => take_alternatives(alloc, done, tests, room - 1, &rest),
        Some((Join::Or, rest)) => {
            let done = with_alternative(done, tests)?;
            take_alternatives(alloc, done, Sequence::new(alloc), room - 1, &rest)
        }
        None => Ok((with_alternative(done, tests)?, behind)),
    }
}

/// Whether the token of this kind and these bytes is `when`.
fn is_when(kind: TokenKind, word: &[u8]) -> bool
    ensures { result ≡ is_when kind word.now }
{
    match kind {
        TokenKind::Name => equal_bytes(word, b"when"),
        _ => false,
    }
}

/// A guard behind `when`, and the line behind it.
fn some_guard<'l>(alloc: Global, line: &Line<'l>) -> Result<(Option<Guard>, Line<'l>), Stop>
    ensures value { Gives (λ x. (x.0, x.1.tokens)) result (some_guard_at line.now.text line.now.tokens) }
    ensures line { IfOk result (λ x. x.1.text ≡ line.now.text) }
{
    let (alternatives, rest) = take_alternatives(
        alloc,
        Sequence::new(alloc),
        Sequence::new(alloc),
        MOST_TESTS,
        line,
    )?;
    Ok((Some(Guard { alternatives }), rest))
}

/// Nothing, or `when` and a guard; and the line behind it. Test 65 is TermTooLarge at its first
/// token. (Erlang Reference Manual, Expressions, Guard Sequences; the text is this project's own.)
pub fn take_guard<'l>(alloc: Global, line: Line<'l>) -> Result<(Option<Guard>, Line<'l>), Stop>
    ensures value { Gives (λ x. (x.0, x.1.tokens)) result (guard_at line.entry.text line.entry.tokens) }
    ensures line { IfOk result (λ x. x.1.text ≡ line.entry.text) }
{
    match line.split_first() {
        Some((token, rest)) if is_when(token.kind, line.word(token)) => some_guard(alloc, &rest),
        _ => Ok((None, line)),
    }
}
