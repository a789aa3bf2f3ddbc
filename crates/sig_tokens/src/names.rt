//! The names at the front of tokens, and the tokens behind them.

ghost use Rattle.std.specs.Prelude.{◌≡◌, true, IfOk};
ghost use Rattle.sig_terms.specs.Words.{is_token};
ghost use Rattle.sig_tokens.specs.Faults.{Gives};
ghost use Rattle.sig_tokens.specs.Names.{name_at, variable_at, target_at};

use crate::fault::{FaultKind, Stop};
use crate::known::{Known, find_label};
use crate::line::Line;
use crate::token::TokenKind;
use sig_patterns::Var;
use sig_terms::Name;
use std::alloc::{AllocError, Global};

/// The bytes of a name.
pub fn take_word<'l>(line: &Line<'l>) -> Result<(&'l [u8], Line<'l>), Stop>
    ensures word { Gives (λ x. (x.0.now, x.1.tokens)) result (name_at line.now.text line.now.tokens) }
    ensures token { IfOk result (λ x. is_token x.0.now ≡ true) }
    ensures line { IfOk result (λ x. x.1.text ≡ line.now.text) }
{
    match line.split_first() {
        None => Err(Stop::Fault(FaultKind::Syntax)),
        Some((token, rest)) => match token.kind {
            TokenKind::Name => Ok((line.word(token), rest)),
            _ => Err(Stop::Fault(FaultKind::Syntax)),
        },
    }
}

/// The name of these bytes.
///
/// Asks that the bytes are a name token or a variable token, as
/// [`spells_token`](sig_terms::bytes::spells_token) tells.
pub fn name_of(alloc: Global, word: &[u8]) -> Result<Name, AllocError>
    requires { is_token word.now ≡ true }
    ensures { IfOk result (λ n. n ≡ word.now) }
{
    match Name::new(alloc, word)? {
        Some(name) => Ok(name),
        None => unreachable!(),
    }
}

/// A variable.
pub fn take_variable<'l>(alloc: Global, line: &Line<'l>) -> Result<(Var, Line<'l>), Stop>
    ensures name { Gives (λ x. (x.0.0, x.1.tokens)) result (variable_at line.now.text line.now.tokens) }
    ensures line { IfOk result (λ x. x.1.text ≡ line.now.text) }
{
    match line.split_first() {
        None => Err(Stop::Fault(FaultKind::Syntax)),
        Some((token, rest)) => match token.kind {
            TokenKind::Variable => Ok((Var(name_of(alloc, line.word(token))?), rest)),
            _ => Err(Stop::Fault(FaultKind::Syntax)),
        },
    }
}

/// A label of the process with this place among the processes: its place among its labels.
pub fn take_target<'l>(known: &Known, here: usize, line: &Line<'l>) -> Result<(u32, Line<'l>), Stop>
    ensures target { Gives (λ x. (x.0, x.1.tokens)) result (target_at known.now here line.now.text line.now.tokens) }
    ensures line { IfOk result (λ x. x.1.text ≡ line.now.text) }
{
    let (word, rest) = take_word(line)?;
    let target = find_label(known, here, word)?;
    Ok((target, rest))
}
