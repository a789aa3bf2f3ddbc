//! What a line of a text of calls says.

ghost use Rattle.std.specs.Prelude.{◌≡◌, ◌<◌, ◌≤◌, length, take, drop, option_map, IfOk};
ghost use Rattle.sig_tokens.specs.Faults.{on_ok};
ghost use Rattle.sig_tokens.specs.Tokens.{AreTokens, AreRising, IsToken, text};
ghost use Rattle.sig_call.specs.CallLine.{
  is_call_word,
  is_call,
  is_reserved_word,
  has_reserved,
  variable_word,
  variable_at,
  spanned,
  expression_at,
  label_word,
  label_at,
  call_of,
  said_by,
};

use crate::fault::CallFault;
use sig_terms::bytes::equal_bytes;
use sig_tokens::{Cut, Sign, Token, TokenKind, Tokens, expression_end, text_of};
use std::marker::Model;

/// A call line: the variable of the reply, the bytes of the target and of the message, and the label
/// that stands behind them.
#[derive(Drop)]
pub struct CallLine<'l> {
    /// The variable that the reply is bound to.
    pub var: &'l [u8],
    /// The expression of the process that is called.
    pub target: &'l [u8],
    /// The expression of what it is asked.
    pub message: &'l [u8],
    /// Where it goes on when that process has ended.
    pub label: Option<&'l [u8]>,
}

impl<'l> Model for CallLine<'l> {
    ghost use Rattle.std.specs.Prelude.{option_map};
    ghost use Rattle.sig_call.specs.CallLine as spec;

    ghost Value = { spec.CallLine };

    ghost view = { λ c. record {
      var = c.var.now;
      target = c.target.now;
      message = c.message.now;
      label = option_map (λ l. l.now) c.label;
    } };
}

/// Whether the token is the name `call`.
fn is_call_word(line: &[u8], token: Token) -> bool
    requires { IsToken line.now token }
    ensures { result ≡ is_call_word token.kind (text line.now token) }
{
    match token.kind {
        TokenKind::Name => equal_bytes(text_of(line, token), b"call"),
        _ => false,
    }
}

/// Whether the first token is the name `call`.
fn is_call(line: &[u8], tokens: &[Token]) -> bool
    requires { AreTokens line.now tokens.now }
    ensures { result ≡ is_call line.now tokens.now }
{
    match tokens {
        [] => false,
        [token, ..] => is_call_word(line, *token),
    }
}

/// The bytes up to the fifth.
fn front_bytes(word: &[u8]) -> &[u8]
    ensures { result.now ≡ take 5 word.now }
{
    if word.len() < 5 { word } else { &word[..5] }
}

/// Whether the token is a variable that begins with `Call_`.
fn is_reserved(line: &[u8], token: Token) -> bool
    requires { IsToken line.now token }
    ensures { result ≡ is_reserved_word token.kind (text line.now token) }
{
    match token.kind {
        TokenKind::Variable => equal_bytes(front_bytes(text_of(line, token)), b"Call_"),
        _ => false,
    }
}

/// Whether one of the tokens is a variable that begins with `Call_`.
fn has_reserved(line: &[u8], tokens: &[Token]) -> bool
    requires { AreTokens line.now tokens.now }
    ensures { result ≡ has_reserved line.now tokens.now }
{
    let mut rest = tokens;
    while let Some((token, others)) = rest.split_first() {
        if is_reserved(line, *token) {
            return true;
        }
        rest = others;
    }
    false
}

fn variable_word(line: &[u8], token: Token) -> Result<&[u8], CallFault>
    requires { IsToken line.now token }
    ensures { on_ok (λ x. x.now) result ≡ variable_word token.kind (text line.now token) }
{
    match token.kind {
        TokenKind::Variable => Ok(text_of(line, token)),
        _ => Err(CallFault::Form),
    }
}

/// The variable behind the first token.
fn second_variable<'l>(line: &'l [u8], tokens: &[Token]) -> Result<&'l [u8], CallFault>
    requires { AreTokens line.now tokens.now }
    ensures { on_ok (λ x. x.now) result ≡ variable_at line.now (drop 1 tokens.now) }
{
    match tokens {
        [_, token, ..] => variable_word(line, *token),
        _ => Err(CallFault::Form),
    }
}

/// The bytes from the start of one token to the end of the one before another.
fn spanned<'l>(line: &'l [u8], tokens: &[Token], first: usize, last: usize) -> &'l [u8]
    requires known { AreTokens line.now tokens.now }
    requires rising { AreRising tokens.now }
    requires within { (first < last) × (last ≤ length tokens.now) }
    ensures { result.now ≡ spanned line.now tokens.now first last }
{
    &line[tokens[first].start..tokens[last - 1].end]
}

/// The bytes of the expression that begins at the token, and the index behind it.
fn take_expression<'l>(
    line: &'l [u8],
    tokens: &Tokens,
    first: usize,
) -> Result<(&'l [u8], usize), CallFault>
    requires known { AreTokens line.now tokens.now }
    requires rising { AreRising tokens.now }
    ensures bytes { on_ok (λ x. (x.0.now, x.1)) result ≡ expression_at line.now tokens.now first }
    ensures within { IfOk result (λ x. x.1 ≤ length tokens.now) }
{
    match expression_end(line, tokens, first) {
        Some(last) => Ok((spanned(line, tokens.as_slice(), first, last), last)),
        None => Err(CallFault::Form),
    }
}

fn label_word(line: &[u8], token: Token) -> Result<Option<&[u8]>, CallFault>
    requires { IsToken line.now token }
    ensures { on_ok (λ x. option_map (λ l. l.now) x) result ≡ label_word token.kind (text line.now token) }
{
    match token.kind {
        TokenKind::Name => Ok(Some(text_of(line, token))),
        _ => Err(CallFault::Form),
    }
}

/// Nothing, or an arrow and a label.
fn take_label<'l>(line: &'l [u8], tokens: &[Token]) -> Result<Option<&'l [u8]>, CallFault>
    requires { AreTokens line.now tokens.now }
    ensures { on_ok (λ x. option_map (λ l. l.now) x) result ≡ label_at line.now tokens.now }
{
    match tokens {
        [] => Ok(None),
        [arrow, label] => {
            if arrow.kind.is_sign(Sign::Arrow) {
                label_word(line, *label)
            } else {
                Err(CallFault::Form)
            }
        }
        _ => Err(CallFault::Form),
    }
}

/// The call that the tokens behind the word `call` say.
fn read_call<'l>(line: &'l [u8], tokens: &Tokens) -> Result<CallLine<'l>, CallFault>
    requires known { AreTokens line.now tokens.now }
    requires rising { AreRising tokens.now }
    ensures { result ≡ call_of line.now tokens.now }
{
    let var = second_variable(line, tokens.as_slice())?;
    let (target, behind) = take_expression(line, tokens, 2)?;
    let (message, last) = take_expression(line, tokens, behind)?;
    let label = take_label(line, &tokens.as_slice()[last..])?;
    Ok(CallLine {
        var,
        target,
        message,
        label,
    })
}

/// The call that a cut line says, or `None` where it says none.
pub fn read_line<'l>(line: &'l [u8], cut: &Cut) -> Result<Option<CallLine<'l>>, CallFault>
    requires known { AreTokens line.now cut.now.tokens }
    requires rising { AreRising cut.now.tokens }
    ensures { result ≡ said_by line.now cut.now }
{
    let tokens = cut.tokens.as_slice();
    let reserved = has_reserved(line, tokens);
    if !is_call(line, tokens) {
        return if reserved && cut.stop.is_none() {
            Err(CallFault::Reserved)
        } else {
            Ok(None)
        };
    }
    if cut.stop.is_some() {
        return Err(CallFault::Form);
    }
    let call = read_call(line, &cut.tokens)?;
    if reserved {
        return Err(CallFault::Reserved);
    }
    Ok(Some(call))
}
