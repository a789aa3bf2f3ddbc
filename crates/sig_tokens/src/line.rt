ghost use Rattle.std.specs.Prelude.{
  ◌≡◌,
  ◌≤◌,
  ◌==◌,
  length,
  take_while,
  not,
  [],
  IfOk,
  OnOk,
};
ghost use Rattle.std.specs.List.{list_all};
ghost use Rattle.sig_tokens.specs.Faults.{Gives};
ghost use Rattle.sig_tokens.specs.Tokens.{AreTokens, IsToken, AreWellSpelled, AreRising, Splits, checked, is_token_in_range, cut_of, text, tokens_of};

use crate::fault::{FaultKind, Stop};
use crate::number::fits_in_range;
use crate::token::{Cut, Token, TokenKind, Tokens, is_blank_byte, token_at};
use sig_lists::Sequence;
use sig_program::Version;
use std::alloc::{AllocError, Global};
use std::marker::Model;
use std::mem::replace;

/// A line and its tokens, all of them or those from one of them on, from left to right. Each lies in
/// the line and is spelled as its kind says, and each integer has 64 bits. Contracts see both as
/// lists.
#[derive(Drop)]
pub struct Line<'l> {
    text: &'l [u8],
    tokens: &'l [Token],
}

impl<'l> Model for Line<'l> {
    ghost use Rattle.sig_tokens.specs.Tokens.{CutLine, AreWellSpelled};

    ghost Value = { CutLine };

    ghost view = { λ l. record { text = l.text.now; tokens = l.tokens.now } };

    ghost invariant = { λ l. AreWellSpelled l.text.now l.tokens.now };
}

impl<'l> Line<'l> {
    /// A line of these bytes with these tokens.
    ///
    /// Asks that each token lies in the line and is spelled as its kind says, and each integer has
    /// 64 bits, as [`read_tokens`] gives them.
    pub fn new(text: &'l [u8], tokens: &'l [Token]) -> Line<'l>
        requires { AreWellSpelled text.now tokens.now }
        ensures { result ≡ record { text = text.now; tokens = tokens.now } }
    {
        Line { text, tokens }
    }

    /// The first token, and the line behind it. `None` where no token is left.
    pub fn split_first(&self) -> Option<(Token, Line<'l>)>
        ensures { Splits self.now result }
    {
        match self.tokens {
            [] => None,
            [token, rest @ ..] => Some((
                *token,
                Line {
                    text: self.text,
                    tokens: rest,
                },
            )),
        }
    }

    /// How many tokens are left.
    pub(crate) fn len(&self) -> usize
        ensures { result ≡ length self.now.tokens }
    {
        self.tokens.len()
    }

    /// The bytes of a token.
    ///
    /// Asks that the token lies in the line and is spelled as its kind says, as those that
    /// [`Line::split_first`] gives.
    pub fn word(&self, token: Token) -> &'l [u8]
        requires { IsToken self.now.text token }
        ensures { result.now ≡ text self.now.text token }
    {
        text_of(self.text, token)
    }
}

fn line_len(bytes: &[u8]) -> usize
    ensures len { result ≡ length (take_while (λ b. not (b == 10)) bytes.now) }
    ensures bound { result ≤ length bytes.now }
{
    bytes.iter().take_while(|b| **b != b'\n').count()
}

/// The bytes up to the first line feed, or all.
pub fn first_line(bytes: &[u8]) -> &[u8]
    ensures line { result.now ≡ take_while (λ b. not (b == 10)) bytes.now }
    ensures bound { length result.now ≤ length bytes.now }
{
    let n = line_len(bytes);
    &bytes[..n]
}

/// The tokens of a line up to the first place at which none stands, in the room of an empty list.
fn cut_into(version: Version, room: Tokens, line: &[u8]) -> Result<Cut, AllocError>
    requires { room ≡ [] }
    ensures cut { IfOk result (λ cut. cut ≡ cut_of version 0 0 line.now) }
    ensures known { IfOk result (λ cut. AreTokens line.now cut.tokens) }
{
    let mut tokens = room;
    let mut at = 0;
    while at < line.len() {
        let b = line[at];
        if b == b'%' {
            return Ok(Cut { tokens, stop: None });
        }
        if is_blank_byte(b) {
            at += 1;
            continue;
        }
        let Some((kind, len)) = token_at(version, &line[at..]) else {
            return Ok(Cut {
                tokens,
                stop: Some(at),
            });
        };
        tokens.add(Token {
            kind,
            start: at,
            end: at + len,
        })?;
        at += len;
    }
    Ok(Cut { tokens, stop: None })
}

/// The tokens of a line of a script of this version, up to the first place at which no token stands. An
/// integer outside 64 bits is a token too. The only error is want of memory. (The tokens are this
/// project's own.)
pub fn cut_line(alloc: Global, line: &[u8], version: Version) -> Result<Cut, AllocError>
    ensures cut { IfOk result (λ cut. cut ≡ cut_of version 0 0 line.now) }
    ensures known { IfOk result (λ cut. AreTokens line.now cut.tokens) }
    ensures rising { IfOk result (λ cut. AreRising cut.tokens) }
{
    cut_into(version, Sequence::new(alloc), line)
}

/// The bytes of a token.
///
/// Asks that the token lies in the line and is spelled as its kind says, as those that [`cut_line`]
/// gives.
pub fn text_of(line: &[u8], token: Token) -> &[u8]
    requires { IsToken line.now token }
    ensures { result.now ≡ text line.now token }
{
    &line[token.start..token.end]
}

fn fits(line: &[u8], token: Token) -> bool
    requires { IsToken line.now token }
    ensures { result ≡ is_token_in_range (text line.now token) token.kind }
{
    match token.kind {
        TokenKind::Integer => fits_in_range(text_of(line, token)),
        _ => true,
    }
}

fn all_fit(line: &[u8], tokens: &[Token]) -> bool
    requires { AreTokens line.now tokens.now }
    ensures { result ≡ list_all (λ t. is_token_in_range (text line.now t) t.kind) tokens.now }
{
    let mut rest = tokens;
    while let Some((token, others)) = rest.split_first() {
        if !fits(line, *token) {
            return false;
        }
        rest = others;
    }
    true
}

/// The tokens of a cut, or what is wrong with them.
///
/// Asks that each token lies in the line and is spelled as its kind says, as those that [`cut_line`]
/// gives.
pub fn check_cut(line: &[u8], cut: Cut) -> Result<Tokens, FaultKind>
    requires { AreTokens line.now cut.tokens }
    ensures tokens { result ≡ checked line.now cut }
    ensures spelled { IfOk result (λ tokens. AreWellSpelled line.now tokens) }
{
    if !all_fit(line, cut.tokens.as_slice()) {
        return Err(FaultKind::IntRange);
    }
    if cut.stop.is_some() {
        return Err(FaultKind::Syntax);
    }
    Ok(cut.tokens)
}

/// The tokens of a line of a script of this version, or what is wrong with them. They replace those
/// in the list, whose room is used again.
pub fn read_tokens(
    alloc: Global,
    version: Version,
    into: &mut Tokens,
    line: &[u8],
) -> Result<(), Stop>
    ensures tokens { Gives (λ u. into.new) result (tokens_of version line.now) }
    ensures spelled { OnOk result (AreWellSpelled line.now into.new) }
{
    let mut room = replace(into, Sequence::new(alloc)).into_vec();
    room.clear();
    let cut = cut_into(version, Sequence::from_vec(room), line)?;
    match check_cut(line, cut) {
        Ok(tokens) => {
            *into = tokens;
            Ok(())
        }
        Err(kind) => Err(Stop::Fault(kind)),
    }
}
