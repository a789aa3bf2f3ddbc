//! Where an expression ends. Nothing is made of it, so it takes no memory.

ghost use Rattle.std.specs.Prelude.{◌≡◌, ◌<◌, ◌≤◌, [], length, option_map, IfSome};
ghost use Rattle.sig_tokens.specs.Expressions.{expr_spelling};
ghost use Rattle.sig_tokens.specs.Faults.{on_ok};
ghost use Rattle.sig_tokens.specs.Phrases.{bracketed, elements, ending, phrase_at, single};
ghost use Rattle.sig_tokens.specs.Skipping.{left_by, left_behind, behind_comma, expression_end};
ghost use Rattle.sig_tokens.specs.Tokens.{text};
ghost use Rattle.sig_tokens.specs.declared.known.Known.TheVariants.{Any};

use crate::token::{Sign, Token, Tokens};
use sig_patterns::{MOST_DEPTH, MOST_NODES};

/// The token as an expression without elements.
#[tactic(auto, using(crate::proofs::SkipLemmas::single_left))]
fn skip_single<'t>(
    line: &[u8],
    token: Token,
    nodes: u64,
    rest: &'t [Token],
) -> Option<(u64, &'t [Token])>
    ensures left { option_map (λ x. (x.0, x.1.now)) result
        ≡ left_by (on_ok (λ x. (x.0, nodes, x.1)) (single expr_spelling Any line.now token.kind (text line.now token) rest.now)) }
    ensures within { IfSome result (λ x. length x.1.now ≤ length rest.now) }
{
    let _line = line;
    if token.kind.is_word() {
        Some((nodes, rest))
    } else {
        None
    }
}

/// The sign that closes elements.
fn skip_close<'t>(close: Sign, nodes: u64, tokens: &'t [Token]) -> Option<(u64, &'t [Token])>
    ensures left { option_map (λ x. (x.0, x.1.now)) result ≡ left_behind close nodes tokens.now }
    ensures within { IfSome result (λ x. length x.1.now < length tokens.now) }
{
    match tokens {
        [] => None,
        [token, rest @ ..] => {
            if token.kind.closes(close) {
                Some((nodes, rest))
            } else {
                None
            }
        }
    }
}

/// What stands behind a comma.
fn behind_comma<'t>(tokens: &'t [Token]) -> Option<&'t [Token]>
    ensures rest { option_map (λ x. x.now) result ≡ behind_comma tokens.now }
    ensures within { IfSome result (λ x. length x.now < length tokens.now) }
{
    match tokens {
        [] => None,
        [token, rest @ ..] => {
            if token.kind.is_sign(Sign::Comma) {
                Some(rest)
            } else {
                None
            }
        }
    }
}

/// Elements at the front of the tokens, at least one, and the sign that closes them.
#[cycle(skip)]
fn skip_elements<'t>(
    line: &[u8],
    close: Sign,
    depth: u64,
    nodes: u64,
    tokens: &'t [Token],
) -> Option<(u64, &'t [Token])>
    ensures left { let read = phrase_at expr_spelling Any line.now depth in option_map (λ x. (x.0, x.1.now)) result
        ≡ left_by (elements read (ending expr_spelling close read) (length tokens.now) nodes [] tokens.now) }
    ensures within { IfSome result (λ x. length x.1.now < length tokens.now) }
{
    let mut left = nodes;
    let mut rest = tokens;
    for _ in 0..tokens.len() {
        let (fewer, behind) = skip(line, depth, left, rest)?;
        match behind_comma(behind) {
            Some(more) => {
                left = fewer;
                rest = more;
            }
            None => return skip_close(close, fewer, behind),
        }
    }
    None
}

/// What stands behind an opening bracket.
#[cycle(skip)]
fn skip_bracket<'t>(
    line: &[u8],
    close: Sign,
    depth: u64,
    nodes: u64,
    tokens: &'t [Token],
) -> Option<(u64, &'t [Token])>
    ensures left { option_map (λ x. (x.0, x.1.now)) result
        ≡ left_by (bracketed expr_spelling close (phrase_at expr_spelling Any line.now depth) nodes tokens.now) }
    ensures within { IfSome result (λ x. length x.1.now < length tokens.now) }
{
    match tokens {
        [] => None,
        [token, rest @ ..] => {
            if token.kind.closes(close) {
                Some((nodes, rest))
            } else {
                skip_elements(line, close, depth, nodes, tokens)
            }
        }
    }
}

/// The expression at the front of the tokens, of at most `nodes` nodes and of this depth: the nodes
/// that are left, and the tokens behind it.
#[cycle(skip)]
fn skip<'t>(line: &[u8], depth: u64, nodes: u64, tokens: &'t [Token]) -> Option<(u64, &'t [Token])>
    ensures left { option_map (λ x. (x.0, x.1.now)) result ≡ left_by (phrase_at expr_spelling Any line.now depth nodes tokens.now) }
    ensures within { IfSome result (λ x. length x.1.now < length tokens.now) }
{
    if depth == 0 || nodes == 0 {
        return None;
    }
    match tokens {
        [] => None,
        [token, rest @ ..] => {
            if token.kind.is_sign(Sign::OpenBrace) {
                skip_bracket(line, Sign::CloseBrace, depth - 1, nodes - 1, rest)
            } else if token.kind.is_sign(Sign::OpenBracket) {
                skip_bracket(line, Sign::CloseBracket, depth - 1, nodes - 1, rest)
            } else {
                skip_single(line, *token, nodes - 1, rest)
            }
        }
    }
}

/// The index after the last token of the expression that begins at the token `first` of a line, whose
/// tokens these are, as [`cut_line`](crate::cut_line) gives them. `None` exactly where no expression
/// of at most [`MOST_NODES`] nodes and depth [`MOST_DEPTH`] begins there. It takes no memory. (The
/// language of scripts is this project's own.)
pub fn expression_end(line: &[u8], tokens: &Tokens, first: usize) -> Option<usize>
    ensures end { result ≡ expression_end line.now tokens.now first }
    ensures within { IfSome result (λ n. (first < n) × (n ≤ length tokens.now)) }
{
    let all = tokens.as_slice();
    if first > all.len() {
        return None;
    }
    let (_, behind) = skip(line, MOST_DEPTH, MOST_NODES, &all[first..])?;
    Some(all.len() - behind.len())
}
