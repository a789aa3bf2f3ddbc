//! Patterns as phrases.

ghost use Rattle.std.specs.Prelude.{◌≡◌, IfOk};
ghost use Rattle.sig_tokens.specs.PatternTexts.{nested, pattern_enclosing, pattern_spelling};

use crate::fault::{FaultKind, Stop};
use crate::line::Line;
use crate::names::take_variable;
use crate::phrases::Phrase;
use crate::token::{Sign, TokenKind};
use sig_patterns::{Pattern, Patterns, Var};
use sig_terms::{Atom, Pid};
use sqlite_items::Boxed;
use std::alloc::{AllocError, Global};

/// The pattern of a list whose first elements match the heads, and the list of the rest the tail.
#[tactic(auto, using(crate::proofs::NestLemmas::nested_last))]
fn nest(alloc: Global, heads: Patterns, tail: Pattern) -> Result<Pattern, AllocError>
    ensures { IfOk result (λ p. p ≡ nested heads tail) }
{
    let mut heads = heads;
    let mut pattern = tail;
    while let Some(head) = heads.pop() {
        let head = Boxed::new(alloc, head)?;
        let tail = Boxed::new(alloc, pattern)?;
        pattern = Pattern::Cons { head, tail };
    }
    Ok(pattern)
}

impl Phrase for Pattern {
    ghost spelling = { pattern_spelling };

    fn int(n: i64) -> Pattern {
        Pattern::Int(n)
    }

    fn atom(atom: Atom) -> Pattern {
        Pattern::Atom(atom)
    }

    fn var(var: Var) -> Pattern {
        Pattern::Bind(var)
    }

    fn pid(pid: Pid) -> Pattern {
        Pattern::Pid(pid)
    }

    fn begins(kind: TokenKind) -> bool {
        kind.is_sign(Sign::Caret) || kind.is_sign(Sign::Underscore)
    }

    fn signed<'l>(
        alloc: Global,
        kind: TokenKind,
        rest: Line<'l>,
    ) -> Result<(Pattern, Line<'l>), Stop> {
        if kind.is_sign(Sign::Caret) {
            let (var, behind) = take_variable(alloc, &rest)?;
            Ok((Pattern::Pin(var), behind))
        } else if kind.is_sign(Sign::Underscore) {
            Ok((Pattern::Any, rest))
        } else {
            Err(Stop::Fault(FaultKind::Syntax))
        }
    }

    fn enclosing(close: Sign, items: Patterns) -> Pattern
        ensures { result ≡ pattern_enclosing close items }
    {
        match close {
            Sign::CloseBrace => Pattern::Tuple(items),
            _ => Pattern::List(items),
        }
    }

    fn has_tails() -> bool {
        true
    }

    fn nested(alloc: Global, items: Patterns, tail: Pattern) -> Result<Pattern, AllocError>
        ensures { IfOk result (λ x. x ≡ nested items tail) }
    {
        nest(alloc, items, tail)
    }
}
