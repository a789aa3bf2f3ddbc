//! What building refuses, and a match that binds. What patterns match is tested by scripts.

ghost use Rattle.std.specs.Prelude.{◌≡◌, ◌<◌};

use crate::shared::{Row, each_row_holds, int};
use sig_base::Steps;
use sig_lists::Sequence;
use sig_patterns::{BuildFault, Env, Expr, Pattern, Var, bind_match, build, matches, pins};
use sig_terms::{Name, ReadTerm, Term};
use std::alloc::{AllocError, Global};
use std::marker::Brand;
use std::sync::ledger::{Blank, Ledger};

pub(crate) fn var(alloc: Global, letter: u8) -> Result<Var, ReadTerm> {
    match Name::new(alloc, &[letter])? {
        Some(name) => Ok(Var(name)),
        None => Err(ReadTerm::BadTerm),
    }
}

/// A list of so many integers.
fn row(alloc: Global, count: u16) -> Result<Expr, AllocError> {
    let mut items = Sequence::new(alloc);
    for number in 0..count {
        items.add(Expr::Int(number as i64))?;
    }
    Ok(Expr::List(items))
}

/// An integer in so many tuples. The innermost of them, as many as are doubled, hold two of what
/// they hold, and the others one.
fn nest(alloc: Global, doubled: u8, depth: u8) -> Result<Expr, AllocError> {
    let mut nested = Expr::Int(0);
    for level in 0..depth {
        let mut items = Sequence::new(alloc);
        if level < doubled {
            items.add(nested.copy(alloc)?)?;
        }
        items.add(nested)?;
        nested = Expr::Tuple(items);
    }
    Ok(nested)
}

/// Whether a term was built, and its nodes and its depth, or those that it would have.
fn extent(built: &Result<Term, BuildFault>) -> Option<(bool, u64, u64)> {
    match built {
        Ok(term) => Some((true, term.size(), term.depth())),
        Err(BuildFault::TooLarge { nodes, depth }) => Some((false, *nodes, *depth)),
        Err(BuildFault::Memory) => None,
    }
}

/// The extent of what a copy of the expression builds.
fn extent_of(alloc: Global, expression: Expr) -> Result<Option<(bool, u64, u64)>, AllocError> {
    let copied = expression.copy(alloc);
    drop(expression);
    let copy = copied?;
    let env = Env::new(alloc);
    let built = build(alloc, &copy, &env);
    drop(env);
    drop(copy);
    let extent = extent(&built);
    drop(built);
    Ok(extent)
}

enum Shape {
    /// A list of so many integers.
    List(u16),
    /// An integer in tuples, so many of which hold two, and how many there are.
    Tuples(u8, u8),
}

/// An expression, whether its value is built, and the nodes and the depth of the value.
struct Size(Shape, bool, u64, u64);

impl Row for Size {
    /// Whether the value is of this size, and is built or not.
    fn holds(&self, alloc: Global) -> Result<bool, AllocError> {
        let expression = match self.0 {
            Shape::List(count) => row(alloc, count)?,
            Shape::Tuples(doubled, depth) => nest(alloc, doubled, depth)?,
        };
        Ok(extent_of(alloc, expression)? == Some((self.1, self.2, self.3)))
    }
}

const SIZES: [Size; 6] = [
    Size(Shape::List(1023), true, 1024, 2),
    Size(Shape::List(1024), false, 1025, 2),
    Size(Shape::Tuples(0, 63), true, 64, 64),
    Size(Shape::Tuples(0, 64), false, 65, 65),
    Size(Shape::Tuples(9, 10), true, 1024, 11),
    Size(Shape::Tuples(9, 11), false, 1025, 12),
];

#[test]
fn values_are_built_up_to_their_limits(rt: HostRuntime) {
    each_row_holds(&rt, rt.alloc(), &SIZES);
}

/// The integer that is the variable's value.
fn value(env: &Env, x: &Var) -> Option<i64> {
    int(env.get(x)?)
}

/// The integer that is the variable's value after a match with the term, where they match. It was 1.
fn matched<L: Ledger>(
    alloc: Global,
    steps: &mut Steps<L>,
    pattern: &Pattern,
    env: &mut Env,
    x: &Var,
    term: &Term,
) -> Result<Option<Option<i64>>, AllocError> {
    env.set(x, Term::Int(1))?;
    if !matches(pattern, env, term, steps) {
        return Ok(None);
    }
    bind_match(alloc, pattern, env, term)?;
    Ok(Some(value(env, x)))
}

/// The same of a new environment and the integer.
fn bound<L: Ledger>(
    alloc: Global,
    blank: Blank,
    pattern: &Pattern,
    x: &Var,
    number: i64,
) -> Result<Option<Option<i64>>, AllocError>
    requires name { blank.name ≡ L.name }
    requires parts { blank.parts ≡ L.parts }
    requires some { 0 < blank.parts }
{
    let mut steps: Steps<L> = Steps::open(blank);
    let mut env = Env::new(alloc);
    let term = Term::Int(number);
    let value = matched(alloc, &mut steps, pattern, &mut env, x, &term);
    drop(term);
    drop(env);
    value
}

/// The variable, pinned or bound.
fn pattern_of(alloc: Global, pin: bool, letter: u8) -> Result<Pattern, ReadTerm> {
    let variable = var(alloc, letter)?;
    Ok(if pin {
        Pattern::Pin(variable)
    } else {
        Pattern::Bind(variable)
    })
}

/// Whether a variable is pinned and which one, the integer that it is matched with, the value of X
/// after a match, and whether the pattern pins X.
struct Match(bool, u8, i64, Option<Option<i64>>, bool);

impl Match {
    /// Whether the match of a copy of the pattern goes so.
    fn goes(&self, alloc: Global, pattern: &Pattern, x: &Var) -> Result<bool, AllocError> {
        let copy = pattern.copy(alloc)?;
        let value = bound::<Brand>(alloc, Blank::new(1), &copy, x, self.2);
        drop(copy);
        Ok(value? == self.3 && pins(pattern, x) == self.4)
    }

    /// Whether the match goes so with the variable X.
    fn goes_with(&self, alloc: Global, x: &Var) -> Result<bool, ReadTerm> {
        let pattern = pattern_of(alloc, self.0, self.1)?;
        let goes = self.goes(alloc, &pattern, x);
        drop(pattern);
        Ok(goes?)
    }
}

impl Row for Match {
    fn holds(&self, alloc: Global) -> Result<bool, AllocError> {
        let Ok(x) = var(alloc, b'X') else {
            return Ok(false);
        };
        let goes = self.goes_with(alloc, &x);
        drop(x);
        Ok(goes == Ok(true))
    }
}

const MATCHES: [Match; 4] = [
    Match(false, b'X', 2, Some(Some(2)), false),
    Match(true, b'X', 2, None, true),
    Match(true, b'X', 1, Some(Some(1)), true),
    Match(true, b'Y', 1, None, false),
];

#[test]
fn a_match_binds(rt: HostRuntime) {
    each_row_holds(&rt, rt.alloc(), &MATCHES);
}
