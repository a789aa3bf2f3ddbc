ghost use Rattle.std.specs.Prelude.{◌≡◌, IfOk, OnOk, IfErr, true, map};
ghost use Rattle.sig_patterns.specs.Environment.{undefined, value_of_var};
ghost use Rattle.sig_patterns.specs.Building.{value_of, is_small, IsFaultOf};

use crate::env::Env;
use crate::expression::Expr;
use crate::measure::{Extent, measure};
use crate::var::Var;
use sig_lists::Sequence;
use sig_terms::{Term, Terms};
use std::alloc::{AllocError, Global};

/// The most nodes that a built term has.
pub const MOST_NODES: u64 = 1024;

/// The greatest depth that a built term has.
pub const MOST_DEPTH: u64 = 64;

/// Why a value was not built.
#[derive(Clone, Copy, PartialEq, Eq)]
pub enum BuildFault {
    /// The value has more than [`MOST_NODES`] nodes, or its depth is past [`MOST_DEPTH`]. It
    /// comes before any memory is taken. A number past the greatest `u64` is given as the greatest.
    TooLarge {
        /// How many nodes the value has.
        nodes: u64,
        /// How deep it is.
        depth: u64,
    },
    /// Memory was wanting.
    Memory,
}

/// The atom `undefined`.
fn undefined(alloc: Global) -> Result<Term, AllocError>
    ensures { IfOk result (λ t. t ≡ undefined) }
{
    Term::plain_atom(alloc, b"undefined")
}

/// A copy of the variable's value.
fn copy_value(alloc: Global, var: &Var, env: &Env) -> Result<Term, AllocError>
    ensures { IfOk result (λ t. t ≡ value_of_var env.now var.now.0) }
{
    match env.get(var) {
        Some(value) => value.copy(alloc),
        None => undefined(alloc),
    }
}

/// The values of the expressions, in their order.
#[cycle(make)]
fn make_all(alloc: Global, items: &[Expr], env: &Env) -> Result<Terms, AllocError>
    ensures { IfOk result (λ ts. ts ≡ map (value_of env.now) items.now) }
{
    let mut values = Vec::with_capacity(alloc, items.len())?;
    for item in items {
        let value = make(alloc, item, env)?;
        values.push(value)?;
    }
    Ok(Sequence::from_vec(values))
}

/// The value of the expression.
#[cycle(make)]
fn make(alloc: Global, expression: &Expr, env: &Env) -> Result<Term, AllocError>
    ensures { IfOk result (λ t. t ≡ value_of env.now expression.now) }
{
    match expression {
        Expr::Int(n) => Ok(Term::Int(*n)),
        Expr::Atom(atom) => atom.copy(alloc).map(Term::Atom),
        Expr::Pid(pid) => Ok(Term::Pid(*pid)),
        Expr::Var(var) => copy_value(alloc, var, env),
        Expr::Tuple(items) => make_all(alloc, items.as_slice(), env).map(Term::Tuple),
        Expr::List(items) => make_all(alloc, items.as_slice(), env).map(Term::List),
    }
}

/// The value of the expression. It is measured first, so that nothing too large is begun: the
/// measure takes the time of the expression's nodes and of the values of its variables.
/// (Erlang Reference Manual, Expressions, Terms and Variables.)
///
/// - [`BuildFault::TooLarge`]: the value has more than [`MOST_NODES`] nodes or a depth past [`MOST_DEPTH`].
/// - [`BuildFault::Memory`]: it has not, and memory was refused.
pub fn build(alloc: Global, expression: &Expr, env: &Env) -> Result<Term, BuildFault>
    ensures value { IfOk result (λ t. t ≡ value_of env.now expression.now) }
    ensures small { OnOk result (is_small (value_of env.now expression.now) ≡ true) }
    ensures fault { IfErr result (IsFaultOf (value_of env.now expression.now)) }
{
    let Extent { nodes, depth } = measure(expression, env);
    if nodes > MOST_NODES || depth > MOST_DEPTH {
        return Err(BuildFault::TooLarge { nodes, depth });
    }
    match make(alloc, expression, env) {
        Ok(term) => Ok(term),
        Err(AllocError) => Err(BuildFault::Memory),
    }
}
