//! How large the value of an expression is, before it is built.

ghost use Rattle.std.specs.Prelude.{◌≡◌, ◌+◌, ◌-◌, ◌^◌, map, sum, min};
ghost use Rattle.sig_terms.specs.Nodes.{node_count, depth_of, greatest};
ghost use Rattle.sig_patterns.specs.Environment.{value_of_var};
ghost use Rattle.sig_patterns.specs.Building.{value_of};

use crate::env::Env;
use crate::expression::Expr;
use crate::var::Var;

/// How many nodes some terms have together, and how deep the deepest one is. A number past the
/// greatest `u64` is the greatest.
#[derive(Clone, Copy)]
pub(crate) struct Extent {
    pub(crate) nodes: u64,
    pub(crate) depth: u64,
}

/// That of a term without elements.
const LEAF: Extent = Extent { nodes: 1, depth: 1 };

/// That of one node round the terms.
fn around(terms: Extent) -> Extent
    ensures nodes { result.nodes ≡ min (1 + terms.nodes) (2 ^ 64 - 1) }
    ensures depth { result.depth ≡ min (1 + terms.depth) (2 ^ 64 - 1) }
{
    Extent {
        nodes: terms.nodes.saturating_add(1),
        depth: terms.depth.saturating_add(1),
    }
}

/// That of the variable's value.
fn measure_variable(var: &Var, env: &Env) -> Extent
    ensures nodes { result.nodes ≡ min (node_count (value_of_var env.now var.now.0)) (2 ^ 64 - 1) }
    ensures depth { result.depth ≡ min (depth_of (value_of_var env.now var.now.0)) (2 ^ 64 - 1) }
{
    match env.get(var) {
        Some(value) => Extent {
            nodes: value.size(),
            depth: value.depth(),
        },
        None => LEAF,
    }
}

/// That of the expressions' values.
#[cycle(measure)]
fn measure_all(items: &[Expr], env: &Env) -> Extent
    ensures nodes { result.nodes ≡ min (sum (map node_count (map (value_of env.now) items.now))) (2 ^ 64 - 1) }
    ensures depth { result.depth ≡ min (greatest (map depth_of (map (value_of env.now) items.now))) (2 ^ 64 - 1) }
{
    let mut nodes = 0u64;
    let mut depth = 0u64;
    for item in items {
        let one = measure(item, env);
        nodes = nodes.saturating_add(one.nodes);
        depth = depth.max(one.depth);
    }
    Extent { nodes, depth }
}

/// That of the expression's value.
#[cycle(measure)]
pub(crate) fn measure(expression: &Expr, env: &Env) -> Extent
    ensures nodes { result.nodes ≡ min (node_count (value_of env.now expression.now)) (2 ^ 64 - 1) }
    ensures depth { result.depth ≡ min (depth_of (value_of env.now expression.now)) (2 ^ 64 - 1) }
{
    match expression {
        Expr::Var(var) => measure_variable(var, env),
        Expr::Tuple(items) => around(measure_all(items.as_slice(), env)),
        Expr::List(items) => around(measure_all(items.as_slice(), env)),
        Expr::Int(_) => LEAF,
        Expr::Atom(_) => LEAF,
        Expr::Pid(_) => LEAF,
    }
}
