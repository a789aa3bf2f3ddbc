//! Whether the processes that an expression names are known.

ghost use Rattle.std.specs.Prelude.{◌↔◌, IsTrue, All};
ghost use Rattle.sig_patterns.specs.Pids.{IsExprAmong};

use crate::expression::Expr;

/// Whether the expressions name known processes alone.
#[cycle(names_only)]
fn all_name_only(items: &[Expr], known: &[bool]) -> bool
    ensures { IsTrue result ↔ All (IsExprAmong known.now) items.now }
{
    for item in items {
        if !item.names_only(known) {
            return false;
        }
    }
    true
}

impl Expr {
    /// Whether each process that stands in the expression is known: `known` is true at its place.
    #[cycle(names_only)]
    pub fn names_only(&self, known: &[bool]) -> bool
        ensures { IsTrue result ↔ IsExprAmong known.now self.now }
    {
        match self {
            Expr::Int(_) | Expr::Atom(_) | Expr::Var(_) => true,
            Expr::Pid(pid) => pid.is_among(known),
            Expr::Tuple(items) | Expr::List(items) => all_name_only(items.as_slice(), known),
        }
    }
}
