ghost use Rattle.std.specs.Prelude.{◌≡◌, IfOk};

use crate::var::Var;
use sig_lists::Sequence;
use sig_terms::{Atom, Pid};
use std::alloc::{AllocError, Global};

/// A list of expressions.
pub type Exprs = Sequence<Expr>;

/// What builds a term. (Erlang Reference Manual, Expressions, Terms and Variables.)
#[derive(Drop)]
pub enum Expr {
    /// The integer.
    Int(i64),
    /// The atom.
    Atom(Atom),
    /// The process.
    Pid(Pid),
    /// The value of the variable.
    Var(Var),
    /// A tuple of the values of these expressions.
    Tuple(Exprs),
    /// A proper list of the values of these expressions.
    List(Exprs),
}

/// Copies of the expressions, in their order.
#[cycle(copy)]
fn copy_all(alloc: Global, items: &[Expr]) -> Result<Exprs, AllocError>
    ensures { IfOk result (λ es. es ≡ items.now) }
{
    let mut copies = Sequence::new(alloc);
    for item in items {
        let copy = item.copy(alloc)?;
        copies.add(copy)?;
    }
    Ok(copies)
}

impl Expr {
    /// An equal expression. The error is want of memory.
    #[cycle(copy)]
    pub fn copy(&self, alloc: Global) -> Result<Expr, AllocError>
        ensures { IfOk result (λ e. e ≡ self.now) }
    {
        match self {
            Expr::Int(n) => Ok(Expr::Int(*n)),
            Expr::Atom(atom) => atom.copy(alloc).map(Expr::Atom),
            Expr::Pid(pid) => Ok(Expr::Pid(*pid)),
            Expr::Var(var) => var.copy(alloc).map(Expr::Var),
            Expr::Tuple(items) => copy_all(alloc, items.as_slice()).map(Expr::Tuple),
            Expr::List(items) => copy_all(alloc, items.as_slice()).map(Expr::List),
        }
    }
}
