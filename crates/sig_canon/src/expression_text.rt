//! The texts of expressions.

ghost use Rattle.std.specs.Prelude.{◌≡◌, ◌++◌, OnOk, OnErr, map, take, length};
ghost use Rattle.sig_terms.specs.TermText.{joined};
ghost use Rattle.sig_terms.specs.Putting.{IsPut};
ghost use Rattle.sig_canon.specs.ScriptText.{name_of_place, names_of, process_text, expr_text};

use crate::putting::{put, put_int};
use sig_patterns::Expr;
use sig_program::Proc;
use sig_terms::Pid;
use std::alloc::AllocError;

/// The name of the process, in constant time. No bytes where there is none.
fn name_of<'p>(procs: &'p [Proc], pid: Pid) -> &'p [u8]
    ensures { result.now ≡ name_of_place (names_of procs.now) pid.0 }
{
    match procs.get(pid.0 as usize) {
        Some(proc) => proc.name.bytes(),
        None => &[],
    }
}

/// Appends `@` and the name of the process, in constant time but for the name's bytes.
pub fn put_process(into: &mut Vec<u8>, procs: &[Proc], pid: Pid) -> Result<(), AllocError>
    ensures { IsPut into.old.items into.new.items (process_text (names_of procs.now) pid.0) result }
{
    put(into, b"@")?;
    put(into, name_of(procs, pid))
}

/// Appends the texts of the expressions, with a comma between two.
#[cycle(expression)]
fn put_elements(into: &mut Vec<u8>, procs: &[Proc], items: &[Expr]) -> Result<(), AllocError>
    ensures text { OnOk result (into.new.items ≡ into.old.items ++ joined (map (expr_text (names_of procs.now)) items.now)) }
    ensures front { OnErr result (take (length into.old.items) into.new.items ≡ into.old.items) }
{
    match items {
        [] => Ok(()),
        [first, rest @ ..] => {
            put_expr(into, procs, first)?;
            for item in rest {
                put(into, b",")?;
                put_expr(into, procs, item)?;
            }
            Ok(())
        }
    }
}

/// Appends the texts of the expressions, between two brackets.
#[cycle(expression)]
fn put_between(
    into: &mut Vec<u8>,
    procs: &[Proc],
    opening: &[u8],
    items: &[Expr],
    closing: &[u8],
) -> Result<(), AllocError>
    ensures text { OnOk result (into.new.items
        ≡ into.old.items ++ opening.now ++ joined (map (expr_text (names_of procs.now)) items.now) ++ closing.now) }
    ensures front { OnErr result (take (length into.old.items) into.new.items ≡ into.old.items) }
{
    put(into, opening)?;
    put_elements(into, procs, items)?;
    put(into, closing)
}

/// Appends the text of the expression, where these are the processes.
#[cycle(expression)]
pub fn put_expr(into: &mut Vec<u8>, procs: &[Proc], expr: &Expr) -> Result<(), AllocError>
    ensures text { OnOk result (into.new.items ≡ into.old.items ++ expr_text (names_of procs.now) expr.now) }
    ensures front { OnErr result (take (length into.old.items) into.new.items ≡ into.old.items) }
{
    match expr {
        Expr::Int(n) => put_int(into, *n),
        Expr::Atom(atom) => atom.print(into),
        Expr::Pid(pid) => put_process(into, procs, *pid),
        Expr::Var(var) => put(into, var.0.bytes()),
        Expr::Tuple(items) => put_between(into, procs, b"{", items.as_slice(), b"}"),
        Expr::List(items) => put_between(into, procs, b"[", items.as_slice(), b"]"),
    }
}
