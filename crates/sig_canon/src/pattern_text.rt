//! The texts of patterns.

ghost use Rattle.std.specs.Prelude.{◌≡◌, ◌++◌, OnOk, OnErr, map, take, length, codes};
ghost use Rattle.sig_terms.specs.TermText.{joined};
ghost use Rattle.sig_terms.specs.Putting.{IsPut};
ghost use Rattle.sig_canon.specs.ScriptText.{names_of, pattern_text, pattern_written};

use crate::expression_text::put_process;
use crate::putting::{put, put_int};
use sig_patterns::{Pattern, Var};
use sig_program::Proc;
use std::alloc::AllocError;

/// Appends `^` and the variable.
fn put_pinned(into: &mut Vec<u8>, var: &Var) -> Result<(), AllocError>
    ensures { IsPut into.old.items into.new.items (codes "^" ++ var.now.0) result }
{
    put(into, b"^")?;
    put(into, var.0.bytes())
}

/// Appends the texts of the patterns, with a comma between two.
#[cycle(pattern)]
fn put_elements(into: &mut Vec<u8>, procs: &[Proc], items: &[Pattern]) -> Result<(), AllocError>
    ensures text { OnOk result (into.new.items
        ≡ into.old.items ++ joined (map (λ w. w.whole) (map (pattern_written (names_of procs.now)) items.now))) }
    ensures front { OnErr result (take (length into.old.items) into.new.items ≡ into.old.items) }
{
    match items {
        [] => Ok(()),
        [first, rest @ ..] => {
            put_pattern(into, procs, first)?;
            for item in rest {
                put_behind(into, procs, b",", item)?;
            }
            Ok(())
        }
    }
}

/// Appends the texts of the patterns, between two brackets.
#[cycle(pattern)]
fn put_between(
    into: &mut Vec<u8>,
    procs: &[Proc],
    opening: &[u8],
    items: &[Pattern],
    closing: &[u8],
) -> Result<(), AllocError>
    ensures text { OnOk result (into.new.items
        ≡ into.old.items ++ opening.now
        ++ joined (map (λ w. w.whole) (map (pattern_written (names_of procs.now)) items.now)) ++ closing.now) }
    ensures front { OnErr result (take (length into.old.items) into.new.items ≡ into.old.items) }
{
    put(into, opening)?;
    put_elements(into, procs, items)?;
    put(into, closing)
}

/// Appends the sign and the pattern behind it.
#[cycle(pattern)]
fn put_behind(
    into: &mut Vec<u8>,
    procs: &[Proc],
    sign: &[u8],
    pattern: &Pattern,
) -> Result<(), AllocError>
    ensures text { OnOk result (into.new.items ≡ into.old.items ++ sign.now ++ (pattern_written (names_of procs.now) pattern.now).whole) }
    ensures front { OnErr result (take (length into.old.items) into.new.items ≡ into.old.items) }
{
    put(into, sign)?;
    put_pattern(into, procs, pattern)
}

/// Appends what stands behind the patterns of a list with this tail, up to the bracket that closes
/// it: a tail that has a tail itself is no list in a list.
#[cycle(pattern)]
fn put_tail(into: &mut Vec<u8>, procs: &[Proc], tail: &Pattern) -> Result<(), AllocError>
    ensures text { OnOk result (into.new.items ≡ into.old.items ++ (pattern_written (names_of procs.now) tail.now).tail) }
    ensures front { OnErr result (take (length into.old.items) into.new.items ≡ into.old.items) }
{
    match tail {
        Pattern::Cons { head, tail } => {
            put_behind(into, procs, b",", head.get())?;
            put_tail(into, procs, tail.get())
        }
        alone => {
            put_behind(into, procs, b"|", alone)?;
            put(into, b"]")
        }
    }
}

/// Appends the text of the pattern, where these are the processes.
#[cycle(pattern)]
pub fn put_pattern(into: &mut Vec<u8>, procs: &[Proc], pattern: &Pattern) -> Result<(), AllocError>
    ensures text { OnOk result (into.new.items ≡ into.old.items ++ pattern_text (names_of procs.now) pattern.now) }
    ensures front { OnErr result (take (length into.old.items) into.new.items ≡ into.old.items) }
{
    match pattern {
        Pattern::Any => put(into, b"_"),
        Pattern::Bind(var) => put(into, var.0.bytes()),
        Pattern::Pin(var) => put_pinned(into, var),
        Pattern::Int(n) => put_int(into, *n),
        Pattern::Atom(atom) => atom.print(into),
        Pattern::Pid(pid) => put_process(into, procs, *pid),
        Pattern::Tuple(items) => put_between(into, procs, b"{", items.as_slice(), b"}"),
        Pattern::List(items) => put_between(into, procs, b"[", items.as_slice(), b"]"),
        Pattern::Cons { head, tail } => {
            put_behind(into, procs, b"[", head.get())?;
            put_tail(into, procs, tail.get())
        }
    }
}
