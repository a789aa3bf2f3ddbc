//! Whether a clause takes a message: its pattern matches, and its guard is true after the match.

ghost use Rattle.std.specs.Prelude.{◌≡◌, ◌+◌, is_some};
ghost use Rattle.std.specs.List.{list_any, list_all};
ghost use Rattle.std.specs.Option.{option_map, unwrap_or};
ghost use Rattle.sig_patterns.specs.Environment.{undefined};
ghost use Rattle.sig_patterns.specs.Guarding.{
  operand_value,
  int_value,
  compares_ints,
  compares_both,
  is_kind,
  test_holds,
  guard_holds,
};
ghost use Rattle.sig_patterns.specs.Fitting.{term_seen, values_in};
ghost use Rattle.sig_patterns.specs.Scanning.{takes};

use crate::clause::Clause;
use crate::env::Env;
use crate::guard::{Guard, Op, Operand, TermKind, Test, Tests};
use crate::matching::{Against, fits};
use crate::places::first_in;
use crate::seen::Seen;
use crate::var::Var;
use sig_base::Steps;
use sig_terms::Term;
use std::sync::ledger::Ledger;

/// The variable's value after the match of the whole pattern: what it meets at its first place, else
/// its entry. `None` where it has neither, and its value is `undefined`.
fn value_met<'a>(whole: Against<'a>, var: &Var) -> Option<Seen<'a>>
    ensures { unwrap_or (option_map term_seen result) undefined ≡ values_in whole.entry var.now.0 }
{
    match first_in(whole.pattern, whole.seen, var) {
        Some(met) => Some(met),
        None => match whole.env.get(var) {
            Some(value) => Some(Seen::Whole(value)),
            None => None,
        },
    }
}

/// The integer that the variable's value is after the match.
fn int_met(whole: Against<'_>, var: &Var) -> Option<i64>
    ensures { result ≡ int_value (values_in whole.entry var.now.0) }
{
    match value_met(whole, var) {
        Some(value) => value.int_value(),
        None => None,
    }
}

/// The integer that the operand's value is after the match.
fn int_of(whole: Against<'_>, operand: &Operand) -> Option<i64>
    ensures { result ≡ int_value (operand_value (values_in whole.entry) operand.now) }
{
    match operand {
        Operand::Int(n) => Some(*n),
        Operand::Var(var) => int_met(whole, var),
    }
}

/// Whether the two compare so.
fn compare_ints(op: Op, left: i64, right: i64) -> bool
    ensures { result ≡ compares_ints op left right }
{
    match op {
        Op::Less => left < right,
        Op::Greater => left > right,
        Op::AtMost => left <= right,
        Op::AtLeast => left >= right,
        Op::Equal => left == right,
        Op::Unequal => left != right,
    }
}

/// Whether both are integers that compare so.
fn compare(op: Op, left: Option<i64>, right: Option<i64>) -> bool
    ensures { result ≡ compares_both op left right }
{
    match (left, right) {
        (Some(left), Some(right)) => compare_ints(op, left, right),
        _ => false,
    }
}

/// Whether the atom `undefined` is of the kind.
fn is_kind_of_undefined(kind: TermKind) -> bool
    ensures { result ≡ is_kind kind undefined }
{
    match kind {
        TermKind::Atom => true,
        TermKind::Integer => false,
        TermKind::Pid => false,
        TermKind::Reference => false,
        TermKind::Tuple => false,
        TermKind::List => false,
    }
}

/// Whether the variable's value is of the kind after the match.
fn is_kind_met(whole: Against<'_>, kind: TermKind, var: &Var) -> bool
    ensures { result ≡ is_kind kind (values_in whole.entry var.now.0) }
{
    match value_met(whole, var) {
        Some(value) => value.is_kind(kind),
        None => is_kind_of_undefined(kind),
    }
}

/// Whether the test holds after the match.
fn test_holds(whole: Against<'_>, test: &Test) -> bool
    ensures { result ≡ test_holds (values_in whole.entry) test.now }
{
    match test {
        Test::Compare { left, op, right } => {
            compare(*op, int_of(whole, left), int_of(whole, right))
        }
        Test::Is { kind, var } => is_kind_met(whole, *kind, var),
    }
}

/// Whether all of the tests hold after the match.
fn all_hold(whole: Against<'_>, tests: &[Test]) -> bool
    ensures { result ≡ list_all (test_holds (values_in whole.entry)) tests.now }
{
    tests.iter().all(|test| test_holds(whole, test))
}

/// Whether all tests of an alternative hold after the match.
fn alternative_holds(whole: Against<'_>, tests: &Tests) -> bool
    ensures { result ≡ list_all (test_holds (values_in whole.entry)) tests.now }
{
    all_hold(whole, tests.as_slice())
}

/// Whether one of the alternatives holds after the match.
fn any_holds(whole: Against<'_>, alternatives: &[Tests]) -> bool
    ensures { result ≡ list_any (list_all (test_holds (values_in whole.entry))) alternatives.now }
{
    alternatives
        .iter()
        .any(|tests| alternative_holds(whole, tests))
}

/// Whether the guard is true after the match.
fn guard_holds(whole: Against<'_>, guard: &Option<Guard>) -> bool
    ensures { result ≡ guard_holds (values_in whole.entry) guard.now }
{
    match guard {
        None => true,
        Some(guard) => any_holds(whole, guard.alternatives.as_slice()),
    }
}

/// Whether the clause takes the term in the environment: its pattern matches, and its guard, if it
/// has one, is true in the environment after the match. Counts one step, and takes no memory: like
/// [`matches`](crate::matches) it looks up each variable's first place in the pattern, once more for
/// each that the guard names. (Erlang Reference Manual, Expressions, Receive and Guard Sequences.)
#[tactic(auto, using(crate::proofs::GuardLemmas::takes_where_fits))]
pub fn accepts<L: Ledger>(clause: &Clause, env: &Env, term: &Term, steps: &mut Steps<L>) -> bool
    ensures taken { result ≡ is_some (takes clause.now env.now term.now) }
    ensures ticks { steps.new ≡ steps.old + 1 }
{
    steps.tick();
    let seen = Seen::Whole(term);
    let whole = Against {
        pattern: &clause.pattern,
        seen,
        env,
    };
    fits(&clause.pattern, seen, whole) && guard_holds(whole, &clause.guard)
}
