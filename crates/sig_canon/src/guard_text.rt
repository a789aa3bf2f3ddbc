//! The texts of guards.

ghost use Rattle.std.specs.Prelude.{◌≡◌, ◌++◌, [], ◌∷◌, codes, map};
ghost use Rattle.std.specs.List.{concat, flat_map};
ghost use Rattle.sig_terms.specs.Putting.{IsPut};
ghost use Rattle.sig_patterns.specs.declared.guard.Test.TheVariants as test;
ghost use Rattle.sig_reader.specs.Guards.{kind_word};
ghost use Rattle.sig_canon.specs.ScriptText.{after_blank, side_text, op_text, test_text, guard_text};
ghost use Rattle.sig_canon.specs.Printing.{test_behind, tests_behind, alternatives_behind};

use crate::putting::{put, put_int, put_word};
use sig_patterns::{Guard, Op, Operand, TermKind, Test, Tests, Var};
use std::alloc::AllocError;

/// Appends a side of a comparison.
fn put_bare_side(into: &mut Vec<u8>, side: &Operand) -> Result<(), AllocError>
    ensures { IsPut into.old.items into.new.items (side_text side.now) result }
{
    match side {
        Operand::Int(n) => put_int(into, *n),
        Operand::Var(var) => put(into, var.0.bytes()),
    }
}

/// Appends a blank and a side of a comparison.
fn put_side(into: &mut Vec<u8>, side: &Operand) -> Result<(), AllocError>
    ensures { IsPut into.old.items into.new.items (after_blank (side_text side.now)) result }
{
    put(into, b" ")?;
    put_bare_side(into, side)
}

/// Appends a blank and a comparison sign.
fn put_op(into: &mut Vec<u8>, op: Op) -> Result<(), AllocError>
    ensures { IsPut into.old.items into.new.items (after_blank (op_text op)) result }
{
    match op {
        Op::Less => put(into, b" <"),
        Op::Greater => put(into, b" >"),
        Op::AtMost => put(into, b" =<"),
        Op::AtLeast => put(into, b" >="),
        Op::Equal => put(into, b" =="),
        Op::Unequal => put(into, b" /="),
    }
}

fn put_compare(
    into: &mut Vec<u8>,
    left: &Operand,
    op: Op,
    right: &Operand,
) -> Result<(), AllocError>
    ensures { IsPut into.old.items into.new.items (concat (map after_blank (test_text (test.Compare left.now op right.now) []))) result }
{
    put_side(into, left)?;
    put_op(into, op)?;
    put_side(into, right)
}

/// Appends a blank and the word of the test for a kind of terms.
fn put_kind(into: &mut Vec<u8>, kind: TermKind) -> Result<(), AllocError>
    ensures { IsPut into.old.items into.new.items (after_blank (kind_word kind)) result }
{
    match kind {
        TermKind::Integer => put(into, b" is_integer"),
        TermKind::Atom => put(into, b" is_atom"),
        TermKind::Pid => put(into, b" is_pid"),
        TermKind::Reference => put(into, b" is_reference"),
        TermKind::Tuple => put(into, b" is_tuple"),
        TermKind::List => put(into, b" is_list"),
    }
}

/// Appends the variable between parentheses.
fn put_enclosed(into: &mut Vec<u8>, var: &Var) -> Result<(), AllocError>
    ensures { IsPut into.old.items into.new.items (codes "(" ++ var.now.0 ++ codes ")") result }
{
    put(into, b"(")?;
    put(into, var.0.bytes())?;
    put(into, b")")
}

fn put_is(into: &mut Vec<u8>, kind: TermKind, var: &Var) -> Result<(), AllocError>
    ensures { IsPut into.old.items into.new.items (concat (map after_blank (test_text (test.Is kind var.now) []))) result }
{
    put_kind(into, kind)?;
    put_enclosed(into, var)
}

/// Appends a blank and the test.
fn put_test(into: &mut Vec<u8>, test: &Test) -> Result<(), AllocError>
    ensures { IsPut into.old.items into.new.items (concat (map after_blank (test_text test.now []))) result }
{
    match test {
        Test::Compare { left, op, right } => put_compare(into, left, *op, right),
        Test::Is { kind, var } => put_is(into, *kind, var),
    }
}

/// Appends a blank, the word, and the test behind it.
fn put_joined(into: &mut Vec<u8>, word: &[u8], test: &Test) -> Result<(), AllocError>
    ensures { IsPut into.old.items into.new.items (test_behind word.now test.now) result }
{
    put_word(into, word)?;
    put_test(into, test)
}

/// Appends the tests, each behind `and`.
fn put_more_tests(into: &mut Vec<u8>, tests: &[Test]) -> Result<(), AllocError>
    ensures { IsPut into.old.items into.new.items (flat_map (test_behind (codes "and")) tests.now) result }
{
    for test in tests {
        put_joined(into, b"and", test)?;
    }
    Ok(())
}

/// Appends the tests of an alternative, the first behind the word and each other behind `and`.
fn put_tests(into: &mut Vec<u8>, word: &[u8], tests: &[Test]) -> Result<(), AllocError>
    ensures { IsPut into.old.items into.new.items (tests_behind word.now tests.now) result }
{
    match tests {
        [] => Ok(()),
        [first, others @ ..] => {
            put_joined(into, word, first)?;
            put_more_tests(into, others)
        }
    }
}

/// Appends the alternatives, each behind `or`.
fn put_more_alternatives(into: &mut Vec<u8>, alternatives: &[Tests]) -> Result<(), AllocError>
    ensures { IsPut into.old.items into.new.items (flat_map (tests_behind (codes "or")) alternatives.now) result }
{
    for tests in alternatives {
        put_tests(into, b"or", tests.as_slice())?;
    }
    Ok(())
}

/// Appends the alternatives, the first behind the word and each other behind `or`.
fn put_alternatives(
    into: &mut Vec<u8>,
    word: &[u8],
    alternatives: &[Tests],
) -> Result<(), AllocError>
    ensures { IsPut into.old.items into.new.items (alternatives_behind word.now alternatives.now) result }
{
    match alternatives {
        [] => Ok(()),
        [first, others @ ..] => {
            put_tests(into, word, first.as_slice())?;
            put_more_alternatives(into, others)
        }
    }
}

/// Appends the guard behind a blank and `when`, where there is one.
pub fn put_guard(into: &mut Vec<u8>, guard: &Option<Guard>) -> Result<(), AllocError>
    ensures { IsPut into.old.items into.new.items (concat (map after_blank (guard_text guard.now []))) result }
{
    match guard {
        None => Ok(()),
        Some(guard) => put_alternatives(into, b"when", guard.alternatives.as_slice()),
    }
}
