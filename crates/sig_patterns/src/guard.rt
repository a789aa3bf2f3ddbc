ghost use Rattle.std.specs.Prelude.{◌≡◌, IfOk};
ghost use Rattle.sig_patterns.specs.declared.guard.Test.TheVariants as test;

use crate::var::Var;
use sig_lists::{Copied, Sequence, copy_all};
use std::alloc::{AllocError, Global};

/// A kind of terms that a guard can ask for. (Erlang Reference Manual, Expressions, Guard Sequences,
/// where the test of each kind is the guard BIF `is_` with its name.)
#[derive(Clone, Copy, PartialEq, Eq)]
pub enum TermKind {
    /// An integer.
    Integer,
    /// An atom.
    Atom,
    /// A process.
    Pid,
    /// A reference.
    Reference,
    /// A tuple.
    Tuple,
    /// A list.
    List,
}

/// How two integers compare. (Erlang Reference Manual, Expressions, Term Comparisons.)
#[derive(Clone, Copy, PartialEq, Eq)]
pub enum Op {
    /// `<`
    Less,
    /// `>`
    Greater,
    /// `=<`
    AtMost,
    /// `>=`
    AtLeast,
    /// `==`
    Equal,
    /// `/=`
    Unequal,
}

/// What a test compares.
#[derive(Drop)]
pub enum Operand {
    /// The integer.
    Int(i64),
    /// The value of the variable.
    Var(Var),
}

/// A test of a guard. (Erlang Reference Manual, Expressions, Guard Sequences, Guard Expressions.)
#[derive(Drop)]
pub enum Test {
    /// Whether the values of both are integers that compare so.
    Compare {
        /// What stands before the sign.
        left: Operand,
        /// The sign.
        op: Op,
        /// What stands behind it.
        right: Operand,
    },
    /// Whether the value of the variable is of the kind.
    Is {
        /// The kind.
        kind: TermKind,
        /// The variable.
        var: Var,
    },
}

/// Tests with `and` between them: all of them must hold.
pub type Tests = Sequence<Test>;

/// Lists of tests with `or` between them: all tests of one list must hold.
pub type Alternatives = Sequence<Tests>;

/// What a clause asks of the values after its match. (Erlang Reference Manual, Expressions, Guard
/// Sequences.)
#[derive(Drop)]
pub struct Guard {
    /// The alternatives, one of which must hold.
    pub alternatives: Alternatives,
}

impl Operand {
    /// An equal operand. The error is want of memory.
    pub fn copy(&self, alloc: Global) -> Result<Operand, AllocError>
        ensures { IfOk result (λ o. o ≡ self.now) }
    {
        match self {
            Operand::Int(n) => Ok(Operand::Int(*n)),
            Operand::Var(var) => var.copy(alloc).map(Operand::Var),
        }
    }
}

/// An equal comparison.
fn copy_compare(alloc: Global, left: &Operand, op: Op, right: &Operand) -> Result<Test, AllocError>
    ensures { IfOk result (λ t. t ≡ test.Compare left.now op right.now) }
{
    let left = left.copy(alloc)?;
    let right = right.copy(alloc)?;
    Ok(Test::Compare { left, op, right })
}

/// An equal test of a kind.
fn copy_is(alloc: Global, kind: TermKind, var: &Var) -> Result<Test, AllocError>
    ensures { IfOk result (λ t. t ≡ test.Is kind var.now) }
{
    let var = var.copy(alloc)?;
    Ok(Test::Is { kind, var })
}

impl Test {
    /// An equal test. The error is want of memory.
    pub fn copy(&self, alloc: Global) -> Result<Test, AllocError>
        ensures { IfOk result (λ t. t ≡ self.now) }
    {
        match self {
            Test::Compare { left, op, right } => copy_compare(alloc, left, *op, right),
            Test::Is { kind, var } => copy_is(alloc, *kind, var),
        }
    }
}

impl Copied for Test {
    fn copied(&self, alloc: Global) -> Result<Test, AllocError> {
        self.copy(alloc)
    }
}

impl Guard {
    /// An equal guard. The error is want of memory.
    pub fn copy(&self, alloc: Global) -> Result<Guard, AllocError>
        ensures { IfOk result (λ g. g ≡ self.now) }
    {
        let alternatives = copy_all(alloc, &self.alternatives)?;
        Ok(Guard { alternatives })
    }
}
