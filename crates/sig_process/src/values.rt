ghost use Rattle.std.specs.Prelude.{◌≡◌, Some};
ghost use Rattle.sig_model.specs.Executing.{built, ref_of_var, using_ref};
ghost use Rattle.sig_process.specs.Values.{value_in, pid_in, reference_in, target_in, values_in, IsUsed};
ghost use Rattle.sig_process.specs.declared.values.ValueFault.TheVariants.{Memory};

use crate::progress::Progress;
use sig_model::Target;
use sig_patterns::{BuildFault, Expr, Var, build};
use sig_terms::{Pid, Ref, Term};
use std::alloc::AllocError;
use std::mem::drop;

/// Why an instruction has no use of a value.
#[derive(Clone, Copy)]
pub(crate) enum ValueFault {
    /// It is too large to be built. The process ends with `system_limit`.
    TooLarge,
    /// It is none of those that the instruction needs. The process ends with `badarg`.
    BadArg,
    /// Memory was wanting.
    Memory,
}

impl From<AllocError> for ValueFault {
    ghost from_gives = { λ _ fault. fault ≡ Memory };

    fn from(_error: AllocError) -> ValueFault {
        ValueFault::Memory
    }
}

impl Progress {
    /// The value of the expression.
    pub(crate) fn value_of(&self, expression: &Expr) -> Result<Term, ValueFault>
        ensures { IsUsed (value_in (built self.now.tables.env expression.now)) result }
    {
        match build(self.alloc, expression, &self.tables.env) {
            Ok(value) => Ok(value),
            Err(BuildFault::TooLarge { nodes: _, depth: _ }) => Err(ValueFault::TooLarge),
            Err(BuildFault::Memory) => Err(ValueFault::Memory),
        }
    }

    /// The process that the value names.
    pub(crate) fn pid_of(&self, value: &Term) -> Result<Pid, ValueFault>
        ensures { IsUsed (pid_in (Some value.now)) result }
    {
        match value {
            Term::Pid(pid) => Ok(*pid),
            Term::Int(_) => Err(ValueFault::BadArg),
            Term::Atom(_) => Err(ValueFault::BadArg),
            Term::Ref(_) => Err(ValueFault::BadArg),
            Term::Tuple(_) => Err(ValueFault::BadArg),
            Term::List(_) => Err(ValueFault::BadArg),
        }
    }

    /// The reference that the value is.
    fn ref_of(&self, value: &Term) -> Result<Ref, ValueFault>
        ensures { IsUsed (reference_in (Some value.now)) result }
    {
        match value {
            Term::Ref(reference) => Ok(*reference),
            Term::Int(_) => Err(ValueFault::BadArg),
            Term::Atom(_) => Err(ValueFault::BadArg),
            Term::Pid(_) => Err(ValueFault::BadArg),
            Term::Tuple(_) => Err(ValueFault::BadArg),
            Term::List(_) => Err(ValueFault::BadArg),
        }
    }

    /// The process or the alias that the value names.
    pub(crate) fn address_of(&self, value: &Term) -> Result<Target, ValueFault>
        ensures { IsUsed (target_in (Some value.now)) result }
    {
        match value {
            Term::Pid(pid) => Ok(Target::Process(*pid)),
            Term::Ref(reference) => Ok(Target::Alias(*reference)),
            Term::Int(_) => Err(ValueFault::BadArg),
            Term::Atom(_) => Err(ValueFault::BadArg),
            Term::Tuple(_) => Err(ValueFault::BadArg),
            Term::List(_) => Err(ValueFault::BadArg),
        }
    }

    /// The reference that the value of the expression is.
    pub(crate) fn reference_of(&self, expression: &Expr) -> Result<Ref, ValueFault>
        ensures { IsUsed (reference_in (built self.now.tables.env expression.now)) result }
    {
        match self.value_of(expression) {
            Ok(value) => {
                let reference = self.ref_of(&value);
                drop(value);
                reference
            }
            Err(fault) => Err(fault),
        }
    }

    /// The process that the value of the expression names.
    pub(crate) fn target_of(&self, expression: &Expr) -> Result<Pid, ValueFault>
        ensures { IsUsed (pid_in (built self.now.tables.env expression.now)) result }
    {
        match self.value_of(expression) {
            Ok(value) => {
                let pid = self.pid_of(&value);
                drop(value);
                pid
            }
            Err(fault) => Err(fault),
        }
    }

    /// The reference that the variable's value is. `None` where it is none.
    pub(crate) fn ref_of_var(&self, var: &Var) -> Option<Ref>
        ensures { result ≡ ref_of_var self.now.tables.env var.now }
    {
        match self.tables.env.get(var) {
            Some(Term::Ref(reference)) => Some(*reference),
            _ => None,
        }
    }

    /// The reference of a receive's marker.
    pub(crate) fn using_ref(&self, using: &Option<Var>) -> Option<Ref>
        ensures { result ≡ using_ref self.now.tables.env «using».now }
    {
        match using {
            None => None,
            Some(var) => self.ref_of_var(var),
        }
    }

    /// The values of both expressions.
    pub(crate) fn values_of(&self, first: &Expr, second: &Expr) -> Result<(Term, Term), ValueFault>
        ensures { IsUsed (values_in (built self.now.tables.env first.now) (built self.now.tables.env second.now)) result }
    {
        match self.value_of(first) {
            Ok(first) => match self.value_of(second) {
                Ok(second) => Ok((first, second)),
                Err(fault) => {
                    drop(first);
                    Err(fault)
                }
            },
            Err(fault) => Err(fault),
        }
    }
}
