ghost use Rattle.std.specs.Prelude.{
  ◌≡◌,
  ◌+◌,
  ◌-◌,
  ◌<◌,
  ◌≤◌,
  ◌^◌,
  length,
  slice_get,
  ◌↔◌,
  IsTrue,
  All,
  IfOk,
  IfSome,
  option_copied,
  option_map,
};
ghost use Rattle.sig_program.specs.Parts.{IsInstrAmong};
ghost use Rattle.sig_program.specs.Scripts.{IsWithin, IsInstrWithin};

use crate::instruction::{Instr, Instrs};
use crate::label::Labels;
use sig_kinds::QueueData;
use sig_lists::{Sequence, copy_all};
use sig_terms::Name;
use std::alloc::{AllocError, Global};
use std::marker::Model;

/// A process of a script. It has fewer than 2^32 - 1 instructions and fewer than 2^32 labels, each
/// label's place is one of its instructions or one past the last, each target is one of its labels,
/// and each clause of a receive with a marker pins the marker's variable.
#[derive(Drop)]
pub struct Proc {
    /// The process's name.
    pub name: Name,
    /// Where it keeps its messages.
    pub queue_data: QueueData,
    /// Its labels.
    pub labels: Labels,
    /// What it does.
    pub instrs: Instrs,
}

impl Model for Proc {
    ghost use Rattle.std.specs.Coded.{codes};
    ghost use Rattle.sig_patterns.specs.contracts.expression.Expr as expr;
    ghost use Rattle.sig_patterns.specs.contracts.pattern.Pattern as pattern;
    ghost use Rattle.sig_program.specs.Scripts.{Declared, IsWithin};

    ghost Value = { Declared };

    ghost coded = { Prim.hlevel (codes, expr.the_row.coded, pattern.the_row.coded) };

    ghost view = { λ p. record { name = p.name; queue_data = p.queue_data; labels = p.labels; instrs = p.instrs } };

    ghost invariant = { λ p. IsWithin (record { name = p.name; queue_data = p.queue_data; labels = p.labels; instrs = p.instrs }) };
}

/// The processes of a script, in the order of their lines.
pub type Procs = Sequence<Proc>;

impl Proc {
    /// How many instructions there are.
    pub fn count(&self) -> u32
        ensures count { result ≡ length self.now.instrs }
        ensures within { IsWithin self.now }
    {
        self.instrs.len() as u32
    }

    /// The instruction at this place, from 1. `None` exactly where the place is past the last.
    ///
    /// Asks that the place isn't 0.
    pub fn instr(&self, place: u32) -> Option<&Instr>
        requires { 1 ≤ place }
        ensures value { option_copied result ≡ slice_get self.now.instrs (place - 1) }
        ensures lawful { IfSome (option_copied result) (λ i. IsInstrWithin (length self.now.labels) i) }
        ensures few { length self.now.instrs + 1 < 2 ^ 32 }
    {
        self.instrs.get((place - 1) as usize)
    }

    /// The place of a label, from 1. `None` exactly where there is no such label.
    pub fn place_of(&self, label: u32) -> Option<u32>
        ensures value { result ≡ option_map (λ l. l.place) (slice_get self.now.labels label) }
        ensures within { IfSome result (λ place. (1 ≤ place) × (place ≤ length self.now.instrs + 1)) }
        ensures few { length self.now.instrs + 1 < 2 ^ 32 }
    {
        let label = self.labels.get(label as usize)?;
        Some(label.place)
    }

    /// An equal process. The error is want of memory.
    pub fn copy(&self, alloc: Global) -> Result<Proc, AllocError>
        ensures { IfOk result (λ p. p ≡ self.now) }
    {
        let name = self.name.copy(alloc)?;
        let labels = copy_all(alloc, &self.labels)?;
        let instrs = copy_all(alloc, &self.instrs)?;
        Ok(Proc {
            name,
            queue_data: self.queue_data,
            labels,
            instrs,
        })
    }

    /// Whether each process that stands in an expression of its instructions is known: `known` is true at its
    /// place.
    pub fn names_only(&self, known: &[bool]) -> bool
        ensures { IsTrue result ↔ All (IsInstrAmong known.now) self.now.instrs }
    {
        for instr in self.instrs.as_slice() {
            if !instr.names_only(known) {
                return false;
            }
        }
        true
    }
}
