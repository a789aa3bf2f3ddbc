ghost use Rattle.std.specs.Prelude.{◌≡◌, ◌<◌, ◌++◌, [], ◌∷◌, length, position, true, false, None, IfOk, IfSome};
ghost use Rattle.std.specs.List.{list_any};
ghost use Rattle.std.specs.Str.{bytes_eq};
ghost use Rattle.sig_program.specs.Scripts.{Declared};

use crate::drafted::DraftProc;
use sig_lists::Sequence;
use std::alloc::{AllocError, Global};
use std::collections::BTreeMap;
use std::marker::Model;
use std::mem::{drop, replace};

/// Processes as they were read. A name is looked up in time in the logarithm of their count.
/// Contracts see the processes alone.
#[derive(Drop)]
pub struct ProcTable {
    /// Where the copies of names get their memory.
    alloc: Global,
    /// The processes, in the order of their lines.
    procs: Sequence<DraftProc>,
    /// The place of the first process of each name, from 0, under the name.
    places: BTreeMap<Vec<u8>, usize>,
}

impl Model for ProcTable {
    ghost use Rattle.std.specs.Prelude.{List};
    ghost use Rattle.std.specs.Coded.{codes};
    ghost use Rattle.sig_patterns.specs.contracts.expression.Expr as expr;
    ghost use Rattle.sig_patterns.specs.contracts.pattern.Pattern as pattern;
    ghost use Rattle.sig_program.specs.Scripts.{Declared};
    ghost use Rattle.sig_tokens.specs.NamePlaces.{IsIndexed};

    ghost Value = { List Declared };

    ghost coded = { Prim.hlevel (codes, expr.the_row.coded, pattern.the_row.coded) };

    ghost view = { λ t. t.procs };

    ghost invariant = { λ t. IsIndexed (λ (p : Declared). p.name) t.procs t.places.entries };
}

impl ProcTable {
    /// No processes. It takes no memory.
    pub fn new(alloc: Global) -> ProcTable
        ensures { result ≡ [] }
    {
        ProcTable {
            alloc,
            procs: Sequence::new(alloc),
            places: BTreeMap::new(alloc),
        }
    }

    /// The place of the first process of this name, from 0. `None` exactly where no process has it.
    pub fn place_of(&self, name: &[u8]) -> Option<usize>
        ensures place { result ≡ position (λ (p : Declared). bytes_eq p.name name.now) self.now }
        ensures within { IfSome result (λ n. n < length self.now) }
    {
        self.places.get(name).copied()
    }

    /// Whether a process has the name.
    #[tactic(auto, using(crate::proofs::PlaceLemmas::any_place))]
    pub fn has(&self, name: &[u8]) -> bool
        ensures any { result ≡ list_any (λ (p : Declared). bytes_eq p.name name.now) self.now }
        ensures none { result ≡ false → position (λ (p : Declared). bytes_eq p.name name.now) self.now ≡ None }
    {
        self.place_of(name).is_some()
    }

    /// The processes, with a further one at the end. Its name is a new one.
    fn with_new(self, proc: DraftProc) -> Result<ProcTable, AllocError>
        requires { position (λ (p : Declared). bytes_eq p.name proc.name) self ≡ None }
        ensures { IfOk result (λ t. t ≡ self ++ proc ∷ []) }
    {
        let ProcTable {
            alloc,
            mut procs,
            mut places,
        } = self;
        let key = Vec::from_slice(alloc, proc.name.bytes())?;
        places.insert(key, procs.len())?;
        procs.add(proc)?;
        Ok(ProcTable {
            alloc,
            procs,
            places,
        })
    }

    /// The processes, with a further one at the end. Its name keeps the place that it has.
    fn with_known(self, proc: DraftProc) -> Result<ProcTable, AllocError>
        requires { list_any (λ (p : Declared). bytes_eq p.name proc.name) self ≡ true }
        ensures { IfOk result (λ t. t ≡ self ++ proc ∷ []) }
    {
        let ProcTable {
            alloc,
            mut procs,
            places,
        } = self;
        procs.add(proc)?;
        Ok(ProcTable {
            alloc,
            procs,
            places,
        })
    }

    /// The processes, with a further one at the end.
    fn with(self, proc: DraftProc) -> Result<ProcTable, AllocError>
        ensures { IfOk result (λ t. t ≡ self ++ proc ∷ []) }
    {
        if self.has(proc.name.bytes()) {
            self.with_known(proc)
        } else {
            self.with_new(proc)
        }
    }

    /// Adds a process at the end. Without memory for it the processes are of no use.
    pub fn add(&mut self, proc: DraftProc) -> Result<(), AllocError>
        ensures { IfOk result (λ u. self.new ≡ self.old ++ proc ∷ []) }
    {
        let alloc = self.alloc;
        let procs = replace(self, ProcTable::new(alloc)).with(proc)?;
        drop(replace(self, procs));
        Ok(())
    }

    /// The processes, in the order of their lines.
    pub fn as_slice(&self) -> &[DraftProc]
        ensures { result.now ≡ self.now }
    {
        self.procs.as_slice()
    }

    /// The processes alone.
    pub fn into_vec(self) -> Vec<DraftProc>
        ensures { result.items ≡ self }
    {
        self.procs.into_vec()
    }
}
