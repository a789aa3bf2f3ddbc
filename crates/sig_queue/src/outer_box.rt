ghost use Rattle.std.specs.Prelude.{◌≡◌, ◌≤◌, ◌+◌, ◌++◌, ◌∷◌, [], length, IfOk, IfErr, OnOk, OnErr};
ghost use Rattle.sig_layout.specs.Summaries.{due_at, is_install};
ghost use Rattle.sig_layout.specs.Outers.{added, emptied, removed};
ghost use Rattle.sig_layout.specs.declared.entry.Entry.TheVariants.{Direct, Remove};

use sig_kinds::{Signal, Signals};
use sig_layout::{Due, Entry, Growing, Journal, Outer, Pieces, Policy};
use sig_lists::Pushed;
use std::alloc::{AllocError, Global};
use std::marker::Model;
use std::mem;

/// The outer value, boxed so that a slot is small. Contracts see the value.
#[derive(Drop)]
pub struct OuterBox {
    value: Box<Outer>,
}

impl Model for OuterBox {
    ghost use Rattle.std.specs.Coded.{codes};
    ghost use Rattle.sig_terms.specs.contracts.term.Term as term;
    ghost use Rattle.sig_layout.specs.declared.outer.Outer.{Outer};

    ghost Value = { Outer };

    ghost coded = { Prim.hlevel (codes, term.the_row.coded) };

    ghost view = { λ b. b.value.value };
}

// The signals with room for so many batches more, once the entry of a removal is added.
fn grown(signals: Pieces, more: usize, journal: &mut Journal) -> Result<Growing, Pieces>
    ensures ok { IfOk result (λ g. (g.list ≡ signals) × (more ≤ g.spare)) }
    ensures added { OnOk result (journal.new ≡ journal.old ++ Remove ∷ []) }
    ensures err { IfErr result (λ p. (p ≡ signals) × (journal.new ≡ journal.old)) }
{
    let growing = signals.grow(more)?;
    match journal.push(Entry::Remove) {
        Pushed::Added => Ok(growing),
        Pushed::Memory { item: _ } => Err(growing.into_pieces()),
    }
}

impl OuterBox {
    pub(crate) fn new(alloc: Global, outer: Outer) -> Result<OuterBox, AllocError>
        ensures { IfOk result (λ b. b ≡ outer) }
    {
        let value = Box::new(alloc, outer)?;
        Ok(OuterBox { value })
    }

    pub(crate) fn into_outer(self) -> Outer
        ensures { result ≡ self }
    {
        Box::into_inner(self.value)
    }

    // The signals come out, with room for so many batches more, and the entry of a removal is
    // added. Where memory is wanting, all is as before.
    pub(crate) fn grow(&mut self, alloc: Global, more: usize) -> Result<Growing, AllocError>
        ensures signals { IfOk result (λ g. (g.list ≡ self.old.signals) × (more ≤ g.spare)) }
        ensures journal { OnOk result (self.new.journal ≡ (removed self.old).journal) }
        ensures err { OnErr result (self.new ≡ self.old) }
    {
        let signals = mem::replace(&mut self.value.signals, Pieces::new(alloc));
        match grown(signals, more, &mut self.value.journal) {
            Ok(growing) => Ok(growing),
            Err(signals) => {
                self.value.signals = signals;
                Err(AllocError)
            }
        }
    }

    // The signals in place of those that are there.
    pub(crate) fn fill(&mut self, signals: Pieces)
        ensures { self.new ≡ record (self.old) { signals = signals } }
    {
        self.value.signals = signals;
    }

    pub(crate) fn put(
        &mut self,
        signal: Signal,
        refused: bool,
        policy: Policy,
    ) -> Result<bool, Signal>
        ensures due { IfOk result (λ switched. switched ≡ is_install (due_at policy (self.old.journal ++ Direct refused ∷ []))) }
        ensures ok { IfOk result (λ switched. self.new ≡ added self.old signal refused switched) }
        ensures err { IfErr result (λ s. (s ≡ signal) × (self.new ≡ self.old)) }
    {
        self.value.put(signal, refused, policy)
    }

    pub(crate) fn fetch(
        &mut self,
        into: &mut Signals,
        moved: u64,
        more: usize,
    ) -> Result<usize, AllocError>
        ensures ok { OnOk result ((self.new ≡ emptied self.old moved)
            × (into.new.items ≡ into.old.items ++ self.old.signals) × (more ≤ into.new.spare)) }
        ensures count { IfOk result (λ n. n ≡ length self.old.signals + more) }
        ensures err { OnErr result ((self.new ≡ self.old) × (into.new.items ≡ into.old.items)) }
    {
        self.value.fetch(into, moved, more)
    }

    pub(crate) fn due(&self, policy: Policy) -> Due
        ensures { result ≡ due_at policy self.now.journal }
    {
        self.value.journal.due(policy)
    }
}
