ghost use Rattle.std.specs.Prelude.{◌≡◌, ◌≤◌, ◌+◌, ◌++◌, [], ◌∷◌, length, IfOk, IfErr, OnOk, OnErr};
ghost use Rattle.sig_layout.specs.Summaries.{due_at, is_install};
ghost use Rattle.sig_layout.specs.Outers.{added, emptied};
ghost use Rattle.sig_layout.specs.declared.entry.Entry.TheVariants.{Direct};

use crate::entry::Entry;
use crate::journal::Journal;
use crate::pieces::Pieces;
use crate::policy::Policy;
use sig_kinds::{Signal, Signals};
use sig_lists::Pushed;
use std::alloc::AllocError;

/// The outer value of a queue: what its holder of the outer turn has.
#[derive(Drop)]
pub struct Outer {
    /// The outer list.
    pub signals: Pieces,
    /// What happened under the outer turn.
    pub journal: Journal,
}

impl Outer {
    /// One more signal, its entry, and the entry of an install where the put makes one due. It tells
    /// whether it does. Where there is no memory, the signal comes back and all is as before.
    pub fn put(&mut self, signal: Signal, refused: bool, policy: Policy) -> Result<bool, Signal>
        ensures due { IfOk result (λ switched. switched ≡ is_install (due_at policy (self.old.journal ++ Direct refused ∷ []))) }
        ensures ok { IfOk result (λ switched. self.new ≡ added self.old signal refused switched) }
        ensures err { IfErr result (λ s. (s ≡ signal) × (self.new ≡ self.old)) }
    {
        self.signals.put(signal, &mut self.journal, refused, policy)
    }

    /// Moves all signals to the end of `into`, which has room for so many more then, and adds the
    /// entry of a fetch. It tells how many there are together. Where there is no memory, all is as
    /// before.
    pub fn fetch(
        &mut self,
        into: &mut Signals,
        moved: u64,
        more: usize,
    ) -> Result<usize, AllocError>
        ensures ok { OnOk result ((self.new ≡ emptied self.old moved)
            × (into.new.items ≡ into.old.items ++ self.old.signals) × (more ≤ into.new.spare)) }
        ensures count { IfOk result (λ n. n ≡ length self.old.signals + more) }
        ensures err { OnErr result ((self.new ≡ self.old) × (into.new.items ≡ into.old.items)) }
    {
        let Some(total) = self.signals.count(more) else {
            return Err(AllocError);
        };
        into.room(total)?;
        match self.journal.push(Entry::Fetch { moved }) {
            Pushed::Added => {}
            Pushed::Memory { item: _ } => return Err(AllocError),
        }
        self.signals.pour_into(into, more);
        Ok(total)
    }
}
