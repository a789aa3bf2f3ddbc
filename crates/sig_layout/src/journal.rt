ghost use Rattle.std.specs.Prelude.{◌≡◌, ◌<◌, ◌++◌, [], ◌∷◌, length, slice_get, OnErr, OnSome, IfOk};
ghost use Rattle.std.specs.Option.{option_copied};
ghost use Rattle.sig_lists.specs.Pushing.{IsPushed};
ghost use Rattle.sig_layout.specs.Summaries.{summed, due_at, is_install};
ghost use Rattle.sig_layout.specs.Outers.{put_entries};
ghost use Rattle.sig_layout.specs.declared.entry.Entry.TheVariants.{Direct};

use crate::decision::Due;
use crate::entry::Entry;
use crate::policy::Policy;
use crate::summary::Summary;
use sig_lists::Pushed;
use std::alloc::{AllocError, Global};
use std::marker::Model;

/// A journal has no more entries than this, so that no count of its summary comes to 2^63.
pub const MOST_ENTRIES: usize = 1 << 62;

/// What happened to a queue under its outer turn, the oldest entry first, with a running summary of
/// what the policies read of it. Contracts see the entries.
#[derive(Drop)]
pub struct Journal {
    entries: Vec<Entry>,
    summary: Summary,
    ghost is_summed: { summary ≡ summed entries.items },
}

impl Model for Journal {
    ghost use Rattle.std.specs.Prelude.{List};
    ghost use Rattle.sig_layout.specs.declared.entry.Entry.{Entry};

    ghost Value = { List Entry };

    ghost view = { λ j. j.entries.items };
}

impl Journal {
    /// No entry. It takes no memory.
    pub fn new(alloc: Global) -> Journal
        ensures { result ≡ [] }
    {
        Journal {
            entries: Vec::new(alloc),
            summary: Summary::fresh(false),
        }
    }

    /// How many entries there are.
    pub fn len(&self) -> usize
        ensures { result ≡ length self.now }
    {
        self.entries.len()
    }

    /// The entry at this place, from 0. `None` exactly where the place isn't below the length.
    pub fn get(&self, index: usize) -> Option<&Entry>
        ensures value { option_copied result ≡ slice_get self.now index }
        ensures within { OnSome result (index < length self.now) }
    {
        self.entries.get(index)
    }

    /// What this policy makes due after the journal, in constant time, where it is the one by which
    /// the queue goes ([`Policy::ruled`]).
    pub fn due(&self, policy: Policy) -> Due
        ensures { result ≡ due_at policy self.now }
    {
        self.summary.due(policy)
    }

    /// Adds an entry at the end. Where there is no memory for it, or the journal has 2^62 entries, it
    /// comes back, and the journal is as before.
    pub fn push(&mut self, entry: Entry) -> Pushed<Entry>
        ensures { IsPushed self.old self.new entry result }
    {
        if self.entries.len() >= MOST_ENTRIES {
            return Pushed::Memory { item: entry };
        }
        if self.entries.reserve(1).is_err() {
            return Pushed::Memory { item: entry };
        }
        self.summary = self.summary.after(entry);
        self.entries.push_reserved(entry);
        Pushed::Added
    }

    // The entry of a put, and that of an install where the put makes one due. It tells whether it
    // does.
    pub(crate) fn add_put(&mut self, refused: bool, policy: Policy) -> Result<bool, AllocError>
        ensures due { IfOk result (λ switched. switched ≡ is_install (due_at policy (self.old ++ Direct refused ∷ []))) }
        ensures ok { IfOk result (λ switched. self.new ≡ self.old ++ put_entries refused switched) }
        ensures err { OnErr result (self.new ≡ self.old) }
    {
        if self.entries.len() >= MOST_ENTRIES {
            return Err(AllocError);
        }
        self.entries.reserve(2)?;
        let summary = self.summary.after(Entry::Direct { refused });
        self.entries.push_reserved(Entry::Direct { refused });
        if let Due::Install = summary.due(policy) {
            self.entries.push_reserved(Entry::Install);
            self.summary = Summary::fresh(true);
            return Ok(true);
        }
        self.summary = summary;
        Ok(false)
    }
}
