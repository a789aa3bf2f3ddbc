ghost use Rattle.std.specs.Prelude.{◌≡◌, ◌≤◌, ◌+◌, ◌++◌, [], ◌∷◌, length, OnOk, IfOk, IfErr, IfSome};
ghost use Rattle.sig_layout.specs.Rooms.{all_pieces};
ghost use Rattle.sig_layout.specs.Summaries.{due_at, is_install};
ghost use Rattle.sig_layout.specs.Outers.{put_entries};
ghost use Rattle.sig_layout.specs.declared.entry.Entry.TheVariants.{Direct};

use crate::batch::Batch;
use crate::growing::Growing;
use crate::journal::Journal;
use crate::policy::Policy;
use sig_kinds::{Signal, Signals};
use std::alloc::Global;
use std::marker::Model;

/// Signals that are kept in pieces, so that a whole batch comes behind them without memory.
/// Contracts see one list.
#[derive(Drop)]
pub struct Pieces {
    /// The older pieces, the oldest first.
    pub(crate) first: Vec<Batch>,
    /// The newest piece, to which single signals are added.
    pub(crate) last: Batch,
}

impl Model for Pieces {
    ghost use Rattle.std.specs.Prelude.{List, ◌++◌};
    ghost use Rattle.std.specs.Coded.{codes};
    ghost use Rattle.sig_terms.specs.contracts.term.Term as term;
    ghost use Rattle.sig_kinds.specs.declared.signal.Signal.{Signal};
    ghost use Rattle.sig_layout.specs.Rooms.{all_pieces};

    ghost Value = { List Signal };

    ghost coded = { Prim.hlevel (codes, term.the_row.coded) };

    ghost view = { λ p. all_pieces p.first.items ++ p.last };
}

impl Pieces {
    /// No signal. It takes no memory.
    pub fn new(alloc: Global) -> Pieces
        ensures { result ≡ [] }
    {
        Pieces {
            first: Vec::new(alloc),
            last: Batch::new(alloc),
        }
    }

    // One more signal, with the entries of its put. It tells whether the put makes an install due.
    pub(crate) fn put(
        &mut self,
        signal: Signal,
        journal: &mut Journal,
        refused: bool,
        policy: Policy,
    ) -> Result<bool, Signal>
        ensures due { IfOk result (λ switched. switched ≡ is_install (due_at policy (journal.old ++ Direct refused ∷ []))) }
        ensures signals { OnOk result (self.new ≡ self.old ++ signal ∷ []) }
        ensures journal { IfOk result (λ switched. journal.new ≡ journal.old ++ put_entries refused switched) }
        ensures err { IfErr result (λ s. (s ≡ signal) × (self.new ≡ self.old) × (journal.new ≡ journal.old)) }
    {
        if self.last.signals.room(1).is_err() {
            return Err(signal);
        }
        let Ok(switched) = journal.add_put(refused, policy) else {
            return Err(signal);
        };
        self.last.signals.add(signal);
        Ok(switched)
    }

    // How many signals there are, and so many more.
    pub(crate) fn count(&self, more: usize) -> Option<usize>
        ensures { IfSome result (λ n. n ≡ length self.now + more) }
    {
        let mut total = self.last.len().checked_add(more)?;
        for piece in self.first.iter() {
            total = total.checked_add(piece.len())?;
        }
        Some(total)
    }

    // Moves all signals to the end of `into`, where room was made for them and for so many more, and
    // leaves that room. The newest piece changes places with `into` where nothing came before it.
    pub(crate) fn pour_into(&mut self, into: &mut Signals, more: usize)
        requires { length self.old + more ≤ into.old.spare }
        ensures list { into.new.items ≡ into.old.items ++ self.old }
        ensures rest { self.new ≡ [] }
        ensures room { more ≤ into.new.spare }
    {
        for i in 0..self.first.len() {
            self.first[i].pour_into(into);
        }
        self.last.pour_with_room(into, more);
    }

    /// The same with room for so many batches more. Where there is no memory for that, it comes
    /// back as it was.
    pub fn grow(self, more: usize) -> Result<Growing, Pieces>
        ensures ok { IfOk result (λ g. (g.list ≡ self) × (more ≤ g.spare)) }
        ensures err { IfErr result (λ p. p ≡ self) }
    {
        let Pieces { mut first, last } = self;
        match first.reserve(more) {
            Ok(()) => Ok(Growing { first, last }),
            Err(_) => Err(Pieces { first, last }),
        }
    }

    /// Its batches, the oldest first, and the last one apart.
    pub fn into_batches(self) -> (Vec<Batch>, Batch)
        ensures { self ≡ all_pieces result.0.items ++ result.1 }
    {
        let Pieces { first, last } = self;
        (first, last)
    }
}
