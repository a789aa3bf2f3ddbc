ghost use Rattle.std.specs.Prelude.{◌≡◌, [], ◌∷◌, ◌++◌, MatchOption};
ghost use Rattle.sig_layout.specs.Rooms.{all_pieces};

use sig_kinds::Signal;
use sig_layout::Batch;
use std::alloc::Global;
use std::marker::Model;
use std::vec::IntoIter;

/// Batches, one behind the other. Contracts see the signals that are left.
#[derive(Drop)]
pub(crate) struct Batches {
    /// The batch whose signals come next.
    current: Batch,
    /// The batches behind it.
    later: IntoIter<Batch>,
}

impl Model for Batches {
    ghost use Rattle.std.specs.Prelude.{List, ◌++◌};
    ghost use Rattle.std.specs.Coded.{codes};
    ghost use Rattle.std.specs.Vec.Iter.{into_iter_items};
    ghost use Rattle.sig_terms.specs.contracts.term.Term as term;
    ghost use Rattle.sig_kinds.specs.declared.signal.Signal.{Signal};
    ghost use Rattle.sig_layout.specs.Rooms.{all_pieces};

    ghost Value = { List Signal };

    ghost coded = { Prim.hlevel (codes, term.the_row.coded) };

    ghost view = { λ b. b.current ++ all_pieces (into_iter_items b.later) };
}

impl Batches {
    pub(crate) fn new(alloc: Global, batches: Vec<Batch>) -> Batches
        ensures { result ≡ all_pieces batches.items }
    {
        Batches {
            current: Batch::new(alloc),
            later: batches.into_iter(),
        }
    }

    // The first signal. `None` exactly where there is none.
    pub(crate) fn next(&mut self) -> Option<Signal>
        ensures { MatchOption result
            ((self.old ≡ []) × (self.new ≡ []))
            (λ first. self.old ≡ first ∷ self.new) }
    {
        loop {
            if let Some(signal) = self.current.pop_front() {
                return Some(signal);
            }
            match self.later.next() {
                Some(batch) => self.current = batch,
                None => return None,
            }
        }
    }
}
