ghost use Rattle.std.specs.Prelude.{◌≡◌, [], ◌∷◌, ◌++◌, MatchOption};
ghost use Rattle.sig_layout.specs.Rooms.{all_pieces};

use crate::batches::Batches;
use sig_kinds::Signal;
use sig_layout::{Batch, Pieces};
use std::alloc::Global;
use std::marker::Model;

/// What is left of a queue: the outer list, and then the lists of buffers 0 to 63. Contracts see
/// the signals that are left, in this order.
#[derive(Drop)]
pub struct Rest {
    /// The outer list, but for its newest piece.
    first: Batches,
    /// The newest piece of the outer list.
    last: Batch,
    /// The lists of the buffers.
    lists: Batches,
}

impl Model for Rest {
    ghost use Rattle.std.specs.Prelude.{List, ◌++◌};
    ghost use Rattle.std.specs.Coded.{codes};
    ghost use Rattle.sig_terms.specs.contracts.term.Term as term;
    ghost use Rattle.sig_kinds.specs.declared.signal.Signal.{Signal};

    ghost Value = { List Signal };

    ghost coded = { Prim.hlevel (codes, term.the_row.coded) };

    ghost view = { λ r. (r.first ++ r.last) ++ r.lists };
}

impl Rest {
    pub(crate) fn new(alloc: Global, outer: Pieces, lists: Vec<Batch>) -> Rest
        ensures { result ≡ outer ++ all_pieces lists.items }
    {
        let (first, last) = outer.into_batches();
        Rest {
            first: Batches::new(alloc, first),
            last,
            lists: Batches::new(alloc, lists),
        }
    }

    /// Takes the first signal. `None` exactly where none is left.
    pub fn next(&mut self) -> Option<Signal>
        ensures { MatchOption result
            ((self.old ≡ []) × (self.new ≡ []))
            (λ first. self.old ≡ first ∷ self.new) }
    {
        if let Some(signal) = self.first.next() {
            return Some(signal);
        }
        if let Some(signal) = self.last.pop_front() {
            return Some(signal);
        }
        self.lists.next()
    }
}
