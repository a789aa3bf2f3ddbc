ghost use Rattle.std.specs.Prelude.{◌≡◌, ◌≤◌, ◌<◌, ◌+◌, ◌++◌};

use crate::batch::Batch;
use crate::pieces::Pieces;
use std::marker::Model;
use std::mem;

/// Signals in pieces with room for more pieces. Contracts see one list, and how many batches it
/// takes without memory.
#[derive(Drop)]
pub struct Growing {
    /// The older pieces, with room for more.
    pub(crate) first: Vec<Batch>,
    /// The newest piece.
    pub(crate) last: Batch,
}

impl Model for Growing {
    ghost use Rattle.std.specs.Prelude.{◌-◌, ◌++◌, vec_len, vec_capacity};
    ghost use Rattle.std.specs.Coded.{codes};
    ghost use Rattle.sig_terms.specs.contracts.term.Term as term;
    ghost use Rattle.sig_layout.specs.Rooms.{Roomy, all_pieces};

    ghost Value = { Roomy };

    ghost coded = { Prim.hlevel (codes, term.the_row.coded) };

    ghost view = { λ p. record {
      list = all_pieces p.first.items ++ p.last;
      spare = vec_capacity p.first - vec_len p.first;
    } };
}

impl Growing {
    /// A whole batch comes behind what there is. It takes no memory.
    ///
    /// Asks that there is room for one more batch. [`Pieces::grow`] has made room for so many.
    pub fn take(&mut self, batch: Batch)
        requires { 0 < self.old.spare }
        ensures list { self.new.list ≡ self.old.list ++ batch }
        ensures spare { self.old.spare ≤ self.new.spare + 1 }
    {
        let before = mem::replace(&mut self.last, batch);
        self.first.push_reserved(before);
    }

    /// What there is, without the room.
    pub fn into_pieces(self) -> Pieces
        ensures { result ≡ self.list }
    {
        let Growing { first, last } = self;
        Pieces { first, last }
    }
}
