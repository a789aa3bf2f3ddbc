use crate::kept::Kept;
use crate::rule::SeatAt;
use std::marker::Model;

/// A caller's token of one queue, which holds no turn. Contracts see of which queue it is, and what it knows.
#[derive(Drop)]
pub struct QSeat {
    /// The seat at the table of the queue.
    pub(crate) place: SeatAt,
    /// What the running code has of what it knows.
    pub(crate) kept: Kept,
}

impl Model for QSeat {
    ghost use Rattle.std.specs.Coded.{codes};
    ghost use Rattle.sig_terms.specs.contracts.term.Term as term;
    ghost use Rattle.sig_queue.specs.Seats.{Seated, IsSeat};

    ghost Value = { Seated };

    ghost coded = { Prim.hlevel (codes, term.the_row.coded) };

    ghost view = { λ s. record {
      queue = s.place.table_id;
      knows = s.place.me.0;
    } };

    ghost invariant = { λ s. IsSeat s.place.me s.kept };
}
