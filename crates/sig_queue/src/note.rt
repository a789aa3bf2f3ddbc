use crate::rule::SeatAt;
use std::marker::Model;

/// What a seat knew to have been put. Contracts see of which queue it is, and what it knows.
#[derive(Drop)]
pub struct Note {
    /// A seat at the table of the queue, which has no sender and no role.
    pub(crate) place: SeatAt,
}

impl Model for Note {
    ghost use Rattle.std.specs.Coded.{codes};
    ghost use Rattle.sig_terms.specs.contracts.term.Term as term;
    ghost use Rattle.sig_queue.specs.Seats.{Seated, IsNote};

    ghost Value = { Seated };

    ghost coded = { Prim.hlevel (codes, term.the_row.coded) };

    ghost view = { λ n. record {
      queue = n.place.table_id;
      knows = n.place.me.0;
    } };

    ghost invariant = { λ n. IsNote n.place.me };
}
