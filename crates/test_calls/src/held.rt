//! A seat offers and fetches while another holds the outer turn.
ghost use Rattle.std.specs.Prelude.{◌≡◌, true, false};
ghost use Rattle.sig_layout.specs.Views.{IsSomebody};
ghost use Rattle.test_calls.specs.Queues.{Puts, Keeps, Stays};

use crate::putting::offered;
use example_relay::Line;
use sig_kinds::Signals;
use sig_layout::Via;
use sig_queue::{Fetch, HeldSeat, Hold, QSeat, SigQueue, laws};

// Whether the fetch was refused by the seat with this turn.
fn is_fetch_busy(fetch: &Fetch, turn: u64) -> bool {
    match fetch {
        Fetch::Busy { found } => *found == turn,
        _other => false,
    }
}

// Whether an offer of the line's first message and a fetch are refused by the seat with this turn.
fn are_refused(
    queue: &SigQueue,
    seat: &mut QSeat,
    line: Line,
    into: &mut Signals,
    turn: u64,
) -> bool
    requires puts { Puts queue.now line seat.old }
    requires fetches { (seat.old.knows.role ≡ true) × (seat.old.knows.due ≡ false) }
    ensures stays { Stays seat.old seat.new }
    ensures puts { result ≡ true → Puts queue.now line seat.new }
{
    let (None, found) = offered(queue, seat, line, line.first, 7) else {
        return false;
    };
    let fetch = queue.try_fetch(seat, into);
    found == Some(turn) && is_fetch_busy(&fetch, turn)
}

// Whether an offer and a fetch are refused while the turn is held, and then the offer is put into the
// outer list.
fn are_refused_and_put(
    queue: &SigQueue,
    seat: &mut QSeat,
    held: HeldSeat,
    line: Line,
    into: &mut Signals,
    turn: u64,
) -> (QSeat, bool)
    requires puts { Puts queue.now line seat.old }
    requires fetches { (seat.old.knows.role ≡ true) × (seat.old.knows.due ≡ false) }
    requires held { held.queue ≡ queue.now.id }
    ensures stays { Stays seat.old seat.new }
    ensures held { Keeps queue.now held.knows.senders result.0 }
{
    let refused = are_refused(queue, seat, line, into, turn);
    let holder = laws::release(queue, held);
    if !refused {
        return (holder, false);
    }
    let (way, _) = offered(queue, seat, line, line.first, 7);
    (holder, way == Some(Via::Outer))
}

/// Whether an offer and a fetch of the seat are refused while the holder has the outer turn, and once it
/// has left the turn the offer is put into the outer list.
pub(crate) fn hold_and_offer(
    queue: &SigQueue,
    seat: &mut QSeat,
    holder: QSeat,
    line: Line,
    into: &mut Signals,
    turn: u64,
) -> (QSeat, bool)
    requires puts { Puts queue.now line seat.old }
    requires fetches { (seat.old.knows.role ≡ true) × (seat.old.knows.due ≡ false) }
    requires own { holder.queue ≡ queue.now.id }
    requires somebody { IsSomebody holder.knows }
    ensures stays { Stays seat.old seat.new }
    ensures holder { Keeps queue.now holder.knows.senders result.0 }
{
    match laws::hold(queue, holder) {
        Hold::Held(held) => are_refused_and_put(queue, seat, held, line, into, turn),
        Hold::Busy { seat: back, .. } => (back, false),
    }
}
