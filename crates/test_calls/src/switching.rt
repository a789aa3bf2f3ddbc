//! One seat puts, fetches and removes, so that buffers come into use and go out of it.
ghost use Rattle.std.specs.Prelude.{◌≡◌, true, false, length};
ghost use Rattle.sig_layout.specs.Sent.{putter, of};
ghost use Rattle.test_calls.specs.Queues.{Puts, Stays};

use crate::putting::offered;
use example_relay::Line;
use sig_kinds::Signals;
use sig_layout::Via;
use sig_queue::{Fetch, QSeat, SigQueue};
use std::sync::Wait;

// Whether one puts into the outer list, and then each into its buffer.
fn fill(queue: &SigQueue, seat: &mut QSeat, one: Line, two: Line) -> bool
    requires one { Puts queue.now one seat.old × (one.from.0 ≡ 1) × (one.first ≡ 1) }
    requires two { Puts queue.now two seat.old × (two.from.0 ≡ 2) × (two.first ≡ 1) }
    requires due { seat.old.knows.due ≡ false }
    ensures stays { Stays seat.old seat.new }
    ensures due { seat.new.knows.due ≡ false }
    ensures count { result ≡ true → length (of putter 2 seat.new.knows.put) ≡ 1 }
{
    let (Some(Via::Outer), _) = offered(queue, seat, one, 1, 11) else {
        return false;
    };
    let (Some(Via::Buffer(2)), _) = offered(queue, seat, two, 1, 12) else {
        return false;
    };
    let (way, _) = offered(queue, seat, one, 2, 13);
    way == Some(Via::Buffer(1))
}

// Whether three signals are fetched, past no buffer, and a removal is due then.
fn fetches_three(queue: &SigQueue, seat: &mut QSeat, into: &mut Signals) -> bool
    requires own { seat.old.queue ≡ queue.now.id }
    requires fetches { (seat.old.knows.role ≡ true) × (seat.old.knows.due ≡ false) }
    ensures stays { Stays seat.old seat.new }
    ensures put { seat.new.knows.put ≡ seat.old.knows.put }
    ensures due { result ≡ true → seat.new.knows.due ≡ true }
{
    match queue.try_fetch(seat, into) {
        Fetch::Took {
            count,
            due,
            skipped,
        } => due && count == 3 && skipped == 0,
        Fetch::Busy { .. } => false,
        Fetch::Memory => false,
    }
}

/// Whether buffers come into use by a put, are emptied by a fetch, go out of use by a removal, and come
/// into use by a put again.
pub(crate) fn switch<R: Wait>(
    rt: &R,
    queue: &SigQueue,
    seat: &mut QSeat,
    one: Line,
    two: Line,
    into: &mut Signals,
) -> bool
    requires one { Puts queue.now one seat.old × (one.from.0 ≡ 1) × (one.first ≡ 1) }
    requires two { Puts queue.now two seat.old × (two.from.0 ≡ 2) × (two.first ≡ 1) }
    requires fetches { (seat.old.knows.role ≡ true) × (seat.old.knows.due ≡ false) }
    ensures stays { Stays seat.old seat.new }
{
    if !fill(queue, seat, one, two) || queue.filled(seat) != 6 {
        return false;
    }
    if !fetches_three(queue, seat, into) || queue.remove(rt, seat).is_err() {
        return false;
    }
    let (way, _) = offered(queue, seat, two, 2, 14);
    way == Some(Via::Outer)
}
