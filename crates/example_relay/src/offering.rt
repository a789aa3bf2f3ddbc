ghost use Rattle.std.specs.Prelude.{◌≡◌, ◌+◌, length, true, if◌then◌else◌, IfSome};
ghost use Rattle.sig_layout.specs.Sets.{has};
ghost use Rattle.sig_layout.specs.Sent.{putter, of};
ghost use Rattle.sig_queue.specs.Calls.{Offered};
ghost use Rattle.example_relay.specs.Relays.{Sender, message as said, put_by};

use crate::messages::message;
use crate::relaying::Line;
use sig_queue::{Offer, QSeat, SigQueue};

/// Offers the message with this number.
///
/// Asks that the seat is of this queue and has the sender of the line; that this is a sender of the
/// queue and below its count, that the line's receiver is the queue's and below its count, and that
/// the line's first number is the one with which the queue was opened for the sender; and that the
/// number is the next of the sender: the first number and as many more as it has put.
pub fn offer_message(
    queue: &SigQueue,
    seat: &mut QSeat,
    line: Line,
    number: u64,
    serial: u64,
) -> Offer
    requires own { seat.old.queue ≡ queue.now.id }
    requires sender { Sender queue.now.setup line }
    requires can { has seat.old.knows.senders line.from.0 ≡ true }
    requires next { number ≡ line.first + length (of putter line.from.0 seat.old.knows.put) }
    ensures own { seat.new.queue ≡ seat.old.queue }
    ensures offered { Offered (said line.from line.to number serial) seat.old.knows result seat.new.knows }
{
    queue.offer(seat, message(line.from, line.to, number, serial))
}

// Whether the offer put its signal, and `None` where memory is wanting.
fn was_put(offer: &Offer) -> Option<bool>
    ensures { result ≡ put_by offer.now }
{
    match offer {
        Offer::Put { .. } => Some(true),
        Offer::Busy { .. } => Some(false),
        Offer::Memory { .. } => None,
    }
}

/// Offers the message with this number. Whether it was put, and `None` where memory is wanting.
///
/// Asks what [`offer_message`] asks.
pub fn put_message(
    queue: &SigQueue,
    seat: &mut QSeat,
    line: Line,
    number: u64,
    serial: u64,
) -> Option<bool>
    requires own { seat.old.queue ≡ queue.now.id }
    requires sender { Sender queue.now.setup line }
    requires can { has seat.old.knows.senders line.from.0 ≡ true }
    requires next { number ≡ line.first + length (of putter line.from.0 seat.old.knows.put) }
    ensures own { seat.new.queue ≡ seat.old.queue }
    ensures senders { seat.new.knows.senders ≡ seat.old.knows.senders }
    ensures count { IfSome result (λ put. length (of putter line.from.0 seat.new.knows.put)
        ≡ length (of putter line.from.0 seat.old.knows.put) + (if put then 1 else 0)) }
    ensures put { (o : Offer) × (result ≡ put_by o) × Offered (said line.from line.to number serial) seat.old.knows o seat.new.knows }
{
    let offer = offer_message(queue, seat, line, number, serial);
    let put = was_put(&offer);
    drop(offer);
    put
}
