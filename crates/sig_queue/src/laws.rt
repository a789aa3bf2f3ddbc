//! Two calls for tests alone: a seat that holds the outer turn between two calls. (The laws of the queue
//! are theorems of sig_layout: `rule` there.)
ghost use Rattle.std.specs.Prelude.{◌≡◌, None};
ghost use Rattle.sig_layout.specs.Views.{IsSomebody};
ghost use Rattle.sig_queue.specs.Calls.{Holds};

use crate::held_seat::HeldSeat;
use crate::hold::Hold;
use crate::qseat::QSeat;
use crate::sig_queue::SigQueue;
use crate::words::steps::{leave_same, try_outer};

/// Takes the outer turn, at one try.
///
/// Asks that the seat is of this queue and has a sender or the receiver's role.
pub fn hold(queue: &SigQueue, seat: QSeat) -> Hold
    requires own { seat.queue ≡ queue.now.id }
    requires somebody { IsSomebody seat.knows }
    ensures { Holds seat.knows queue.now.id result }
{
    let QSeat {
        mut place,
        mut kept,
    } = seat;
    let found = try_outer(&queue.words, &mut place, kept.number + 1);
    if found != 0 {
        kept.refused = true;
        let seat = QSeat { place, kept };
        return Hold::Busy { seat, found };
    }
    Hold::Held(HeldSeat { place, kept })
}

/// Leaves the outer turn, with all as it was.
///
/// Asks that the seat is of this queue.
pub fn release(queue: &SigQueue, held: HeldSeat) -> QSeat
    requires own { held.queue ≡ queue.now.id }
    ensures own { result.queue ≡ queue.now.id }
    ensures left { result.knows ≡ record (held.knows) { held = None } }
{
    let HeldSeat { mut place, kept } = held;
    leave_same(&queue.words, &mut place);
    QSeat { place, kept }
}
