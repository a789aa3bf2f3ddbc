ghost use Rattle.std.specs.Prelude.{◌≡◌, ◌≢◌, ℕ, true};
ghost use Rattle.sig_layout.specs.declared.policy.Policy.TheVariants.{Never, Always};
ghost use Rattle.sig_layout.specs.Sets.{has};
ghost use Rattle.sig_layout.specs.Openings.{IsNext};
ghost use Rattle.sig_queue.specs.Calls.{SentAs};

use crate::offer::Offer;
use crate::qseat::QSeat;
use crate::sig_queue::SigQueue;
use sig_kinds::Signal;
use sig_layout::Via;
use std::sync::Wait;
use std::thread;

/// What `send` gives.
#[derive(Drop)]
pub enum Sent {
    /// The signal was put this way.
    Put { via: Via },
    /// Memory is wanting, and nothing was put.
    Memory { signal: Signal },
}

/// So many refused offers in a row come before a sender lets other threads run.
const TRIES: u32 = 16;

// One more offer in a row was refused. Other threads run once there are `TRIES`. It tells how many were
// refused since.
fn pause(refused: u32) -> u32 {
    let refused = refused.saturating_add(1);
    if refused < TRIES {
        return refused;
    }
    thread::yield_now();
    0
}

impl SigQueue {
    /// Offers a signal until it was put, or memory is wanting. It may wait for other seats: it lets
    /// other threads run after each 16 offers in a row that were refused. Where the queue goes by
    /// `Never` it is put into no buffer, and where by `Always`, never into the outer list.
    ///
    /// Asks of the seat and the signal what [`offer`](SigQueue::offer) asks.
    pub fn send<R: Wait>(&self, rt: &R, seat: &mut QSeat, mut signal: Signal) -> Sent
        requires own { seat.old.queue ≡ self.now.id }
        requires from { has seat.old.knows.senders signal.from.0 ≡ true }
        requires next { IsNext self.now.setup seat.old.knows.put signal }
        ensures own { seat.new.queue ≡ seat.old.queue }
        ensures sent { SentAs signal seat.old.knows result seat.new.knows }
        ensures never { self.now.setup.policy ≡ Never → (b : ℕ) → result ≢ Sent.Put (Via.Buffer b) }
        ensures always { self.now.setup.policy ≡ Always → result ≢ Sent.Put Via.Outer }
    {
        let mut again = 0;
        for _ in rt.forever() {
            match self.offer(seat, signal) {
                Offer::Put { via } => return Sent::Put { via },
                Offer::Memory { signal } => return Sent::Memory { signal },
                Offer::Busy {
                    signal: back,
                    found: _,
                } => signal = back,
            }
            again = pause(again);
        }
        unreachable!()
    }
}
