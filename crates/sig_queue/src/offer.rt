ghost use Rattle.std.specs.Prelude.{◌≡◌, ◌≢◌, ℕ, ◌+◌, [], true};
ghost use Rattle.sig_layout.specs.declared.policy.Policy.TheVariants.{Never, Always};
ghost use Rattle.sig_layout.specs.Sets.{has};
ghost use Rattle.sig_layout.specs.Openings.{IsNext};
ghost use Rattle.sig_layout.specs.Core.{Idle, some_refused};
ghost use Rattle.sig_layout.specs.Views.{number, IsSomebody};
ghost use Rattle.sig_queue.specs.Calls.{Offered};
ghost use Rattle.sig_queue.specs.SeatWords.{IsOf, IsSameSeat, key_of};

use crate::qseat::QSeat;
use crate::rule::SeatAt;
use crate::sig_queue::SigQueue;
use crate::to_buffer::{ToBuffer, offer_to_buffer};
use crate::to_outer::offer_outer;
use crate::words::Words;
use sig_kinds::Signal;
use sig_layout::{BUFFERS, Policy, Via};

/// What `offer` gives.
#[derive(Drop)]
pub enum Offer {
    /// The signal was put this way.
    Put { via: Via },
    /// Another seat held the turn of the sender's buffer, or the outer turn, at the one try of it;
    /// `found` is the number of that seat plus 1. Nothing was put.
    Busy { signal: Signal, found: u64 },
    /// Memory is wanting, and nothing was put.
    Memory { signal: Signal },
}

// Offers where the seat holds no turn. `refused`: the outer turn was refused since the last put to the outer list.
fn offer_at(
    words: &Words,
    place: &mut SeatAt,
    my_word: u64,
    signal: Signal,
    refused: &mut bool,
    policy: Policy,
) -> Offer
    requires table { IsOf place.old words.now }
    requires policy { (key_of words.now).policy ≡ policy }
    requires idle { Idle place.old.me.0 × (place.old.me.1 ≡ []) }
    requires somebody { IsSomebody place.old.me.0 × (my_word ≡ number place.old.me.0 + 1) }
    requires from { has place.old.me.0.senders signal.from.0 ≡ true }
    requires next { IsNext (key_of words.now) place.old.me.0.put signal }
    requires refused { refused.old ≡ some_refused place.old.me.0.refused }
    ensures same { IsSameSeat place.new place.old }
    ensures bare { place.new.me.1 ≡ [] }
    ensures offered { Offered signal place.old.me.0 result place.new.me.0 }
    ensures refused { refused.new ≡ some_refused place.new.me.0.refused }
    ensures never { (key_of words.now).policy ≡ Never → (b : ℕ) → result ≢ Offer.Put (Via.Buffer b) }
    ensures always { (key_of words.now).policy ≡ Always → result ≢ Offer.Put Via.Outer }
{
    let buffer = signal.from.0 % BUFFERS as u32;
    let offered = offer_to_buffer(words, place, buffer as usize, my_word, signal);
    match offered {
        ToBuffer::Put => Offer::Put {
            via: Via::Buffer(buffer as u8),
        },
        ToBuffer::Busy(signal, found) => Offer::Busy { signal, found },
        ToBuffer::Memory(signal) => Offer::Memory { signal },
        ToBuffer::Off(signal) => offer_outer(words, place, my_word, signal, refused, policy),
    }
}

impl SigQueue {
    /// Offers a signal: to the sender's buffer where the mode is on, and else to the outer list. It
    /// tries the outer turn once, or that of the buffer, or first this one and then the outer one,
    /// looks at the mode at most twice, and takes no lock. Where the queue goes by `Never`, as each
    /// does whose receiver keeps its message queue on the heap, it is put into no buffer, and where by
    /// `Always`, never into the outer list.
    ///
    /// Asks that the seat is of this queue and has the signal's sender, which is one of the
    /// queue's; and that the signal goes to the queue's receiver, has the next number of its sender
    /// (the first number and as many more as the sender has put) and a stamp of at most 2^62, and
    /// names only processes below the queue's count.
    pub fn offer(&self, seat: &mut QSeat, signal: Signal) -> Offer
        requires own { seat.old.queue ≡ self.now.id }
        requires from { has seat.old.knows.senders signal.from.0 ≡ true }
        requires next { IsNext self.now.setup seat.old.knows.put signal }
        ensures own { seat.new.queue ≡ seat.old.queue }
        ensures offered { Offered signal seat.old.knows result seat.new.knows }
        ensures never { self.now.setup.policy ≡ Never → (b : ℕ) → result ≢ Offer.Put (Via.Buffer b) }
        ensures always { self.now.setup.policy ≡ Always → result ≢ Offer.Put Via.Outer }
    {
        let words = &self.words;
        let my_word = seat.kept.number + 1;
        let mut refused = seat.kept.refused;
        let offer = offer_at(
            words,
            &mut seat.place,
            my_word,
            signal,
            &mut refused,
            self.policy,
        );
        seat.kept.refused = refused;
        offer
    }
}
