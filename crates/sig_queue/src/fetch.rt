ghost use Rattle.std.specs.Prelude.{◌≡◌, ◌+◌, [], ◌∷◌, true, false};
ghost use Rattle.sig_layout.specs.declared.outer.Outer.{Outer};
ghost use Rattle.sig_layout.specs.Views.{number, IsSomebody};
ghost use Rattle.sig_layout.specs.Core.{Begins};
ghost use Rattle.sig_queue.specs.Calls.{due_of, FetchedHeld, Fetched};
ghost use Rattle.sig_queue.specs.SeatWords.{IsOf, IsSameSeat, key_of};

use crate::fetch_find::{bring_front, find_all};
use crate::fetch_settle::settle;
use crate::qseat::QSeat;
use crate::rule::SeatAt;
use crate::sig_queue::SigQueue;
use crate::slot::Slot;
use crate::words::Words;
use crate::words::steps::{take_bits, take_value, try_outer};
use sig_kinds::Signals;
use sig_layout::Policy;

/// What a fetch gives.
#[derive(Drop)]
pub enum Fetch {
    /// So many signals were taken. `due`: a removal is due now. `skipped` has a bit for each buffer
    /// whose turn another seat held; what lies there stays, and its bit is set again.
    Took { count: u64, due: bool, skipped: u64 },
    /// Another seat held the outer turn at the one try of it; `found` is the number of that seat
    /// plus 1. Nothing was taken.
    Busy { found: u64 },
    /// Memory is wanting, and nothing was taken.
    Memory,
}

// Under the outer turn: the bits are taken, each buffer of theirs is tried, and what was found is taken.
fn fetch_held(
    words: &Words,
    place: &mut SeatAt,
    my_word: u64,
    into: &mut Signals,
    policy: Policy,
) -> Fetch
    requires table { IsOf place.old words.now }
    requires policy { (key_of words.now).policy ≡ policy }
    requires begins { (o : Outer) × Begins place.old.me.0 o × (place.old.me.1 ≡ (0, Slot.Outer o) ∷ []) }
    requires idle { (place.old.me.0.parts ≡ []) × (place.old.me.0.saw_off ≡ false) × (place.old.me.0.mask ≡ [])
        × (place.old.me.0.back ≡ 0) × (place.old.me.0.moved ≡ 0) }
    requires role { (place.old.me.0.role ≡ true) × (place.old.me.0.due ≡ false) }
    requires somebody { IsSomebody place.old.me.0 × (my_word ≡ number place.old.me.0 + 1) }
    ensures same { IsSameSeat place.new place.old }
    ensures bare { place.new.me.1 ≡ [] }
    ensures fetched { FetchedHeld (key_of words.now) into.old.items into.new.items place.old.me.0 result place.new.me.0 }
{
    let outer = take_value(words, place);
    // The bits are taken before the lists. Taken after them, the bit of a signal that came in between
    // would be gone, and no later fetch would look for it: `the_bits_are_taken_after_the_lists`.
    let bits = take_bits(words, place);
    let found = find_all(words, place, bits, my_word);
    bring_front(place, found.count);
    match settle(words, place, &found, outer, into, policy) {
        Some(taken) => Fetch::Took {
            count: taken.count,
            due: taken.due,
            skipped: found.skipped,
        },
        None => Fetch::Memory,
    }
}

fn is_removal_due(fetch: &Fetch) -> bool
    ensures { result ≡ due_of fetch.now }
{
    match fetch {
        Fetch::Took { due, .. } => *due,
        Fetch::Busy { .. } | Fetch::Memory => false,
    }
}

impl SigQueue {
    /// Takes the outer list, and then the lists of the buffers whose bits were set and whose turns
    /// were free, by ascending number. They come behind what is in `into`. It tries the outer turn
    /// once, and where that was free the turn of each buffer whose bit was set, and takes no lock.
    ///
    /// Asks that the seat is of this queue and has the receiver's role, and that no removal is due,
    /// as [`SigQueue::removal_due`] tells.
    pub fn try_fetch(&self, seat: &mut QSeat, into: &mut Signals) -> Fetch
        requires own { seat.old.queue ≡ self.now.id }
        requires role { seat.old.knows.role ≡ true }
        requires not_due { seat.old.knows.due ≡ false }
        ensures own { seat.new.queue ≡ seat.old.queue }
        ensures fetched { Fetched self.now.setup into.old.items into.new.items seat.old.knows result seat.new.knows }
    {
        let words = &self.words;
        let my_word = seat.kept.number + 1;
        let found = try_outer(words, &mut seat.place, my_word);
        if found != 0 {
            seat.kept.refused = true;
            return Fetch::Busy { found };
        }
        let fetch = fetch_held(words, &mut seat.place, my_word, into, self.policy);
        seat.kept.due = is_removal_due(&fetch);
        fetch
    }
}
