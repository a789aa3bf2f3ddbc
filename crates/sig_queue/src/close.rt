//! How a queue ends.
ghost use Rattle.std.specs.Prelude.{◌≡◌, ℕ, ◌+◌, ◌<◌, ◌≤◌, [], true, false, List, vec_capacity, slice_index_or, slice_set};
ghost use mathlib.Core.Option.{some};
ghost use lib.ListN.{get_elem?};
ghost use Rattle.sig_kinds.specs.declared.signal.Signal.{Signal};
ghost use Rattle.sig_layout.specs.declared.layout.TheConstants.{SLOTS};
ghost use Rattle.sig_layout.specs.Sets.{has};
ghost use Rattle.sig_queue.specs.Tables.{lists_in, IsEnding};
ghost use Rattle.sig_queue.specs.Ends.{EndsAs};
ghost use Rattle.sig_queue.specs.Accounts.{account_of};

use crate::closed::Closed;
use crate::qseat::QSeat;
use crate::receipt::Receipt;
use crate::rest::Rest;
use crate::rule::SeatAt;
use crate::sig_queue::SigQueue;
use crate::slot::Slot;
use sig_layout::{BUFFERS, Batch, Journal, Outer};
use std::alloc::Global;

type Table = atomic_table::Closed<Slot, Global>;

// The list of a slot.
fn take_one(closed: &mut Table, slot: usize) -> Batch
    requires there { (slot < closed.old.slots.len) × (slice_index_or closed.old.slots.filled slot false ≡ true) }
    requires list { (l : List Signal) × (get_elem? (closed.old.slots.items) slot ≡ some (Slot.List l)) }
    ensures list { get_elem? (closed.old.slots.items) slot ≡ some (Slot.List result) }
    ensures same { (closed.new.slots.items ≡ closed.old.slots.items) × (closed.new.slots.len ≡ closed.old.slots.len)
        × (closed.new.words ≡ closed.old.words) }
    ensures taken { closed.new.slots.filled ≡ slice_set closed.old.slots.filled slot false }
{
    match closed.take(slot) {
        Slot::List(list) => list,
        _ => unreachable!(),
    }
}

// The lists of all buffers, by ascending number: `the_rest_is_turned_round`. There is room for them.
fn take_lists(closed: &mut Table, lists: &mut Vec<Batch>)
    requires size { closed.old.slots.len ≡ SLOTS }
    requires filled { (k : ℕ) → k < SLOTS → slice_index_or closed.old.slots.filled k false ≡ true }
    requires held { (k : ℕ) → k < BUFFERS → (l : List Signal) × (get_elem? (closed.old.slots.items) (k + 1) ≡ some (Slot.List l)) }
    requires room { (lists.old.items ≡ []) × (BUFFERS ≤ vec_capacity lists.old) }
    ensures lists { lists.new.items ≡ lists_in closed.old.slots.items 1 BUFFERS }
    ensures same { (closed.new.slots.items ≡ closed.old.slots.items) × (closed.new.slots.len ≡ closed.old.slots.len) }
    ensures first { slice_index_or closed.new.slots.filled 0 false ≡ true }
    ensures empty { (k : ℕ) → 0 < k → k < SLOTS → slice_index_or closed.new.slots.filled k false ≡ false }
{
    for buffer in 0..BUFFERS {
        let list = take_one(closed, buffer + 1);
        lists.push_reserved(list);
    }
}

impl SigQueue {
    // What is left, and the journal.
    fn end(self, place: SeatAt) -> (Rest, Journal)
        requires own { place.table_id ≡ self.id }
        requires idle { IsEnding self.setup place.me }
        ensures ends { EndsAs self.setup place.me.0 result.0 result.1 }
    {
        let SigQueue {
            words,
            policy: _,
            alloc,
            mut lists,
        } = self;
        let mut closed = words.close_with(place);
        take_lists(&mut closed, &mut lists);
        let slot = closed.take(0);
        closed.free();
        let Slot::Outer(outer) = slot else {
            unreachable!()
        };
        let Outer { signals, journal } = outer.into_outer();
        (Rest::new(alloc, signals, lists), journal)
    }

    /// Ends the queue. What is left is the outer list, and then the lists of buffers 0 to 63. What
    /// each sender put is what was taken of it, and then what is left of it.
    ///
    /// Asks that the seat is of this queue and has all of the queue's senders and the receiver's
    /// role, so that nothing can be put any more.
    pub fn close(self, mut seat: QSeat) -> Closed
        requires own { seat.queue ≡ self.id }
        requires role { seat.knows.role ≡ true }
        requires all { (s : ℕ) → has self.setup.senders s ≡ true → has seat.knows.senders s ≡ true }
        ensures ends { EndsAs self.setup seat.knows result.rest result.journal }
        ensures receipt { result.receipt ≡ account_of self.setup seat.knows.put }
    {
        let note = self.note(&mut seat);
        let QSeat { place, .. } = seat;
        let receipt = Receipt::of(&place, note.place, &self.words);
        let (rest, journal) = self.end(place);
        Closed {
            rest,
            journal,
            receipt,
        }
    }
}
