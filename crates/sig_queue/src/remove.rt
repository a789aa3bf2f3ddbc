//! A removal: the mode goes off, and all buffers are emptied into the outer list, under one outer turn.
ghost use Rattle.std.specs.Prelude.{◌≡◌, ◌+◌, ◌<◌, ◌≤◌, ◌++◌, [], ◌∷◌, List, true, false, Some, None, OnOk, OnErr};
ghost use Rattle.sig_layout.specs.Outers.{removed};
ghost use Rattle.sig_kinds.specs.declared.signal.Signal.{Signal};
ghost use Rattle.sig_layout.specs.declared.outer.Outer.{Outer};
ghost use Rattle.sig_layout.specs.Core.{Begins, some_refused};
ghost use Rattle.sig_layout.specs.declared.knows.Knows.{Knows};
ghost use Rattle.sig_layout.specs.Views.{number, IsSomebody, part, after_same};
ghost use Rattle.sig_queue.specs.Fetching.{outer_out};
ghost use Rattle.sig_queue.specs.Removing.{waited, waits, WaitedFor, WaitedForOuter, WaitedForAll, WaitedOneByOne, Passing, WithRoom};
ghost use Rattle.sig_queue.specs.SeatWords.{IsOf, IsBufferOf, IsSameSeat};

use crate::outer_box::OuterBox;
use crate::qseat::QSeat;
use crate::rule::SeatAt;
use crate::sig_queue::SigQueue;
use crate::slot::Slot;
use crate::words::Words;
use crate::words::buffer_steps::{leave_passed, put_list, take_list, try_buffer};
use crate::words::steps::{leave_remove, leave_same, mode_off, put_value, take_value, try_outer};
use sig_layout::{BUFFERS, Batch, Growing};
use std::alloc::{AllocError, Global};
use std::sync::Wait;
use std::thread;

// Takes the outer turn, however long that takes. It tells whether there was a refusal since the last put to the outer list.
fn wait_outer<R: Wait>(
    rt: &R,
    words: &Words,
    place: &mut SeatAt,
    my_word: u64,
    mut refused: bool,
) -> bool
    requires table { IsOf place.old words.now }
    requires idle { (place.old.me.0.held ≡ None) × (place.old.me.0.saw_off ≡ false) }
    requires somebody { IsSomebody place.old.me.0 × (my_word ≡ number place.old.me.0 + 1) }
    requires refused { refused ≡ some_refused place.old.me.0.refused }
    ensures same { IsSameSeat place.new place.old }
    ensures took { (o : Outer)
        × (place.new.me ≡ (record (waited place.old.me.0 place.new.me.0) { held = Some o }, (0, Slot.Outer o) ∷ place.old.me.1)) }
    ensures refused { result ≡ some_refused place.new.me.0.refused }
    ensures tries { WaitedForOuter place.old.me.0 place.new.me.0 }
{
    for _ in rt.forever() {
        if try_outer(words, place, my_word) == 0 {
            return refused;
        }
        refused = true;
        thread::yield_now();
    }
    unreachable!()
}

// Takes the turn of a buffer, however long that takes.
fn wait_buffer<R: Wait>(rt: &R, words: &Words, place: &mut SeatAt, buffer: usize, my_word: u64)
    requires table { IsBufferOf place.old words.now buffer }
    requires bare { (place.old.me.0.parts ≡ []) × (place.old.me.0.saw_off ≡ false) }
    requires somebody { IsSomebody place.old.me.0 × (my_word ≡ number place.old.me.0 + 1) }
    ensures same { IsSameSeat place.new place.old }
    ensures took { (l : List Signal) × (place.new.me ≡ (
      record (waits place.old.me.0 place.new.me.0) {
        parts = place.old.me.0.parts
            ++ part buffer l ∷ [];
      },
      (buffer + 1, Slot.List l) ∷ place.old.me.1,
    )) }
    ensures tries { WaitedFor (buffer + 3) place.old.me.0 place.new.me.0 }
{
    for _ in rt.forever() {
        if try_buffer(words, place, buffer, my_word) == 0 {
            return;
        }
        thread::yield_now();
    }
    unreachable!()
}

// Passes a buffer: its list comes behind what there is.
fn pass_one<R: Wait>(
    rt: &R,
    alloc: Global,
    words: &Words,
    place: &mut SeatAt,
    buffer: usize,
    my_word: u64,
    growing: &mut Growing,
)
    requires table { IsBufferOf place.old words.now buffer }
    requires passing { (u : Knows) × Passing u buffer place.old.me growing.old.list × (u.parts ≡ [])
        × (u.saw_off ≡ false) × (u.fetching ≡ false) × (u.removing ≡ true) }
    requires somebody { IsSomebody place.old.me.0 × (my_word ≡ number place.old.me.0 + 1) }
    requires room { WithRoom buffer growing.old }
    ensures same { IsSameSeat place.new place.old }
    ensures passing { (u : Knows) → Passing u buffer place.old.me growing.old.list → u.parts ≡ []
        → Passing u (buffer + 1) place.new.me growing.new.list }
    ensures tries { WaitedFor (buffer + 3) place.old.me.0 place.new.me.0 }
    ensures room { WithRoom (buffer + 1) growing.new }
{
    wait_buffer(rt, words, place, buffer, my_word);
    let list = take_list(words, place, buffer);
    growing.take(list);
    put_list(words, place, buffer, Batch::new(alloc));
    leave_passed(words, place, buffer);
}

// Passes all buffers by ascending number.
fn pass_all<R: Wait>(
    rt: &R,
    alloc: Global,
    words: &Words,
    place: &mut SeatAt,
    my_word: u64,
    growing: &mut Growing,
)
    requires table { IsOf place.old words.now }
    requires passing { Passing place.old.me.0 0 place.old.me growing.old.list }
    requires begins { (place.old.me.0.parts ≡ []) × (place.old.me.0.saw_off ≡ false)
        × (place.old.me.0.fetching ≡ false) × (place.old.me.0.removing ≡ true) }
    requires somebody { IsSomebody place.old.me.0 × (my_word ≡ number place.old.me.0 + 1) }
    requires room { WithRoom 0 growing.old }
    ensures same { IsSameSeat place.new place.old }
    ensures passing { Passing place.old.me.0 BUFFERS place.new.me growing.new.list }
    ensures tries { WaitedOneByOne BUFFERS place.old.me.0 place.new.me.0 }
{
    for buffer in 0..BUFFERS {
        pass_one(rt, alloc, words, place, buffer, my_word, growing);
    }
}

// There is room for all that comes, and the entry stands in the journal.
fn remove_with_room<R: Wait>(
    rt: &R,
    alloc: Global,
    words: &Words,
    place: &mut SeatAt,
    my_word: u64,
    mut outer: OuterBox,
    mut growing: Growing,
)
    requires table { IsOf place.old words.now }
    requires begins { (o : Outer) × Begins place.old.me.0 o × (growing.list ≡ o.signals) × (outer.journal ≡ (removed o).journal) }
    requires slots { place.old.me.1 ≡ outer_out ∷ [] }
    requires bare { (place.old.me.0.parts ≡ []) × (place.old.me.0.saw_off ≡ false) }
    requires due { (place.old.me.0.role ≡ true) × (place.old.me.0.due ≡ true) }
    requires somebody { IsSomebody place.old.me.0 × (my_word ≡ number place.old.me.0 + 1) }
    requires room { BUFFERS ≤ growing.spare }
    ensures same { IsSameSeat place.new place.old }
    ensures bare { place.new.me.1 ≡ [] }
    ensures removed { place.new.me.0 ≡ record (waits place.old.me.0 place.new.me.0) {
      held = None;
      removing = false;
      progress = 0;
      due = false;
    } }
    ensures tries { WaitedOneByOne BUFFERS place.old.me.0 place.new.me.0 }
{
    // The mode goes off before the first buffer is passed. Were it on, a sender could append to a buffer
    // behind the removal, and its later puts into the outer list would come out first. And it stays off
    // until all 64 are passed: `the_removal_ends_early`.
    mode_off(words, place);
    pass_all(rt, alloc, words, place, my_word, &mut growing);
    outer.fill(growing.into_pieces());
    put_value(words, place, outer);
    leave_remove(words, place);
}

// Under the outer turn. The memory is taken first.
fn remove_held<R: Wait>(
    rt: &R,
    alloc: Global,
    words: &Words,
    place: &mut SeatAt,
    my_word: u64,
) -> Result<(), AllocError>
    requires table { IsOf place.old words.now }
    requires begins { (o : Outer) × Begins place.old.me.0 o × (place.old.me.1 ≡ (0, Slot.Outer o) ∷ []) }
    requires bare { (place.old.me.0.parts ≡ []) × (place.old.me.0.saw_off ≡ false) }
    requires due { (place.old.me.0.role ≡ true) × (place.old.me.0.due ≡ true) }
    requires somebody { IsSomebody place.old.me.0 × (my_word ≡ number place.old.me.0 + 1) }
    ensures same { IsSameSeat place.new place.old }
    ensures bare { place.new.me.1 ≡ [] }
    ensures ok { OnOk result (place.new.me.0 ≡ record (waits place.old.me.0 place.new.me.0) {
      held = None;
      removing = false;
      progress = 0;
      due = false;
    }) }
    ensures err { OnErr result (place.new.me.0 ≡ after_same place.old.me.0) }
    ensures tries { OnOk result (WaitedOneByOne BUFFERS place.old.me.0 place.new.me.0) }
{
    let mut outer = take_value(words, place);
    match outer.grow(alloc, BUFFERS) {
        Ok(growing) => {
            remove_with_room(rt, alloc, words, place, my_word, outer, growing);
            Ok(())
        }
        Err(error) => {
            put_value(words, place, outer);
            leave_same(words, place);
            Err(error)
        }
    }
}

impl SigQueue {
    /// Whether the last fetch of the seat made a removal due that wasn't made yet.
    pub fn removal_due(seat: &QSeat) -> bool
        ensures { result ≡ seat.now.knows.due }
    {
        seat.kept.due
    }

    /// Takes the mode off and moves what lies in the buffers behind the outer list. It may wait for
    /// other seats. Fails only for want of memory; all is as before then, and the removal still
    /// due.
    ///
    /// Asks that the seat is of this queue and has the receiver's role, and that a removal is due,
    /// as [`SigQueue::removal_due`] tells.
    pub fn remove<R: Wait>(&self, rt: &R, seat: &mut QSeat) -> Result<(), AllocError>
        requires own { seat.old.queue ≡ self.now.id }
        requires due { (seat.old.knows.role ≡ true) × (seat.old.knows.due ≡ true) }
        ensures own { seat.new.queue ≡ seat.old.queue }
        ensures ok { OnOk result (seat.new.knows ≡ record (waited seat.old.knows seat.new.knows) { due = false }) }
        ensures err { OnErr result (seat.new.knows ≡ waited seat.old.knows seat.new.knows) }
        ensures all { OnOk result (WaitedForAll seat.old.knows seat.new.knows) }
        ensures outer { OnErr result (WaitedForOuter seat.old.knows seat.new.knows) }
    {
        let words = &self.words;
        let my_word = seat.kept.number + 1;
        seat.kept.refused = wait_outer(rt, words, &mut seat.place, my_word, seat.kept.refused);
        remove_held(rt, self.alloc, words, &mut seat.place, my_word)?;
        seat.kept.due = false;
        Ok(())
    }
}
