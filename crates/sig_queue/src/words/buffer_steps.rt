//! One function for each kind of step on the turn of a buffer.
ghost use Rattle.std.specs.Prelude.{◌≡◌, ◌≢◌, ◌+◌, ◌<◌, ◌++◌, [], ◌∷◌, List, length, true, false, Some, None, OnOk, IfErr};
ghost use Rattle.atomic_table.specs.Table.{rest};
ghost use Rattle.sig_kinds.specs.declared.signal.Signal.{Signal};
ghost use Rattle.sig_layout.specs.declared.layout.TheConstants.{BUFFERS};
ghost use Rattle.sig_layout.specs.Sets.{has};
ghost use Rattle.sig_layout.specs.Openings.{IsNext};
ghost use Rattle.sig_layout.specs.Core.{buffer_of};
ghost use Rattle.sig_layout.specs.Agree.{Apart};
ghost use Rattle.sig_layout.specs.Views.{number, IsSomebody, flag, gains, turned_away_at, loses, put_to_buffer, took_part, passed};
ghost use Rattle.sig_queue.specs.Tied.{Foreign, list_in};
ghost use Rattle.sig_queue.specs.Parts.{first_part, held_or, IsOne, IsFirst, OfBuffer};
ghost use Rattle.sig_queue.specs.SeatWords.{IsBufferOf, IsSameSeat, key_of, table_of};

use super::Words;
use crate::plays::{LeaveBuffer, LeaveBufferPut, LeavePart, LeavePassed, TryBuffer};
use crate::rule::SeatAt;
use crate::slot::Slot;
use sig_kinds::Signal;
use sig_layout::{APART, Batch, FIRST_TURN};

// Tries the turn of a buffer once.
pub(crate) fn try_buffer(words: &Words, place: &mut SeatAt, buffer: usize, my_word: u64) -> u64
    requires table { IsBufferOf place.old words.now buffer }
    requires apart { Apart buffer place.old.me.0.parts }
    requires somebody { IsSomebody place.old.me.0 × (my_word ≡ number place.old.me.0 + 1) }
    ensures same { IsSameSeat place.new place.old }
    ensures took { result ≡ 0 → (l : List Signal)
        × (place.new.me ≡ (gains place.old.me.0 buffer l, (buffer + 1, Slot.List l) ∷ place.old.me.1))
        × OfBuffer buffer l }
    ensures refused { result ≢ 0
        → (place.new.me ≡ (turned_away_at place.old.me.0 (buffer + 3) result, place.old.me.1))
        × Foreign place.old.me.0 result }
{
    words
        .table
        .shared
        .compare_exchange::<TryBuffer>(place, FIRST_TURN + buffer * APART, 0, my_word)
}

// How many signals lie in the list. It stays in its slot.
pub(crate) fn list_len(words: &Words, place: &mut SeatAt, buffer: usize) -> usize
    requires table { (place.old.table_id ≡ table_of words.now) × (buffer < BUFFERS) }
    requires out { (l : List Signal) × (place.old.me.1 ≡ (buffer + 1, Slot.List l) ∷ rest place.old.me.1) }
    ensures same { IsSameSeat place.new place.old }
    ensures still { place.new.me ≡ place.old.me }
    ensures length { (l : List Signal) × (place.old.me.1 ≡ (buffer + 1, Slot.List l) ∷ rest place.old.me.1) × (result ≡ length l) }
{
    match place.slot_mut(&words.table.shared, buffer + 1) {
        Slot::List(list) => list.len(),
        _ => unreachable!(),
    }
}

// One more signal at the end of the list, which stays in its slot. Where there is no memory for it,
// it comes back.
pub(crate) fn push_signal(
    words: &Words,
    place: &mut SeatAt,
    buffer: usize,
    signal: Signal,
) -> Result<(), Signal>
    requires table { (place.old.table_id ≡ table_of words.now) × (buffer < BUFFERS) }
    requires out { (l : List Signal) × (place.old.me.1 ≡ (buffer + 1, Slot.List l) ∷ rest place.old.me.1) }
    ensures same { IsSameSeat place.new place.old }
    ensures ok { OnOk result (place.new.me ≡ (
      place.old.me.0,
      (buffer + 1, Slot.List (list_in place.old.me.1 ++ signal ∷ [])) ∷ rest place.old.me.1,
    )) }
    ensures err { IfErr result (λ s. (s ≡ signal) × (place.new.me ≡ place.old.me)) }
{
    match place.slot_mut(&words.table.shared, buffer + 1) {
        Slot::List(list) => list.push(signal),
        _ => unreachable!(),
    }
}

// The list out.
pub(crate) fn take_list(words: &Words, place: &mut SeatAt, buffer: usize) -> Batch
    requires table { (place.old.table_id ≡ table_of words.now) × (buffer < BUFFERS) }
    requires out { (l : List Signal) × (place.old.me.1 ≡ (buffer + 1, Slot.List l) ∷ rest place.old.me.1) }
    ensures same { IsSameSeat place.new place.old }
    ensures taken { place.new.me ≡ (place.old.me.0, (buffer + 1, Slot.Out) ∷ rest place.old.me.1) }
    ensures list { place.old.me.1 ≡ (buffer + 1, Slot.List result) ∷ rest place.old.me.1 }
{
    match words.table.shared.exchange(place, buffer + 1, Slot::Out) {
        Slot::List(list) => list,
        _ => unreachable!(),
    }
}

// The list back.
pub(crate) fn put_list(words: &Words, place: &mut SeatAt, buffer: usize, list: Batch)
    requires table { (place.old.table_id ≡ table_of words.now) × (buffer < BUFFERS) }
    requires out { place.old.me.1 ≡ (buffer + 1, Slot.Out) ∷ rest place.old.me.1 }
    ensures same { IsSameSeat place.new place.old }
    ensures back { place.new.me ≡ (place.old.me.0, (buffer + 1, Slot.List list) ∷ rest place.old.me.1) }
{
    words
        .table
        .shared
        .exchange(place, buffer + 1, Slot::List(list));
}

// Leaves the buffer that was taken first, with its list as it was found.
pub(crate) fn leave_buffer(words: &Words, place: &mut SeatAt, buffer: usize)
    requires table { IsBufferOf place.old words.now buffer }
    requires first { IsFirst place.old.me.0.parts buffer }
    requires out { place.old.me.1 ≡ (buffer + 1, Slot.List (first_part place.old.me.0.parts).list) ∷ rest place.old.me.1 }
    ensures same { IsSameSeat place.new place.old }
    ensures left { place.new.me ≡ (loses place.old.me.0, rest place.old.me.1) }
{
    words
        .table
        .shared
        .store::<LeaveBuffer>(place, FIRST_TURN + buffer * APART, 0);
}

// Leaves the one buffer that the seat holds, with one more signal, which lies in the slot.
pub(crate) fn leave_buffer_put(words: &Words, place: &mut SeatAt, buffer: usize)
    requires table { IsBufferOf place.old words.now buffer }
    requires idle { (place.old.me.0.held ≡ None) × (place.old.me.0.saw_off ≡ false) }
    requires one { IsOne place.old.me.0.parts buffer × ((first_part place.old.me.0.parts).sure ≡ true)
        × ((first_part place.old.me.0.parts).set ≡ true) }
    requires out { (x : Signal) × (has place.old.me.0.senders x.from.0 ≡ true)
        × IsNext (key_of words.now) place.old.me.0.put x × (buffer_of x.from.0 ≡ buffer)
        × (place.old.me.1 ≡ (buffer + 1, Slot.List ((first_part place.old.me.0.parts).list ++ x ∷ [])) ∷ rest place.old.me.1) }
    ensures same { IsSameSeat place.new place.old }
    ensures left { place.new.me ≡ (put_to_buffer place.old.me.0 (list_in place.old.me.1), rest place.old.me.1) }
{
    words
        .table
        .shared
        .store::<LeaveBufferPut>(place, FIRST_TURN + buffer * APART, 0);
}

// Leaves the buffer that a fetch took first, empty.
pub(crate) fn leave_part(words: &Words, place: &mut SeatAt, buffer: usize)
    requires table { IsBufferOf place.old words.now buffer }
    requires first { IsFirst place.old.me.0.parts buffer }
    requires fetching { (place.old.me.0.held ≡ Some (held_or place.old.me.0.held)) × (place.old.me.0.fetching ≡ true)
        × (flag place.old.me.0.mask buffer ≡ true) }
    requires out { place.old.me.1 ≡ (buffer + 1, Slot.List []) ∷ rest place.old.me.1 }
    ensures same { IsSameSeat place.new place.old }
    ensures left { place.new.me ≡ (
      took_part place.old.me.0 (held_or place.old.me.0.held) (first_part place.old.me.0.parts),
      rest place.old.me.1,
    ) }
{
    words
        .table
        .shared
        .store::<LeavePart>(place, FIRST_TURN + buffer * APART, 0);
}

// Leaves the buffer that a removal passes, empty.
pub(crate) fn leave_passed(words: &Words, place: &mut SeatAt, buffer: usize)
    requires table { IsBufferOf place.old words.now buffer }
    requires first { IsFirst place.old.me.0.parts buffer }
    requires removing { (place.old.me.0.held ≡ Some (held_or place.old.me.0.held)) × (place.old.me.0.fetching ≡ false)
        × (place.old.me.0.removing ≡ true) × (place.old.me.0.progress ≡ buffer) }
    requires out { place.old.me.1 ≡ (buffer + 1, Slot.List []) ∷ rest place.old.me.1 }
    ensures same { IsSameSeat place.new place.old }
    ensures left { place.new.me ≡ (
      passed place.old.me.0 (held_or place.old.me.0.held) (first_part place.old.me.0.parts),
      rest place.old.me.1,
    ) }
{
    words
        .table
        .shared
        .store::<LeavePassed>(place, FIRST_TURN + buffer * APART, 0);
}
