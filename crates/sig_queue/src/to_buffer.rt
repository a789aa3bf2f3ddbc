//! The first half of an offer: to the sender's buffer.
ghost use Rattle.std.specs.Prelude.{◌≡◌, ◌+◌, ◌<◌, ◌++◌, [], ◌∷◌, true, false, None};
ghost use Rattle.atomic_table.specs.Table.{rest};
ghost use Rattle.sig_kinds.specs.declared.signal.Signal.{Signal};
ghost use Rattle.sig_layout.specs.Sets.{has};
ghost use Rattle.sig_layout.specs.Openings.{IsNext};
ghost use Rattle.sig_layout.specs.Core.{Idle, buffer_of};
ghost use Rattle.sig_layout.specs.Views.{number, IsSomebody, marked, put_to_buffer};
ghost use Rattle.sig_queue.specs.Tied.{list_in};
ghost use Rattle.sig_queue.specs.Parts.{first_part, IsOne};
ghost use Rattle.sig_queue.specs.Calls.{Under, OfferedToBuffer, AllowsToBuffer};
ghost use Rattle.sig_queue.specs.SeatWords.{IsBufferOf, IsSameSeat, key_of};

use crate::rule::SeatAt;
use crate::slot::Slot;
use crate::words::Words;
use crate::words::buffer_steps::{leave_buffer, leave_buffer_put, push_signal, try_buffer};
use crate::words::steps::{load_mode, load_under, set_bit};
use sig_kinds::Signal;
use std::marker::Brand;

/// What an offer to a buffer gave.
#[derive(Drop)]
pub(crate) enum ToBuffer {
    /// The mode was off; the signal comes back.
    Off(Signal),
    /// The signal was put.
    Put,
    /// Another seat held the buffer's turn; the signal, and the number of that seat plus 1.
    Busy(Signal, u64),
    /// There was no memory; the signal comes back.
    Memory(Signal),
}

// The signal came to the list of the buffer. Its bit is set, and then its turn is left.
fn leave_filled(words: &Words, place: &mut SeatAt, buffer: usize)
    requires table { IsBufferOf place.old words.now buffer }
    requires idle { (place.old.me.0.held ≡ None) × (place.old.me.0.saw_off ≡ false) }
    requires one { IsOne place.old.me.0.parts buffer × ((first_part place.old.me.0.parts).sure ≡ true) }
    requires out { (x : Signal) × (has place.old.me.0.senders x.from.0 ≡ true)
        × IsNext (key_of words.now) place.old.me.0.put x × (buffer_of x.from.0 ≡ buffer)
        × (place.old.me.1 ≡ (buffer + 1, Slot.List ((first_part place.old.me.0.parts).list ++ x ∷ [])) ∷ rest place.old.me.1) }
    ensures same { IsSameSeat place.new place.old }
    ensures left { place.new.me ≡ (
      put_to_buffer (marked place.old.me.0 (first_part place.old.me.0.parts)) (list_in place.old.me.1),
      rest place.old.me.1,
    ) }
{
    // The bit is set before the turn is left. Else a fetch in between would pass over this signal
    // though its sender knows that it was put: `the_bit_is_set_after_the_turn`.
    set_bit(words, place, buffer);
    leave_buffer_put(words, place, buffer);
}

// The seat has the turn of the buffer. It looks at the mode again, appends where it is on, and leaves the turn.
fn under_turn(words: &Words, place: &mut SeatAt, buffer: usize, signal: Signal) -> ToBuffer
    requires table { IsBufferOf place.old words.now buffer }
    requires idle { place.old.me.0.held ≡ None }
    requires one { IsOne place.old.me.0.parts buffer }
    requires from { (has place.old.me.0.senders signal.from.0 ≡ true) × (buffer_of signal.from.0 ≡ buffer) }
    requires next { IsNext (key_of words.now) place.old.me.0.put signal }
    requires out { place.old.me.1 ≡ (buffer + 1, Slot.List (first_part place.old.me.0.parts).list) ∷ [] }
    ensures same { IsSameSeat place.new place.old }
    ensures bare { place.new.me.1 ≡ [] }
    ensures offered { Under signal place.old.me.0 result place.new.me.0 }
    ensures allowed { AllowsToBuffer (key_of words.now).policy result }
{
    // A second load, under the turn: a removal may have passed this buffer since the first one, and
    // what is appended then would come out after later puts into the outer list. Without it:
    // `one_look_at_the_mode`.
    if !load_under::<Brand>(words, place, buffer) {
        leave_buffer(words, place, buffer);
        return ToBuffer::Off(signal);
    }
    if let Err(signal) = push_signal(words, place, buffer, signal) {
        leave_buffer(words, place, buffer);
        return ToBuffer::Memory(signal);
    }
    leave_filled(words, place, buffer);
    ToBuffer::Put
}

// Offers to the buffer: where the mode is on, and its turn is free.
pub(crate) fn offer_to_buffer(
    words: &Words,
    place: &mut SeatAt,
    buffer: usize,
    my_word: u64,
    signal: Signal,
) -> ToBuffer
    requires table { IsBufferOf place.old words.now buffer }
    requires idle { Idle place.old.me.0 × (place.old.me.1 ≡ []) }
    requires somebody { IsSomebody place.old.me.0 × (my_word ≡ number place.old.me.0 + 1) }
    requires from { (has place.old.me.0.senders signal.from.0 ≡ true) × (buffer_of signal.from.0 ≡ buffer) }
    requires next { IsNext (key_of words.now) place.old.me.0.put signal }
    ensures same { IsSameSeat place.new place.old }
    ensures bare { place.new.me.1 ≡ [] }
    ensures offered { OfferedToBuffer buffer signal place.old.me.0 result place.new.me.0 }
    ensures allowed { AllowsToBuffer (key_of words.now).policy result }
{
    if !load_mode::<Brand>(words, place) {
        return ToBuffer::Off(signal);
    }
    let found = try_buffer(words, place, buffer, my_word);
    if found != 0 {
        return ToBuffer::Busy(signal, found);
    }
    under_turn(words, place, buffer, signal)
}
