//! How a fetch finds its buffers.
ghost use Rattle.std.specs.Prelude.{take, drop, ◌≡◌, ℕ, ◌+◌, ◌<◌, ◌≤◌, ◌++◌, [], ◌∷◌, length, true, false, Some, IfSome};
ghost use Rattle.sig_layout.specs.declared.outer.Outer.{Outer};
ghost use Rattle.sig_layout.specs.declared.knows.Knows.{Knows};
ghost use Rattle.sig_layout.specs.Views.{number, IsSomebody, filled_at, with_bits};
ghost use Rattle.sig_queue.specs.Fetching.{Finding, outer_out};
ghost use Rattle.sig_queue.specs.SeatWords.{IsOf, IsBufferOf, IsSameSeat};

use crate::rule::SeatAt;
use crate::words::Words;
use crate::words::buffer_steps::{list_len, try_buffer};
use crate::words::steps::set_back;
use sig_layout::BUFFERS;
use std::marker::Brand;

/// What a fetch found.
#[derive(Drop)]
pub(crate) struct Caught {
    /// The buffers whose turns it holds, as bits.
    pub(crate) held: u64,
    /// The buffers that it skipped, since another seat held their turns, as bits.
    pub(crate) skipped: u64,
    /// How many turns it holds.
    pub(crate) count: usize,
    /// How many signals lie there, where that can be counted.
    pub(crate) total: Option<usize>,
}

// The first buffer from this one on whose bit is set, or `BUFFERS` where there is none.
pub(crate) fn next_bit(bits: u64, from: usize) -> usize
    requires { from ≤ BUFFERS }
    ensures within { (from ≤ result) × (result ≤ BUFFERS) }
    ensures passed { (c : ℕ) → from ≤ c → c < result → filled_at bits c ≡ false }
    ensures set { result < BUFFERS → filled_at bits result ≡ true }
{
    if from >= BUFFERS {
        return BUFFERS;
    }
    let left = bits >> from;
    if left == 0 {
        return BUFFERS;
    }
    from + left.trailing_zeros() as usize
}

// The slot that was taken so many before the last comes to the front.
pub(crate) fn bring_front(place: &mut SeatAt, count: usize)
    requires { count < length place.old.me.1 }
    ensures same { IsSameSeat place.new place.old }
    ensures round { place.new.me ≡ (place.old.me.0, drop count place.old.me.1 ++ take count place.old.me.1) }
{
    for _ in 0..count {
        place.turn();
    }
}

fn plus(total: Option<usize>, found: usize) -> Option<usize>
    ensures { IfSome result (λ t. (u : ℕ) × (total ≡ Some u) × (t ≡ u + found)) }
{
    match total {
        Some(total) => total.checked_add(found),
        None => None,
    }
}

// Tries the turn of a buffer of the mask. It is held from now on where it was free, and else its bit is set again.
fn find_one(words: &Words, place: &mut SeatAt, found: &mut Caught, buffer: usize, my_word: u64)
    requires table { IsBufferOf place.old words.now buffer }
    requires finding { (v : Knows) × (n : ℕ) × Finding v n buffer place.old.me found.old × (filled_at n buffer ≡ true)
        × (v.saw_off ≡ false) }
    requires fetching { ((o : Outer) × (place.old.me.0.held ≡ Some o)) × (place.old.me.0.fetching ≡ true) }
    requires somebody { IsSomebody place.old.me.0 × (my_word ≡ number place.old.me.0 + 1) }
    ensures same { IsSameSeat place.new place.old }
    ensures finding { (v : Knows) (n : ℕ) → Finding v n buffer place.old.me found.old → filled_at n buffer ≡ true
        → v.saw_off ≡ false → Finding v n (buffer + 1) place.new.me found.new }
{
    if try_buffer(words, place, buffer, my_word) != 0 {
        // What lies there stays, so its bit has to stand: `a_skipped_buffer_loses_its_bit`.
        set_back::<Brand>(words, place, buffer);
        found.skipped |= 1u64 << buffer;
        return;
    }
    found.held |= 1u64 << buffer;
    found.count += 1;
    let length = list_len(words, place, buffer);
    found.total = plus(found.total, length);
}

// Tries each buffer of the mask once, by ascending number as their lists are taken: `buffers_by_descending_number`.
pub(crate) fn find_all(words: &Words, place: &mut SeatAt, bits: u64, my_word: u64) -> Caught
    requires table { IsOf place.old words.now }
    requires begins { (v : Knows) × (place.old.me ≡ (with_bits v bits, outer_out ∷ [])) × (v.parts ≡ [])
        × (v.saw_off ≡ false) × ((o : Outer) × (v.held ≡ Some o)) }
    requires somebody { IsSomebody place.old.me.0 × (my_word ≡ number place.old.me.0 + 1) }
    ensures same { IsSameSeat place.new place.old }
    ensures found { Finding place.old.me.0 bits BUFFERS place.new.me result }
{
    let mut found = Caught {
        held: 0,
        skipped: 0,
        count: 0,
        total: Some(0),
    };
    let mut buffer = next_bit(bits, 0);
    while buffer < BUFFERS {
        find_one(words, place, &mut found, buffer, my_word);
        buffer = next_bit(bits, buffer + 1);
    }
    found
}
