//! The second half of an offer: to the outer list.
ghost use Rattle.std.specs.Prelude.{◌≡◌, ◌+◌, ◌++◌, [], ◌∷◌, true, false, None};
ghost use Rattle.sig_layout.specs.Sets.{has};
ghost use Rattle.sig_layout.specs.Openings.{IsNext};
ghost use Rattle.sig_layout.specs.declared.outer.Outer.{Outer};
ghost use Rattle.sig_layout.specs.declared.entry.Entry.TheVariants.{Direct};
ghost use Rattle.sig_layout.specs.Summaries.{due_at, is_install};
ghost use Rattle.sig_layout.specs.Core.{Begins, some_refused};
ghost use Rattle.sig_layout.specs.Views.{number, IsSomebody};
ghost use Rattle.sig_queue.specs.Calls.{PutHeld, OfferedToOuter};
ghost use Rattle.sig_queue.specs.SeatWords.{IsOf, IsSameSeat, key_of};

use crate::offer::Offer;
use crate::rule::SeatAt;
use crate::slot::Slot;
use crate::words::Words;
use crate::words::steps::{leave_put, leave_same, mode_on, push_outer, try_outer};
use sig_kinds::Signal;
use sig_layout::{Policy, Via};

// Stores the mode on where the put makes an install due.
fn install_if(words: &Words, place: &mut SeatAt, switched: bool)
    requires table { IsOf place.old words.now }
    requires begins { (o : Outer) × Begins place.old.me.0 o
        × (switched ≡ is_install (due_at (key_of words.now).policy (o.journal ++ Direct (some_refused place.old.me.0.refused) ∷ []))) }
    ensures same { IsSameSeat place.new place.old }
    ensures switched { place.new.me ≡ (record place.old.me.0 { switched = switched }, place.old.me.1) }
{
    if switched {
        mode_on(words, place);
    }
}

// Under the outer turn: the signal joins the outer list, and the turn is left.
fn put_held(
    words: &Words,
    place: &mut SeatAt,
    signal: Signal,
    refused: &mut bool,
    policy: Policy,
) -> Offer
    requires table { IsOf place.old words.now }
    requires policy { (key_of words.now).policy ≡ policy }
    requires begins { (o : Outer) × Begins place.old.me.0 o × (place.old.me.1 ≡ (0, Slot.Outer o) ∷ []) }
    requires off { place.old.me.0.saw_off ≡ true }
    requires blank { (place.old.me.0.mask ≡ []) × (place.old.me.0.back ≡ 0) × (place.old.me.0.moved ≡ 0) }
    requires from { has place.old.me.0.senders signal.from.0 ≡ true }
    requires next { IsNext (key_of words.now) place.old.me.0.put signal }
    requires refused { refused.old ≡ some_refused place.old.me.0.refused }
    ensures same { IsSameSeat place.new place.old }
    ensures bare { place.new.me.1 ≡ [] }
    ensures offered { PutHeld signal place.old.me.0 result place.new.me.0 }
    ensures refused { refused.new ≡ some_refused place.new.me.0.refused }
{
    match push_outer(words, place, signal, *refused, policy) {
        Ok(switched) => {
            // The mode goes on under the turn, with the entry of the install, so that no other seat
            // finds one of the two without the other: `the_install_is_stored_after_the_turn`.
            install_if(words, place, switched);
            leave_put(words, place);
            *refused = false;
            Offer::Put { via: Via::Outer }
        }
        Err(signal) => {
            leave_same(words, place);
            Offer::Memory { signal }
        }
    }
}

// Offers to the outer list, where the outer turn is free.
pub(crate) fn offer_outer(
    words: &Words,
    place: &mut SeatAt,
    my_word: u64,
    signal: Signal,
    refused: &mut bool,
    policy: Policy,
) -> Offer
    requires table { IsOf place.old words.now }
    requires policy { (key_of words.now).policy ≡ policy }
    requires idle { (place.old.me.0.held ≡ None) × (place.old.me.0.fetching ≡ false)
        × (place.old.me.0.removing ≡ false) × (place.old.me.0.switched ≡ false) × (place.old.me.1 ≡ []) }
    requires off { place.old.me.0.saw_off ≡ true }
    requires blank { (place.old.me.0.mask ≡ []) × (place.old.me.0.back ≡ 0) × (place.old.me.0.moved ≡ 0) }
    requires somebody { IsSomebody place.old.me.0 × (my_word ≡ number place.old.me.0 + 1) }
    requires from { has place.old.me.0.senders signal.from.0 ≡ true }
    requires next { IsNext (key_of words.now) place.old.me.0.put signal }
    requires refused { refused.old ≡ some_refused place.old.me.0.refused }
    ensures same { IsSameSeat place.new place.old }
    ensures bare { place.new.me.1 ≡ [] }
    ensures offered { OfferedToOuter signal place.old.me.0 result place.new.me.0 }
    ensures refused { refused.new ≡ some_refused place.new.me.0.refused }
{
    let found = try_outer(words, place, my_word);
    if found != 0 {
        *refused = true;
        return Offer::Busy { signal, found };
    }
    put_held(words, place, signal, refused, policy)
}
