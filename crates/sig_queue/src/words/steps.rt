//! One function for each kind of step on OUTER, MODE and FILLED. Each is tied to the step of the core that has its name.
ghost use Rattle.std.specs.Prelude.{◌≡◌, ◌≢◌, ◌+◌, ◌<◌, ◌++◌, [], ◌∷◌, true, false, Some, None, IfOk, IfErr};
ghost use Rattle.atomic_table.specs.Table.{rest};
ghost use Rattle.sig_layout.specs.declared.layout.TheConstants.{BUFFERS};
ghost use Rattle.sig_layout.specs.declared.outer.Outer.{Outer};
ghost use Rattle.sig_kinds.specs.declared.signal.Signal.{Signal};
ghost use Rattle.sig_layout.specs.declared.entry.Entry.TheVariants.{Direct};
ghost use Rattle.sig_layout.specs.Sets.{has};
ghost use Rattle.sig_layout.specs.Openings.{IsNext};
ghost use Rattle.sig_layout.specs.Core.{some_refused};
ghost use Rattle.sig_layout.specs.Summaries.{due_at, is_install, is_remove};
ghost use Rattle.sig_layout.specs.Policies.{AllowsMode};
ghost use Rattle.sig_layout.specs.Core.{Begins, Unmasked};
ghost use Rattle.sig_layout.specs.Views.{number, IsSomebody, flag, holding, turned_away, saw, saw_under, counted, marked};
ghost use Rattle.sig_layout.specs.Views.{after_put, after_same, after_fetch, after_remove};
ghost use Rattle.sig_layout.specs.Views.{switched_on, switched_off, with_bits, given_back};
ghost use Rattle.sig_layout.specs.Outers.{added, emptied, removed};
ghost use Rattle.sig_queue.specs.Tied.{Foreign, FoundOuter, FreshBut, TookCarried, outer_in};
ghost use Rattle.sig_queue.specs.Parts.{first_part, IsOne};
ghost use Rattle.sig_queue.specs.SeatWords.{IsOf, IsBufferOf, IsSameSeat, key_of, table_of};

use super::Words;
use crate::outer_box::OuterBox;
use crate::plays::{
    LeaveFetch, LeavePut, LeaveRemove, LeaveSame, Leaves, LoadFilled, LoadMode, LoadUnder, Opened,
    Ruled, SetBack, SetBit, StoreOff, StoreOn, TakeBits, TryOuter, Which,
};
use crate::rule::SeatAt;
use crate::slot::Slot;
use sig_kinds::Signal;
use sig_layout::{FILLED, MODE, OUTER, Policy};
use std::marker::Brand;

// The step of a try of the outer turn. The proof picks `G` by the queue's opening.
fn step_outer<G: Opened>(words: &Words, place: &mut SeatAt, my_word: u64) -> u64
    requires table { IsOf place.old words.now }
    requires picked { G.setup ≡ key_of words.now }
    requires idle { (place.old.me.0.held ≡ None) × IsSomebody place.old.me.0 × (my_word ≡ number place.old.me.0 + 1) }
    ensures same { IsSameSeat place.new place.old }
    ensures took { result ≡ 0 → (o : Outer) × (place.new.me ≡ (holding place.old.me.0 o, (0, Slot.Outer o) ∷ place.old.me.1)) }
    ensures refused { result ≢ 0 → (place.new.me ≡ (turned_away place.old.me.0 result, place.old.me.1)) × Foreign place.old.me.0 result }
    ensures found { result ≡ 0 → FoundOuter (key_of words.now) place.old.me.0 (outer_in place.new.me.1) }
{
    words
        .table
        .shared
        .compare_exchange::<TryOuter<G>>(place, OUTER, 0, my_word)
}

// Tries the outer turn once.
pub(crate) fn try_outer(words: &Words, place: &mut SeatAt, my_word: u64) -> u64
    requires table { IsOf place.old words.now }
    requires idle { (place.old.me.0.held ≡ None) × IsSomebody place.old.me.0 × (my_word ≡ number place.old.me.0 + 1) }
    ensures same { IsSameSeat place.new place.old }
    ensures took { result ≡ 0 → (o : Outer) × (place.new.me ≡ (holding place.old.me.0 o, (0, Slot.Outer o) ∷ place.old.me.1)) }
    ensures refused { result ≢ 0 → (place.new.me ≡ (turned_away place.old.me.0 result, place.old.me.1)) × Foreign place.old.me.0 result }
    ensures found { result ≡ 0 → FoundOuter (key_of words.now) place.old.me.0 (outer_in place.new.me.1) }
{
    step_outer::<Brand>(words, place, my_word)
}

// The outer value out.
pub(crate) fn take_value(words: &Words, place: &mut SeatAt) -> OuterBox
    requires table { place.old.table_id ≡ table_of words.now }
    requires out { (o : Outer) × (place.old.me.1 ≡ (0, Slot.Outer o) ∷ rest place.old.me.1) }
    ensures same { IsSameSeat place.new place.old }
    ensures taken { place.new.me ≡ (place.old.me.0, (0, Slot.Out) ∷ rest place.old.me.1) }
    ensures value { place.old.me.1 ≡ (0, Slot.Outer result) ∷ rest place.old.me.1 }
{
    match words.table.shared.exchange(place, 0, Slot::Out) {
        Slot::Outer(outer) => outer,
        _ => unreachable!(),
    }
}

// One more signal in the outer value, with its entries. The value stays in its slot. It tells whether
// the put makes an install due. Where there is no memory for it, the signal comes back.
pub(crate) fn push_outer(
    words: &Words,
    place: &mut SeatAt,
    signal: Signal,
    refused: bool,
    policy: Policy,
) -> Result<bool, Signal>
    requires table { place.old.table_id ≡ table_of words.now }
    requires out { (o : Outer) × (place.old.me.1 ≡ (0, Slot.Outer o) ∷ rest place.old.me.1) }
    ensures same { IsSameSeat place.new place.old }
    ensures due { IfOk result (λ switched. switched ≡
        is_install (due_at policy ((outer_in place.old.me.1).journal ++ Direct refused ∷ []))) }
    ensures ok { IfOk result (λ switched. place.new.me ≡ (
      place.old.me.0,
      (0, Slot.Outer (added (outer_in place.old.me.1) signal refused switched)) ∷ rest place.old.me.1,
    )) }
    ensures err { IfErr result (λ s. (s ≡ signal) × (place.new.me ≡ place.old.me)) }
{
    match place.slot_mut(&words.table.shared, 0) {
        Slot::Outer(outer) => outer.put(signal, refused, policy),
        _ => unreachable!(),
    }
}

// The outer value back.
pub(crate) fn put_value(words: &Words, place: &mut SeatAt, outer: OuterBox)
    requires table { place.old.table_id ≡ table_of words.now }
    requires out { place.old.me.1 ≡ (0, Slot.Out) ∷ rest place.old.me.1 }
    ensures same { IsSameSeat place.new place.old }
    ensures back { place.new.me ≡ (place.old.me.0, (0, Slot.Outer outer) ∷ rest place.old.me.1) }
{
    words.table.shared.exchange(place, 0, Slot::Outer(outer));
}

// Leaves the outer turn with one more signal, which lies in the slot.
pub(crate) fn leave_put(words: &Words, place: &mut SeatAt)
    requires table { IsOf place.old words.now }
    requires held { (o : Outer) × (x : Signal) × (place.old.me.0.held ≡ Some o)
        × (place.old.me.0.switched
        ≡ is_install (due_at (key_of words.now).policy (o.journal ++ Direct (some_refused place.old.me.0.refused) ∷ [])))
        × (has place.old.me.0.senders x.from.0 ≡ true) × IsNext (key_of words.now) place.old.me.0.put x
        × (place.old.me.1
        ≡ (0, Slot.Outer (added o x (some_refused place.old.me.0.refused) place.old.me.0.switched)) ∷ rest place.old.me.1) }
    requires nothing { (place.old.me.0.fetching ≡ false) × (place.old.me.0.removing ≡ false) }
    requires off { place.old.me.0.saw_off ≡ true }
    ensures same { IsSameSeat place.new place.old }
    ensures put { place.new.me ≡ (after_put place.old.me.0 (outer_in place.old.me.1), rest place.old.me.1) }
{
    words.table.shared.store::<LeavePut>(place, OUTER, 0);
}

// Leaves the outer turn with the value as it was found.
pub(crate) fn leave_same(words: &Words, place: &mut SeatAt)
    requires table { IsOf place.old words.now }
    requires held { (o : Outer) × (place.old.me.0.held ≡ Some o) × (place.old.me.1 ≡ (0, Slot.Outer o) ∷ rest place.old.me.1) }
    requires nothing { (place.old.me.0.removing ≡ false) × (place.old.me.0.switched ≡ false)
        × (place.old.me.0.fetching ≡ true → Unmasked place.old.me.0) }
    ensures same { IsSameSeat place.new place.old }
    ensures left { place.new.me ≡ (after_same place.old.me.0, rest place.old.me.1) }
{
    words.table.shared.store::<LeaveSame>(place, OUTER, 0);
}

// Leaves the outer turn with all taken. The last argument is for the proof, which picks `G` by it.
pub(crate) fn leave_fetch<G: Leaves>(words: &Words, place: &mut SeatAt, due: bool)
    requires table { IsOf place.old words.now }
    requires picked { (G.due ≡ due) × (G.setup ≡ key_of words.now) }
    requires held { (o : Outer) × (place.old.me.0.held ≡ Some o)
        × (due ≡ is_remove (due_at (key_of words.now).policy (emptied o place.old.me.0.moved).journal))
        × (place.old.me.1 ≡ (0, Slot.Outer (emptied o place.old.me.0.moved)) ∷ rest place.old.me.1) }
    requires fetching { (place.old.me.0.fetching ≡ true) × (place.old.me.0.removing ≡ false)
        × (place.old.me.0.switched ≡ false) × Unmasked place.old.me.0 }
    requires role { (place.old.me.0.role ≡ true) × (place.old.me.0.due ≡ false) }
    ensures same { IsSameSeat place.new place.old }
    ensures took { place.new.me ≡ (after_fetch place.old.me.0 due, rest place.old.me.1) }
    ensures fresh { FreshBut place.old.me.0.back (after_fetch place.old.me.0 due) }
    ensures carried { TookCarried (key_of words.now) (after_fetch place.old.me.0 due) }
{
    words.table.shared.store::<LeaveFetch<G>>(place, OUTER, 0);
}

// Leaves the outer turn with all buffers passed.
pub(crate) fn leave_remove(words: &Words, place: &mut SeatAt)
    requires table { IsOf place.old words.now }
    requires held { (o : Outer) × (place.old.me.0.held ≡ Some o) × (place.old.me.1 ≡ (0, Slot.Outer (removed o)) ∷ rest place.old.me.1) }
    requires removing { (place.old.me.0.fetching ≡ false) × (place.old.me.0.removing ≡ true)
        × (place.old.me.0.switched ≡ false) × (place.old.me.0.progress ≡ BUFFERS) × (place.old.me.0.role ≡ true)
        × (place.old.me.0.due ≡ true) }
    ensures same { IsSameSeat place.new place.old }
    ensures left { place.new.me ≡ (after_remove place.old.me.0, rest place.old.me.1) }
{
    words.table.shared.store::<LeaveRemove>(place, OUTER, 0);
}

// Whether the mode is on. The proof picks `G` by the policy.
pub(crate) fn load_mode<G: Ruled>(words: &Words, place: &mut SeatAt) -> bool
    requires table { IsOf place.old words.now }
    requires picked { G.policy ≡ (key_of words.now).policy }
    requires idle { place.old.me.0.held ≡ None }
    ensures same { IsSameSeat place.new place.old }
    ensures saw { place.new.me ≡ (saw place.old.me.0 result, place.old.me.1) }
    ensures allowed { AllowsMode (key_of words.now).policy result }
{
    words.table.shared.load::<LoadMode<G>>(place, MODE) == 1
}

// Whether the mode is on, under the turn of a buffer.
pub(crate) fn load_under<G: Ruled>(words: &Words, place: &mut SeatAt, buffer: usize) -> bool
    requires table { IsBufferOf place.old words.now buffer }
    requires picked { G.policy ≡ (key_of words.now).policy }
    requires idle { place.old.me.0.held ≡ None }
    requires one { IsOne place.old.me.0.parts buffer }
    ensures same { IsSameSeat place.new place.old }
    ensures saw { place.new.me ≡ (saw_under place.old.me.0 (first_part place.old.me.0.parts) result, place.old.me.1) }
    ensures allowed { AllowsMode (key_of words.now).policy result }
{
    words.table.shared.load::<LoadUnder<G>>(place, MODE) == 1
}

pub(crate) fn load_filled(words: &Words, place: &mut SeatAt) -> u64
    requires table { IsOf place.old words.now }
    ensures same { IsSameSeat place.new place.old }
    ensures counted { place.new.me ≡ (counted place.old.me.0 result, place.old.me.1) }
{
    words.table.shared.load::<LoadFilled>(place, FILLED)
}

// Stores the mode on, where the put that comes makes an install due.
pub(crate) fn mode_on(words: &Words, place: &mut SeatAt)
    requires table { IsOf place.old words.now }
    requires begins { (o : Outer) × Begins place.old.me.0 o
        × (is_install (due_at (key_of words.now).policy (o.journal ++ Direct (some_refused place.old.me.0.refused) ∷ [])) ≡ true) }
    ensures same { IsSameSeat place.new place.old }
    ensures on { place.new.me ≡ (switched_on place.old.me.0, place.old.me.1) }
{
    words.table.shared.store::<StoreOn>(place, MODE, 1);
}

// Stores the mode off, where a removal is due.
pub(crate) fn mode_off(words: &Words, place: &mut SeatAt)
    requires table { IsOf place.old words.now }
    requires begins { (o : Outer) × Begins place.old.me.0 o }
    requires due { (place.old.me.0.saw_off ≡ false) × (place.old.me.0.role ≡ true) × (place.old.me.0.due ≡ true) }
    ensures same { IsSameSeat place.new place.old }
    ensures off { place.new.me ≡ (switched_off place.old.me.0, place.old.me.1) }
{
    words.table.shared.store::<StoreOff>(place, MODE, 0);
}

// Takes all bits.
pub(crate) fn take_bits(words: &Words, place: &mut SeatAt) -> u64
    requires table { IsOf place.old words.now }
    requires begins { (o : Outer) × Begins place.old.me.0 o }
    ensures same { IsSameSeat place.new place.old }
    ensures took { place.new.me ≡ (with_bits place.old.me.0 result, place.old.me.1) }
{
    words.table.shared.swap::<TakeBits>(place, FILLED, 0)
}

// Sets the bit of the buffer that the seat holds.
pub(crate) fn set_bit(words: &Words, place: &mut SeatAt, buffer: usize)
    requires table { IsBufferOf place.old words.now buffer }
    requires one { IsOne place.old.me.0.parts buffer × ((first_part place.old.me.0.parts).sure ≡ true) }
    ensures same { IsSameSeat place.new place.old }
    ensures set { place.new.me ≡ (marked place.old.me.0 (first_part place.old.me.0.parts), place.old.me.1) }
{
    words
        .table
        .shared
        .fetch_or::<SetBit>(place, FILLED, 1u64 << buffer);
}

// Gives a bit back that the fetch has. The proof picks `G` by the number.
pub(crate) fn set_back<G: Which>(words: &Words, place: &mut SeatAt, buffer: usize)
    requires table { IsBufferOf place.old words.now buffer }
    requires picked { G.buffer ≡ buffer }
    requires masked { ((o : Outer) × (place.old.me.0.held ≡ Some o)) × (place.old.me.0.fetching ≡ true)
        × (flag place.old.me.0.mask buffer ≡ true) }
    ensures same { IsSameSeat place.new place.old }
    ensures back { place.new.me ≡ (given_back place.old.me.0 buffer, place.old.me.1) }
{
    words
        .table
        .shared
        .fetch_or::<SetBack<G>>(place, FILLED, 1u64 << buffer);
}
