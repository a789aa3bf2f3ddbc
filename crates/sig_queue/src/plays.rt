//! What each step on the table tells. No value of these types is made.
ghost use Rattle.sig_layout.specs.Views.{left_of, right_of, note_of, joined, spent};
ghost use Rattle.sig_layout.specs.declared.setup.Setup.{Setup};
ghost use Rattle.sig_layout.specs.declared.policy.Policy.{Policy};
ghost use Rattle.sig_layout.specs.declared.policy.Policy.TheVariants.{Never};
ghost use Rattle.std.specs.Prelude.{Bool, ℕ, List, false};
ghost use Rattle.sig_layout.specs.Sets.{no_senders};
ghost use Rattle.sig_queue.specs.Tied.{no_setup, tried_outer, tried_buffer, loaded_mode, loaded_under, loaded_filled, looked_only};
ghost use Rattle.sig_queue.specs.Tied.{bit_set, bits_taken, bit_back, stored_on, stored_off};
ghost use Rattle.sig_queue.specs.Tied.{left_put, left_same, left_fetch, left_remove, left_buffer_put, left_buffer, left_part, left_passed};

use crate::slot::Slot;
use atomic_table::{Join, Play, Split};
use sig_layout::Knows;
use std::marker::{Brand, PhantomData};

/// What the queue was opened with. The caller's proof picks it.
pub(crate) trait Opened {
    ghost setup: { Setup };
}

impl Opened for Brand {
    ghost setup = { no_setup };
}

pub(crate) struct TryOuter<G> {
    opened: PhantomData<G>,
}

impl<G: Opened> Play<Slot, Knows> for TryOuter<G> {
    ghost then = { tried_outer G.setup };
}

pub(crate) struct TryBuffer;

impl Play<Slot, Knows> for TryBuffer {
    ghost then = { tried_buffer };
}

/// The policy of the queue. The caller's proof picks it.
pub(crate) trait Ruled {
    ghost policy: { Policy };
}

impl Ruled for Brand {
    ghost policy = { Never };
}

pub(crate) struct LoadMode<G> {
    ruled: PhantomData<G>,
}

impl<G: Ruled> Play<Slot, Knows> for LoadMode<G> {
    ghost then = { loaded_mode G.policy };
}

pub(crate) struct LoadUnder<G> {
    ruled: PhantomData<G>,
}

impl<G: Ruled> Play<Slot, Knows> for LoadUnder<G> {
    ghost then = { loaded_under G.policy };
}

pub(crate) struct LoadFilled;

impl Play<Slot, Knows> for LoadFilled {
    ghost then = { loaded_filled };
}

pub(crate) struct SetBit;

impl Play<Slot, Knows> for SetBit {
    ghost then = { bit_set };
}

pub(crate) struct TakeBits;

impl Play<Slot, Knows> for TakeBits {
    ghost then = { bits_taken };
}

/// Which buffer's bit is set again. The caller's proof picks it.
pub(crate) trait Which {
    ghost buffer: { ℕ };
}

impl Which for Brand {
    ghost buffer = { 0 };
}

pub(crate) struct SetBack<G> {
    which: PhantomData<G>,
}

impl<G: Which> Play<Slot, Knows> for SetBack<G> {
    ghost then = { bit_back G.buffer };
}

pub(crate) struct StoreOn;

impl Play<Slot, Knows> for StoreOn {
    ghost then = { stored_on };
}

pub(crate) struct StoreOff;

impl Play<Slot, Knows> for StoreOff {
    ghost then = { stored_off };
}

pub(crate) struct LeavePut;

impl Play<Slot, Knows> for LeavePut {
    ghost then = { left_put };
}

pub(crate) struct LeaveSame;

impl Play<Slot, Knows> for LeaveSame {
    ghost then = { left_same };
}

/// Whether a fetch leaves a removal due, and what the queue was opened with. The caller's proof picks
/// both.
pub(crate) trait Leaves {
    ghost due: { Bool };

    ghost setup: { Setup };
}

impl Leaves for Brand {
    ghost due = { false };

    ghost setup = { no_setup };
}

pub(crate) struct LeaveFetch<G> {
    leaves: PhantomData<G>,
}

impl<G: Leaves> Play<Slot, Knows> for LeaveFetch<G> {
    ghost then = { left_fetch G.setup G.due };
}

pub(crate) struct LeaveRemove;

impl Play<Slot, Knows> for LeaveRemove {
    ghost then = { left_remove };
}

pub(crate) struct LeaveBufferPut;

impl Play<Slot, Knows> for LeaveBufferPut {
    ghost then = { left_buffer_put };
}

pub(crate) struct LeaveBuffer;

impl Play<Slot, Knows> for LeaveBuffer {
    ghost then = { left_buffer };
}

pub(crate) struct LeavePart;

impl Play<Slot, Knows> for LeavePart {
    ghost then = { left_part };
}

pub(crate) struct LeavePassed;

impl Play<Slot, Knows> for LeavePassed {
    ghost then = { left_passed };
}

pub(crate) struct LookOnly;

impl Play<Slot, Knows> for LookOnly {
    ghost then = { looked_only };
}

/// What a split gives away. The caller's proof picks it.
pub(crate) trait Share {
    ghost given: { List ℕ };

    ghost role: { Bool };
}

impl Share for Brand {
    ghost given = { no_senders };

    ghost role = { false };
}

pub(crate) struct Cut<G> {
    share: PhantomData<G>,
}

impl<G: Share> Split<Knows> for Cut<G> {
    ghost left = { λ v. left_of v G.given G.role };

    ghost right = { λ v. right_of v G.given G.role };
}

pub(crate) struct Tell;

impl Split<Knows> for Tell {
    ghost left = { λ v. v };

    ghost right = { note_of };
}

pub(crate) struct Merge;

impl Join<Knows> for Merge {
    ghost both = { joined };

    ghost spent = { spent };
}
