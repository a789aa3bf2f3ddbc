use crate::held_buffer::HeldBuffer;
use crate::item::Item;
use crate::outer::Outer;
use crate::senders::Senders;
use sig_kinds::Signal;
use sig_lists::Sequence;

/// What a seat knows. Contracts alone see it: no value of it is made.
pub struct Knows {
    /// Those for which it puts.
    pub senders: Senders,
    /// It is the receiver's: it fetches and removes.
    pub role: bool,
    /// Its last fetch made a removal due.
    pub due: bool,
    /// The outer value while the seat has the outer turn: as it was found, and behind it the lists
    /// of buffers that the seat emptied.
    pub held: Option<Outer>,
    /// It has the outer turn, and took the bits.
    pub fetching: bool,
    /// For each buffer whether the fetch has its bit yet.
    pub mask: Sequence<bool>,
    /// The bits that the fetch set again.
    pub back: u64,
    /// How many signals the fetch moved out of buffers.
    pub moved: u64,
    /// It has the outer turn, and stored the mode off.
    pub removing: bool,
    /// How many buffers the removal passed.
    pub progress: u64,
    /// It has the outer turn, and stored the mode on.
    pub switched: bool,
    /// It saw the mode off, and nothing happened since that makes that worthless.
    pub saw_off: bool,
    /// The buffers whose turns it holds, the one that it took first in front.
    pub parts: Sequence<HeldBuffer>,
    /// What was put for its senders.
    pub put: Sequence<Item>,
    /// What it was told to have been put, by each note that it learned.
    pub told: Sequence<Sequence<Item>>,
    /// What was fetched, where it has the role.
    pub taken: Sequence<Signal>,
    /// How often, where it has the role.
    pub fetches: u64,
    /// The bits that the last fetch took, where it has the role.
    pub bits: u64,
    /// The buffers that the last fetch emptied, each with what lay there, the one that it emptied
    /// first in front, where it has the role.
    pub emptied: Sequence<HeldBuffer>,
    /// How many tries of the outer turn were refused since its last put into the outer list.
    pub refused: u64,
    /// Each try of a turn, with the word's number and the value found there: 0 where the turn was
    /// free, and is the seat's then. A refusal is a try that found another value.
    pub tries: Sequence<(u64, u64)>,
    /// Each load of the mode or of the bits, with the word's number and the value that it gave.
    pub loads: Sequence<(u64, u64)>,
}
