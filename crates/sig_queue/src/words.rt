//! The words of a queue and their one owner. The field is private to this file and to those below
//! it. Each function there makes one step on the table, without a loop, and
//! [`seat_steps::merge_note`] two; some look at the value in the slot that the seat took last, or
//! change it there. So everything else looks at a word only by a step that has a
//! contract, and what it finds stands in what the seat knows. The one load that isn't told stands in
//! `merge_note`, whose callers don't see it. The table's looks without a seat can't be called.
use crate::rule::QueueTable;

pub(crate) mod buffer_steps;
pub(crate) mod ends;
pub(crate) mod seat_steps;
pub(crate) mod steps;

/// The words of the turns, the mode and the bits, and the lists in slots.
#[derive(Drop)]
pub(crate) struct Words {
    table: QueueTable,
}
