use crate::outer_box::OuterBox;
use sig_layout::Batch;

/// What a slot of the table has.
#[derive(Drop)]
pub enum Slot {
    /// The outer value.
    Outer(OuterBox),
    /// The list of a buffer.
    List(Batch),
    /// Nothing, while the value is out.
    Out,
}
