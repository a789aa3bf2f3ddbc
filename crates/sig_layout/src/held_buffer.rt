use sig_kinds::Signal;
use sig_lists::Sequence;

/// A buffer whose turn a seat holds. No value of it is made.
pub struct HeldBuffer {
    /// From 0 to 63.
    pub number: u64,
    /// The list that the seat found in it.
    pub list: Sequence<Signal>,
    /// The seat has set the buffer's bit.
    pub set: bool,
    /// The seat saw the mode on under this turn.
    pub sure: bool,
}
