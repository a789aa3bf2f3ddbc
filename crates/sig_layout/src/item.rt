use crate::via::Via;
use sig_kinds::Signal;

/// A signal that was put, with its way. No value of it is made.
pub struct Item {
    pub signal: Signal,
    /// Where it was put.
    pub via: Via,
}
