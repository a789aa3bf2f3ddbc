use crate::receipt::Receipt;
use crate::rest::Rest;
use sig_layout::Journal;

/// What is left of a queue that was closed.
#[derive(Drop)]
pub struct Closed {
    /// The signals that were put and not fetched.
    pub rest: Rest,
    /// What happened under the outer turn.
    pub journal: Journal,
    /// What was put.
    pub receipt: Receipt,
}
