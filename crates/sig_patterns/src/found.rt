/// What the scan of a receive found.
#[derive(Clone, Copy, PartialEq, Eq)]
pub struct Found {
    /// The place of the message in the list, from 0.
    pub at: usize,
    /// The place of the clause that takes it, from 0.
    pub clause: usize,
}
