/// One entry of a queue's journal.
#[derive(Clone, Copy, PartialEq, Eq)]
pub enum Entry {
    /// A signal was put into the outer list.
    Direct {
        /// Whether the seat's tries of the outer turn were refused since its last such put.
        refused: bool,
    },
    /// All was fetched.
    Fetch {
        /// How many of the signals lay in buffers.
        moved: u64,
    },
    /// Buffers are in use from here on.
    Install,
    /// Buffers are out of use from here on.
    Remove,
}
