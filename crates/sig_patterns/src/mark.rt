use sig_terms::Ref;

/// The most marks that a process keeps.
pub const MOST_MARKS: usize = 8;

/// A place in the message list that a mark may be bound to.
#[derive(Clone, Copy, PartialEq, Eq)]
pub struct Reserve {
    /// The arrival number of the first message behind the place.
    pub arrival: u64,
    /// The next serial of a reference of the process when the place was reserved.
    pub serial: u64,
}

/// A reserve that is bound to a reference: a receive that asks for the reference may start there.
#[derive(Clone, Copy, PartialEq, Eq)]
pub struct Mark {
    /// The reference.
    pub reference: Ref,
    /// The arrival number of the first message behind the place.
    pub arrival: u64,
}
