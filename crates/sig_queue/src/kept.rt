use sig_layout::Senders;

/// What a token keeps of what its seat knows, for the running code.
#[derive(Clone, Copy)]
pub(crate) struct Kept {
    /// Those for which it puts.
    pub(crate) senders: Senders,
    /// The number of the seat: its least sender, or `PIDS`.
    pub(crate) number: u64,
    /// It is the receiver's: it fetches and removes.
    pub(crate) role: bool,
    /// Its last fetch made a removal due.
    pub(crate) due: bool,
    /// A try of the outer turn was refused since its last put into the outer list.
    pub(crate) refused: bool,
}
