//! Scripts with their records.

/// The events that are concurrent with the second of its first process, the end: all of the other.
pub(crate) const WITH_ITS_END: &[u8] = b"concurrent 1 1 3\n";

/// The list of its outcomes, of which there is one.
pub(crate) const ITS_OUTCOME: &[u8] =
    b"outcomes 1 all\noutcome 1\nprocess 0 a\nstate ended normal\nprocess 1 b\nstate ended normal\n";
