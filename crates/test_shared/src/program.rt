use sig_base::{FailingSink, FailingSource, MemorySink};
use std::alloc::Global;

/// A program under test, through its top call.
pub trait Program {
    /// How a call of it ends.
    type Status: Copy + PartialEq;

    /// The status where all is written.
    const DONE: Self::Status;

    /// The status after a read that failed.
    const READ_FAULT: Self::Status;

    /// The status after a write that failed.
    const WRITE_FAULT: Self::Status;

    /// What is told of a read that failed.
    const READ_TOLD: &'static [u8];

    /// What is told of a write that failed.
    const WRITE_TOLD: &'static [u8];

    /// The top call.
    fn call(
        alloc: Global,
        words: &[String],
        input: &mut FailingSource,
        out: &mut FailingSink,
        err: &mut MemorySink,
    ) -> Self::Status;
}
