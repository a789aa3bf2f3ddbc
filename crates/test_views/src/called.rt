//! Calls of the viewer: what they are given, and what they answer, write and tell.

use sig_base::{FailingSink, FailingSource, MemorySink};
use sig_search::Silent;
use sig_view::{ViewStatus, view};
use std::alloc::Global;
use test_shared::{Program, Setting};

/// The viewer.
pub(crate) struct Viewer;

impl Program for Viewer {
    type Status = ViewStatus;

    const DONE: ViewStatus = ViewStatus::Done;

    const READ_FAULT: ViewStatus = ViewStatus::ReadFault;

    const WRITE_FAULT: ViewStatus = ViewStatus::WriteFault;

    const READ_TOLD: &'static [u8] = b"sigview: read fault\n";

    const WRITE_TOLD: &'static [u8] = b"sigview: write fault\n";

    fn call(
        alloc: Global,
        words: &[String],
        input: &mut FailingSource,
        out: &mut FailingSink,
        err: &mut MemorySink,
    ) -> ViewStatus {
        view(alloc, words, input, out, err, &mut Silent)
    }
}

/// A call of the viewer.
pub(crate) type Called = test_shared::Called<Viewer>;

/// The command `concurrent 0 2`, and streams that don't fail.
pub(crate) const PLAIN: Setting<'static, 'static> = Setting {
    words: &["concurrent", "0", "2"],
    ..test_shared::PLAIN
};
