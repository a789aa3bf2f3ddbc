use crate::called::Called;
use crate::program::Program;
use crate::setting::{PLAIN, Setting};
use sig_base::{FailingSink, FailingSource, MemorySink};
use sig_tool::{ToolStatus, tool};
use std::alloc::{AllocError, Global};

/// The tool.
pub struct Tool;

impl Program for Tool {
    type Status = ToolStatus;

    const DONE: ToolStatus = ToolStatus::Done;

    const READ_FAULT: ToolStatus = ToolStatus::ReadFault;

    const WRITE_FAULT: ToolStatus = ToolStatus::WriteFault;

    const READ_TOLD: &'static [u8] = b"sigtool: read fault\n";

    const WRITE_TOLD: &'static [u8] = b"sigtool: write fault\n";

    fn call(
        alloc: Global,
        words: &[String],
        input: &mut FailingSource,
        out: &mut FailingSink,
        err: &mut MemorySink,
    ) -> ToolStatus {
        tool(alloc, words, input, out, err)
    }
}

/// The command `check`, and streams that don't fail.
pub const CHECK: Setting<'static, 'static> = Setting {
    words: &["check"],
    ..PLAIN
};

/// What it writes where the verdict is yes.
pub const YES: &[u8] = b"yes\n";

/// Whether it says yes to the record of the script.
///
/// # Errors
///
/// [`AllocError`] where memory is wanting for its streams.
pub fn is_checked(alloc: Global, script: &[u8], told: &[u8]) -> Result<bool, AllocError> {
    Called::<Tool>::ends_so(alloc, &CHECK, script, told, (Tool::DONE, YES, b""))
}
