//! The bytes of the input.

ghost use Rattle.std.specs.Prelude.{◌+◌, ◌<◌};
ghost use Rattle.sig_base.specs.Flow.{IsNotPassed};
ghost use Rattle.sig_edge.specs.Streams.{IsReadWithin, reading};
ghost use Rattle.sig_tool.specs.Inputs.{IsInput};

use crate::status::ToolStatus;
use sig_base::{ReadAll, Source, read_all};
use std::alloc::Global;

/// Reads the input to its end, where it has at most so many bytes.
pub(crate) fn read_input<S: Source>(
    alloc: Global,
    most: usize,
    input: &mut S,
) -> Result<Vec<u8>, ToolStatus>
    requires { most < usize.MAX }
    ensures input { IsInput most (reading (S.left input.old) (S.left input.new) (S.faults input.old) (S.faults input.new)) result }
    ensures taken { IsReadWithin (most + 1)
        (reading (S.left input.old) (S.left input.new) (S.faults input.old) (S.faults input.new)) }
    ensures behind { IsNotPassed (S.end input.old) (S.end input.new) }
{
    let mut bytes = Vec::new(alloc);
    match read_all(input, most, &mut bytes) {
        ReadAll::Whole => Ok(bytes),
        ReadAll::TooLong => Err(ToolStatus::TooLong),
        ReadAll::ReadFault => Err(ToolStatus::ReadFault),
        ReadAll::Memory => Err(ToolStatus::Memory),
    }
}
