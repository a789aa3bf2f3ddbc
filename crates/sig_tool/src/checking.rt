//! The command `check`.

ghost use Rattle.std.specs.Prelude.{◌+◌};
ghost use Rattle.sig_base.specs.Flow.{IsNotPassed};
ghost use Rattle.sig_edge.specs.Streams.{IsReadWithin, reading};
ghost use Rattle.sig_tool.specs.declared.command.Command.TheVariants.{Check};
ghost use Rattle.sig_tool.specs.declared.given.TheConstants.{MOST_INPUT};
ghost use Rattle.sig_tool.specs.Texts.{IsTextRead};

use crate::given::read_checked;
use crate::status::ToolStatus;
use sig_base::Source;
use std::alloc::Global;

/// What is written where the verdict is yes.
const YES: &[u8] = b"yes\n";

/// The text of `check`: `yes` and a line feed.
pub(crate) fn check_text<S: Source>(alloc: Global, input: &mut S) -> Result<Vec<u8>, ToolStatus>
    ensures text { IsTextRead Check (reading (S.left input.old) (S.left input.new) (S.faults input.old) (S.faults input.new)) result }
    ensures taken { IsReadWithin (MOST_INPUT + 1)
        (reading (S.left input.old) (S.left input.new) (S.faults input.old) (S.faults input.new)) }
    ensures behind { IsNotPassed (S.end input.old) (S.end input.new) }
{
    let _ = read_checked(alloc, input)?;
    let text = Vec::from_slice(alloc, YES)?;
    Ok(text)
}
