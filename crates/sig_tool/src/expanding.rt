//! The command `expand`.

ghost use Rattle.std.specs.Prelude.{◌+◌, ◌≤◌, length};
ghost use Rattle.sig_base.specs.Flow.{IsNotPassed};
ghost use Rattle.sig_edge.specs.Streams.{IsReadWithin, reading};
ghost use Rattle.sig_tool.specs.declared.command.Command.TheVariants.{Expand};
ghost use Rattle.sig_tool.specs.Expanding.{IsExpandedOf};
ghost use Rattle.sig_tool.specs.Texts.{IsTextRead};

use crate::input::read_input;
use crate::status::ToolStatus;
use sig_base::Source;
use sig_call::expand;
use sig_script::{MOST_BYTES, print_script};
use std::alloc::Global;

/// The canonical text of the script that the text of calls spells.
fn expanded_text(alloc: Global, bytes: &[u8]) -> Result<Vec<u8>, ToolStatus>
    requires { length bytes.now ≤ MOST_BYTES }
    ensures { IsExpandedOf bytes.now result }
{
    let script = expand(alloc, bytes)?;
    let mut text = Vec::new(alloc);
    print_script(&script, &mut text)?;
    Ok(text)
}

/// The text of `expand`: the canonical text of the script that the input spells as a text of calls.
pub(crate) fn expand_text<S: Source>(alloc: Global, input: &mut S) -> Result<Vec<u8>, ToolStatus>
    ensures text { IsTextRead Expand (reading (S.left input.old) (S.left input.new) (S.faults input.old) (S.faults input.new)) result }
    ensures taken { IsReadWithin (MOST_BYTES + 1)
        (reading (S.left input.old) (S.left input.new) (S.faults input.old) (S.faults input.new)) }
    ensures behind { IsNotPassed (S.end input.old) (S.end input.new) }
{
    let bytes = read_input(alloc, MOST_BYTES, input)?;
    expanded_text(alloc, bytes.as_slice())
}
