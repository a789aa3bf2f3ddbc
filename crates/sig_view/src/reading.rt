//! The input: a script; or one with a record behind it, which is that of a settled run of the script.

ghost use Rattle.std.specs.Prelude.{◌+◌};
ghost use Rattle.sig_base.specs.Flow.{IsNotPassed};
ghost use Rattle.sig_edge.specs.Streams.{IsReadWithin, reading};
ghost use Rattle.sig_tool.specs.declared.given.TheConstants.{MOST_INPUT};
ghost use Rattle.sig_view.specs.Inputs.{IsSettledRead};
ghost use Rattle.sig_view.specs.Outcomes.{AreBytes, IsScriptOf, IsScriptRead};

use crate::status::{ViewStatus, of_tool};
use sig_base::{ReadAll, Source, read_all};
use sig_script::{Script, read_script};
use sig_tool::{Given, MOST_INPUT, read_checked};
use std::alloc::Global;

/// Reads the input to its end, and the script and the record that it spells, where the record is that
/// of a settled run of the script.
pub(crate) fn read_settled<S: Source>(alloc: Global, input: &mut S) -> Result<Given, ViewStatus>
    ensures settled { IsSettledRead (reading (S.left input.old) (S.left input.new) (S.faults input.old) (S.faults input.new)) result }
    ensures taken { IsReadWithin (MOST_INPUT + 1)
        (reading (S.left input.old) (S.left input.new) (S.faults input.old) (S.faults input.new)) }
    ensures behind { IsNotPassed (S.end input.old) (S.end input.new) }
{
    match read_checked(alloc, input) {
        Ok(given) => Ok(given),
        Err(status) => Err(of_tool(status)),
    }
}

/// Reads the input to its end.
fn read_bytes<S: Source>(alloc: Global, input: &mut S) -> Result<Vec<u8>, ViewStatus>
    ensures bytes { AreBytes (reading (S.left input.old) (S.left input.new) (S.faults input.old) (S.faults input.new)) result }
    ensures taken { IsReadWithin (MOST_INPUT + 1)
        (reading (S.left input.old) (S.left input.new) (S.faults input.old) (S.faults input.new)) }
    ensures behind { IsNotPassed (S.end input.old) (S.end input.new) }
{
    let mut bytes = Vec::new(alloc);
    match read_all(input, MOST_INPUT, &mut bytes) {
        ReadAll::Whole => Ok(bytes),
        ReadAll::TooLong => Err(ViewStatus::TooLong),
        ReadAll::ReadFault => Err(ViewStatus::ReadFault),
        ReadAll::Memory => Err(ViewStatus::Memory),
    }
}

/// The script that the bytes spell.
fn script_of(alloc: Global, bytes: &[u8]) -> Result<Script, ViewStatus>
    ensures { IsScriptOf bytes.now result }
{
    let script = read_script(alloc, bytes)?;
    Ok(script)
}

/// Reads the input to its end, and the script that it spells.
pub(crate) fn read_alone<S: Source>(alloc: Global, input: &mut S) -> Result<Script, ViewStatus>
    ensures script { IsScriptRead (reading (S.left input.old) (S.left input.new) (S.faults input.old) (S.faults input.new)) result }
    ensures taken { IsReadWithin (MOST_INPUT + 1)
        (reading (S.left input.old) (S.left input.new) (S.faults input.old) (S.faults input.new)) }
    ensures behind { IsNotPassed (S.end input.old) (S.end input.new) }
{
    let bytes = read_bytes(alloc, input)?;
    script_of(alloc, bytes.as_slice())
}
