//! The input: a script, and behind it a record, which is that of a settled run of the script.

ghost use Rattle.std.specs.Prelude.{◌≡◌, ◌+◌, ◌≤◌, length};
ghost use Rattle.sig_base.specs.Flow.{IsNotPassed};
ghost use Rattle.sig_edge.specs.Streams.{IsReadWithin, reading};
ghost use Rattle.sig_tool.specs.declared.given.TheConstants.{MOST_INPUT};
ghost use Rattle.sig_tool.specs.Inputs.{ArePartsOf, IsApproved, IsChecked, IsPair};

use crate::input::read_input;
use crate::splitting::split;
use crate::status::ToolStatus;
use sig_base::Source;
use sig_check::{Verdict, check};
use sig_record::{Record, read_record};
use sig_script::{Script, read_script};
use std::alloc::Global;

/// The most bytes of the input, the script and the record together.
pub const MOST_INPUT: usize = 67108864;

/// What the input gives.
#[derive(Drop)]
pub struct Given {
    /// The script.
    pub script: Script,
    /// The record behind it.
    pub told: Record,
}

/// The script and the record that the bytes spell.
fn parts_of(alloc: Global, bytes: &[u8]) -> Result<Given, ToolStatus>
    requires { length bytes.now ≤ MOST_INPUT }
    ensures { ArePartsOf bytes.now result }
{
    let (first, second) = split(bytes);
    let script = read_script(alloc, first)?;
    let told = read_record(alloc, second)?;
    Ok(Given { script, told })
}

/// What was given, where the record is that of a settled run of the script.
fn approved(alloc: Global, given: Given) -> Result<Given, ToolStatus>
    ensures { IsApproved given result }
{
    match check(alloc, &given.script, &given.told)? {
        Verdict::Yes => Ok(given),
        Verdict::No { event } => Err(ToolStatus::No { event }),
    }
}

/// Reads the input to its end, and the script and the record that it spells, where the record is that
/// of a settled run of the script. Why there is none is told as `tool` tells it, and in the same order:
/// `ReadFault`, `TooLong`, `BadScript`, `BadRecord` or `No`; or `Memory`, where memory was wanting. Whatever
/// comes of it, of the input at most [`MOST_INPUT`] bytes and one more are taken, and it isn't read behind its
/// end or behind a failed read, if it wasn't before.
pub fn read_checked<S: Source>(alloc: Global, input: &mut S) -> Result<Given, ToolStatus>
    ensures checked { IsChecked (reading (S.left input.old) (S.left input.new) (S.faults input.old) (S.faults input.new)) result }
    ensures taken { IsReadWithin (MOST_INPUT + 1)
        (reading (S.left input.old) (S.left input.new) (S.faults input.old) (S.faults input.new)) }
    ensures behind { IsNotPassed (S.end input.old) (S.end input.new) }
{
    let bytes = read_input(alloc, MOST_INPUT, input)?;
    let given = parts_of(alloc, bytes.as_slice())?;
    approved(alloc, given)
}

/// The limit in numbers: [`MOST_INPUT`] is 67,108,864.
pub fn the_limits_of_inputs()
    ensures bytes { MOST_INPUT ≡ 67108864 }
{}
