//! Where the script that is run comes from.

ghost use Rattle.std.specs.Prelude.{◌≢◌, ◌+◌, ◌≤◌, [], IfOk, IfSome, Err, Some};
ghost use Rattle.sig_base.specs.Flow.{IsNotPassed};
ghost use Rattle.sig_program.specs.ScriptNames.{AreNames};
ghost use Rattle.sig_edge.specs.Streams.{IsReadWithin, reading};
ghost use Rattle.sig_host.specs.Answers.{IsMade, IsScriptFor, IsSourceRead};

use crate::status::Status;
use sig_base::{ReadAll, Source, read_all};
use sig_program::Script;
use sig_script::{
    FaultKind, MOST_BYTES, MOST_CALLS, ScriptError, generate, names_of_scripts_are_name_tokens,
    read_script,
};
use std::alloc::Global;

/// Reads the script that these bytes spell.
fn read_bytes(alloc: Global, bytes: &[u8]) -> Result<Script, Status>
    ensures read { IsSourceRead (reading (Some bytes.now) (Some []) 0 0) result }
    ensures no_fault { result ≢ Err Status.ReadFault }
    ensures names { IfOk result AreNames }
{
    names_of_scripts_are_name_tokens();
    match read_script(alloc, bytes) {
        Ok(script) => Ok(script),
        Err(ScriptError::Fault { line, kind }) => Err(Status::BadScript { line, kind }),
        Err(ScriptError::Memory) => Err(Status::Memory),
    }
}

/// Reads the source to its end, but no further than one byte behind [`MOST_BYTES`], and the script that
/// it spells.
fn read_source<S: Source>(alloc: Global, source: &mut S) -> Result<Script, Status>
    ensures read { IsSourceRead (reading (S.left source.old) (S.left source.new) (S.faults source.old) (S.faults source.new)) result }
    ensures taken { IsReadWithin (MOST_BYTES + 1)
        (reading (S.left source.old) (S.left source.new) (S.faults source.old) (S.faults source.new)) }
    ensures behind { IsNotPassed (S.end source.old) (S.end source.new) }
    ensures count { S.faults source.old ≤ S.faults source.new }
    ensures names { IfOk result AreNames }
{
    let mut bytes = Vec::new(alloc);
    match read_all(source, MOST_BYTES, &mut bytes) {
        ReadAll::Whole => read_bytes(alloc, bytes.as_slice()),
        ReadAll::TooLong => Err(Status::BadScript {
            line: 0,
            kind: FaultKind::TooLong,
        }),
        ReadAll::ReadFault => Err(Status::ReadFault),
        ReadAll::Memory => Err(Status::Memory),
    }
}

/// Makes work of so many calls for each client.
fn make_script(alloc: Global, calls: u32) -> Result<Script, Status>
    requires least { 1 ≤ calls }
    requires most { calls ≤ MOST_CALLS }
    ensures made { IsMade calls result }
    ensures names { IfOk result AreNames }
{
    names_of_scripts_are_name_tokens();
    match generate(alloc, calls) {
        Ok(script) => Ok(script),
        Err(_) => Err(Status::Memory),
    }
}

/// The script that is to be run: generated work, where so many calls are asked for, and else the one that
/// the source spells.
#[tactic(auto, using(sig_edge::proofs::TakenLemmas::none_taken))]
pub(crate) fn script_for<S: Source>(
    alloc: Global,
    calls: Option<u32>,
    source: &mut S,
) -> Result<Script, Status>
    requires { IfSome calls (λ n. (1 ≤ n) × (n ≤ MOST_CALLS)) }
    ensures script { IsScriptFor calls (reading (S.left source.old) (S.left source.new) (S.faults source.old) (S.faults source.new)) result }
    ensures taken { IsReadWithin (MOST_BYTES + 1)
        (reading (S.left source.old) (S.left source.new) (S.faults source.old) (S.faults source.new)) }
    ensures behind { IsNotPassed (S.end source.old) (S.end source.new) }
    ensures names { IfOk result AreNames }
{
    match calls {
        Some(calls) => make_script(alloc, calls),
        None => read_source(alloc, source),
    }
}
