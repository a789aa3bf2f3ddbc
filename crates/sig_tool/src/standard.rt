ghost use Rattle.std.specs.Prelude.{◌≡◌, ◌+◌};
ghost use Rattle.sig_base.specs.Flow.{IsNotPassed};
ghost use Rattle.sig_edge.specs.Ends.{EndsWith, IsEnd};
ghost use Rattle.sig_edge.specs.Streams.{IsReadWithin, reading, writing};
ghost use Rattle.sig_tool.specs.declared.given.TheConstants.{MOST_INPUT};
ghost use Rattle.sig_tool.specs.declared.status.ToolStatus.{ToolStatus};
ghost use Rattle.sig_tool.specs.Answers.{IsAnswer};
ghost use Rattle.sig_tool.specs.Statuses.{number_of};
ghost use Rattle.sig_tool.specs.Told.{told_text};

use crate::status::ToolStatus;
use crate::telling::tell;
use crate::top::tool;
use sig_base::{Sink, Source, StdSink, StdSource};
use sig_edge::{arguments, why_no_arguments};
use std::alloc::Global;
use std::io;
use std::io::{Read, Write};
use std::process::ExitCode;
use std::rt::Env;

/// How the program ends on these arguments: with the exit code that is the number of the status of
/// `tool`; or, where they can't be had, of the status that says why, which is told on standard error, and
/// nothing was read.
#[tactic(auto, using(sig_edge::proofs::TakenLemmas::none_taken))]
fn ended<S: Source, O: Sink, E: Sink>(
    alloc: Global,
    arguments: io::Result<Vec<String>>,
    input: &mut S,
    out: &mut O,
    err: &mut E,
) -> ExitCode
    ensures end { EndsWith number_of told_text (IsEnd IsAnswer ToolStatus.Memory ToolStatus.Usage arguments
        (reading (S.left input.old) (S.left input.new) (S.faults input.old) (S.faults input.new))
        (writing (O.held out.old) (O.held out.new) (O.faults out.old) (O.faults out.new)))
        (writing (E.held err.old) (E.held err.new) (E.faults err.old) (E.faults err.new)) result.status }
    ensures taken { IsReadWithin (MOST_INPUT + 1)
        (reading (S.left input.old) (S.left input.new) (S.faults input.old) (S.faults input.new)) }
    ensures behind { IsNotPassed (S.end input.old) (S.end input.new) }
{
    match arguments {
        Ok(words) => {
            let status = tool(alloc, words.as_slice(), input, out, err);
            ExitCode::from(status.number())
        }
        Err(fault) => {
            let status = why_no_arguments(fault, ToolStatus::Memory, ToolStatus::Usage);
            tell(err, status);
            ExitCode::from(status.number())
        }
    }
}

/// The program `sigtool`, on the arguments of its runtime and these streams: `tool` of both. Where the
/// arguments can't be had, for want of memory or since one is no text, it tells so as `tool` does of a
/// want of memory or of words that are no command. The exit code is the number of a status; that it is the
/// number of the one that `tool` gives, the body says, which calls `ended`, and no clause.
pub fn program<R, I, O, E>(rt: &R, stdin: I, stdout: O, stderr: E) -> ExitCode
where
    R: Env + Alloc<A = Global>,
    I: Read + Drop,
    O: Write + Drop,
    E: Write + Drop,
    ensures { (status : ToolStatus) × (result.status ≡ number_of status) }
{
    ended(
        rt.alloc(),
        arguments(rt),
        &mut StdSource::new(stdin),
        &mut StdSink::new(stdout),
        &mut StdSink::new(stderr),
    )
}
