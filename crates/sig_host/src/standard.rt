ghost use Rattle.std.specs.Prelude.{◌≡◌, ◌+◌, ℕ, List, Option};
ghost use Rattle.sig_base.specs.Flow.{IsNotPassed};
ghost use Rattle.sig_edge.specs.Ends.{EndsWith, IsEnd};
ghost use Rattle.sig_edge.specs.Streams.{IsReadWithin, reading, writing};
ghost use Rattle.sig_reader.specs.declared.reader.TheConstants.{MOST_BYTES};
ghost use Rattle.sig_host.specs.declared.status.Status.{Status};
ghost use Rattle.sig_host.specs.Answers.{IsAnswer};
ghost use Rattle.sig_host.specs.Told.{number_of, told_text};

use crate::ending::Ending;
use crate::host::run;
use crate::status::Status;
use crate::telling::tell;
use sig_base::{OpenGate, Sink, Source, StdSink, StdSource};
use sig_edge::{arguments, why_no_arguments};
use std::alloc::Global;
use std::io;
use std::io::{Read, Write};
use std::process::ExitCode;
use std::rt::Env;
use std::sync::Wait;
use std::thread::Threads;

/// How the program ends on these arguments: with the exit code that is the number of the status of
/// `run`; or, where they can't be had, of the status that says why, which is told on standard error, and
/// nothing was read.
#[tactic(auto, using(sig_edge::proofs::TakenLemmas::none_taken))]
fn ended<R: Threads + Wait + Sync, S: Source, O: Sink, E: Sink>(
    rt: &R,
    alloc: Global,
    arguments: io::Result<Vec<String>>,
    script: &mut S,
    out: &mut O,
    err: &mut E,
) -> ExitCode
    ensures end { (summary : Option (List ℕ)) × EndsWith number_of (λ status. told_text status summary)
        (IsEnd (λ words r w status. IsAnswer words r w status summary) Status.Memory Status.Usage arguments
        (reading (S.left script.old) (S.left script.new) (S.faults script.old) (S.faults script.new))
        (writing (O.held out.old) (O.held out.new) (O.faults out.old) (O.faults out.new)))
        (writing (E.held err.old) (E.held err.new) (E.faults err.old) (E.faults err.new)) result.status }
    ensures taken { IsReadWithin (MOST_BYTES + 1)
        (reading (S.left script.old) (S.left script.new) (S.faults script.old) (S.faults script.new)) }
    ensures behind { IsNotPassed (S.end script.old) (S.end script.new) }
{
    match arguments {
        Ok(words) => {
            let status = run(rt, alloc, words.as_slice(), script, out, err, &OpenGate);
            ExitCode::from(status.number())
        }
        Err(fault) => {
            let status = why_no_arguments(fault, Status::Memory, Status::Usage);
            tell(err, &Ending::short(status));
            ExitCode::from(status.number())
        }
    }
}

/// The program `sigrun`, on the arguments of its runtime and these streams: `run` of both, with a gate
/// that holds nobody. Where the arguments can't be had, for want of memory or since one is no text, it
/// tells so as `run` does of a want of memory or of arguments that the command doesn't take. The exit
/// code is the number of a status; that it is the number of the one that `run` gives, the body says, which
/// calls `ended`, and no clause. As `run`, it may wait for threads, and no clause says that it returns.
pub fn program<R, I, O, E>(rt: &R, stdin: I, stdout: O, stderr: E) -> ExitCode
where
    R: Threads + Wait + Sync + Env + Alloc<A = Global>,
    I: Read + Drop,
    O: Write + Drop,
    E: Write + Drop,
    ensures { (status : Status) × (result.status ≡ number_of status) }
{
    ended(
        rt,
        rt.alloc(),
        arguments(rt),
        &mut StdSource::new(stdin),
        &mut StdSink::new(stdout),
        &mut StdSink::new(stderr),
    )
}
