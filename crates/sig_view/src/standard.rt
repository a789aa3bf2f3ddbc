ghost use Rattle.std.specs.Prelude.{◌≡◌, ◌+◌};
ghost use Rattle.sig_base.specs.Flow.{IsNotPassed};
ghost use Rattle.sig_edge.specs.Ends.{EndsWith, IsEnd};
ghost use Rattle.sig_edge.specs.Streams.{IsReadWithin, reading, writing};
ghost use Rattle.sig_tool.specs.declared.given.TheConstants.{MOST_INPUT};
ghost use Rattle.sig_view.specs.declared.status.ViewStatus.{ViewStatus};
ghost use Rattle.sig_view.specs.Answers.{IsAnswer};
ghost use Rattle.sig_view.specs.Statuses.{number_of};
ghost use Rattle.sig_view.specs.Told.{told_text};

use crate::progress::Progress;
use crate::status::ViewStatus;
use crate::telling::tell;
use crate::top::view;
use sig_base::{Sink, Source, StdSink, StdSource};
use sig_edge::{arguments, why_no_arguments};
use sig_search::Teller;
use std::alloc::Global;
use std::io;
use std::io::{IsTerminal, Read, Write};
use std::process::ExitCode;
use std::rt::Env;
use std::time::Clock;

/// How the program ends on these arguments: with the exit code that is the number of the status of
/// `view`; or, where they can't be had, of the status that says why, which is told on standard error, and
/// nothing was read.
#[tactic(auto, using(sig_edge::proofs::TakenLemmas::none_taken))]
fn ended<S: Source, O: Sink, E: Sink, T: Teller>(
    alloc: Global,
    arguments: io::Result<Vec<String>>,
    input: &mut S,
    out: &mut O,
    err: &mut E,
    teller: &mut T,
) -> ExitCode
    ensures end { EndsWith number_of told_text (IsEnd IsAnswer ViewStatus.Memory ViewStatus.Usage arguments
        (reading (S.left input.old) (S.left input.new) (S.faults input.old) (S.faults input.new))
        (writing (O.held out.old) (O.held out.new) (O.faults out.old) (O.faults out.new)))
        (writing (E.held err.old) (E.held err.new) (E.faults err.old) (E.faults err.new)) result.status }
    ensures taken { IsReadWithin (MOST_INPUT + 1)
        (reading (S.left input.old) (S.left input.new) (S.faults input.old) (S.faults input.new)) }
    ensures behind { IsNotPassed (S.end input.old) (S.end input.new) }
{
    match arguments {
        Ok(words) => {
            let status = view(alloc, words.as_slice(), input, out, err, teller);
            ExitCode::from(status.number())
        }
        Err(fault) => {
            let status = why_no_arguments(fault, ViewStatus::Memory, ViewStatus::Usage);
            tell(err, status);
            ExitCode::from(status.number())
        }
    }
}

/// The program `sigview`, on the arguments of its runtime and these streams: `view` of both. Where the
/// arguments can't be had, for want of memory or since one is no text, it tells so as `view` does of a
/// want of memory or of words that are no command. The exit code is the number of a status; that it is the
/// number of the one that `view` gives, the body says, which calls `ended`, and no clause. A search that takes
/// longer than a second tells how far it is, where standard error is a terminal.
pub fn program<R, I, O, E>(rt: &R, stdin: I, stdout: O, stderr: E) -> ExitCode
where
    R: Env + Clock + Alloc<A = Global>,
    I: Read + Drop,
    O: Write + Drop,
    E: Write + IsTerminal + Copy,
    ensures { (status : ViewStatus) × (result.status ≡ number_of status) }
{
    ended(
        rt.alloc(),
        arguments(rt),
        &mut StdSource::new(stdin),
        &mut StdSink::new(stdout),
        &mut StdSink::new(stderr),
        &mut Progress::new(rt, StdSink::new(stderr), stderr.is_terminal()),
    )
}
