//! What is told of a run's end.

ghost use Rattle.sig_base.specs.Flow.{Rose, Adds};
ghost use Rattle.sig_edge.specs.Streams.{writing};
ghost use Rattle.sig_edge.specs.Told.{AddsBeginning, FailedOnceAtMost, IsTold};
ghost use Rattle.sig_host.specs.Told.{text_in, text_or_none, told_text};

use crate::ending::Ending;
use crate::status::Status;
use sig_base::Sink;
use sig_edge::{Untold, tell_memory, tell_piece, tell_read_fault, tell_refusal, tell_write_fault};

/// The program's name, with which what it tells begins.
const PROGRAM: &str = "sigrun";

/// How the command is called.
const USAGE: &[u8] =
    b"usage: sigrun [--workers N] [--quota N] [--buffers never|always|churn:N|auto] [--generate N]\n";

/// Writes the summary, if there is one.
fn tell_summary<E: Sink>(err: &mut E, summary: &Option<Vec<u8>>) -> Result<(), Untold>
    ensures { IsTold (writing (E.held err.old) (E.held err.new) (E.faults err.old) (E.faults err.new))
        (text_or_none (text_in summary.now)) result }
{
    match summary {
        Some(text) => tell_piece(err, text.as_slice()),
        None => tell_piece(err, b""),
    }
}

/// Writes what there is to tell of a run's end.
fn tell_status<E: Sink>(err: &mut E, ending: &Ending) -> Result<(), Untold>
    ensures { IsTold (writing (E.held err.old) (E.held err.new) (E.faults err.old) (E.faults err.new))
        (told_text ending.now.status (text_in ending.now.summary)) result }
{
    match ending.status {
        Status::Done => tell_summary(err, &ending.summary),
        Status::BadScript { line, kind } => tell_refusal(err, PROGRAM, line, kind),
        Status::Usage => tell_piece(err, USAGE),
        Status::ReadFault => tell_read_fault(err, PROGRAM),
        Status::WriteFault => tell_write_fault(err, PROGRAM),
        Status::Memory => tell_memory(err, PROGRAM),
    }
}

/// Writes what there is to tell of a run's end. A fault there changes no status.
pub fn tell<E: Sink>(err: &mut E, ending: &Ending)
    ensures told { (Rose (E.faults err.old) (E.faults err.new) → ⊥) →
        Adds (E.held err.old) (E.held err.new) (told_text ending.now.status (text_in ending.now.summary)) }
    ensures beginning { AddsBeginning (E.held err.old) (E.held err.new)
        (told_text ending.now.status (text_in ending.now.summary)) }
    ensures once { FailedOnceAtMost (writing (E.held err.old) (E.held err.new) (E.faults err.old) (E.faults err.new)) }
{
    let _ = tell_status(err, ending);
}
