//! What is told of an end.

ghost use Rattle.sig_base.specs.Flow.{Rose, Adds};
ghost use Rattle.sig_edge.specs.Streams.{writing};
ghost use Rattle.sig_edge.specs.Told.{AddsBeginning, FailedOnceAtMost, IsTold};
ghost use Rattle.sig_tool.specs.Told.{call_refusal_text, told_text};

use crate::status::ToolStatus;
use sig_base::Sink;
use sig_call::CallFault;
use sig_edge::{
    Untold, tell_line, tell_memory, tell_number, tell_piece, tell_pieces, tell_read_fault,
    tell_refusal, tell_write_fault,
};

/// The program's name, with which what it tells begins.
const PROGRAM: &str = "sigtool";

/// How the command is called.
const USAGE: &[u8] = b"usage: sigtool check|replay|links|before P I Q J|expand\n";

/// Writes the line of a text of calls that is refused, and why.
fn tell_call<E: Sink>(err: &mut E, line: u64, kind: CallFault) -> Result<(), Untold>
    ensures { IsTold (writing (E.held err.old) (E.held err.new) (E.faults err.old) (E.faults err.new))
        (call_refusal_text line kind) result }
{
    tell_line(err, PROGRAM, line, kind.word())
}

/// Writes what there is to tell of an end.
fn tell_status<E: Sink>(err: &mut E, status: ToolStatus) -> Result<(), Untold>
    ensures { IsTold (writing (E.held err.old) (E.held err.new) (E.faults err.old) (E.faults err.new)) (told_text status) result }
{
    match status {
        ToolStatus::Done => tell_piece(err, b""),
        ToolStatus::BadScript { line, kind } => tell_refusal(err, PROGRAM, line, kind),
        ToolStatus::Usage => tell_piece(err, USAGE),
        ToolStatus::ReadFault => tell_read_fault(err, PROGRAM),
        ToolStatus::WriteFault => tell_write_fault(err, PROGRAM),
        ToolStatus::Memory => tell_memory(err, PROGRAM),
        ToolStatus::No { event } => tell_number(err, PROGRAM, "no at event", event, ""),
        ToolStatus::BadRecord { line } => tell_number(err, PROGRAM, "record line", line, ""),
        ToolStatus::NoEvent => tell_pieces(err, &[PROGRAM.as_bytes(), b": no such event\n"]),
        ToolStatus::TooLong => tell_pieces(err, &[PROGRAM.as_bytes(), b": too long\n"]),
        ToolStatus::BadCall { line, kind } => tell_call(err, line, kind),
    }
}

/// Writes what there is to tell of an end. A fault there changes no status.
pub(crate) fn tell<E: Sink>(err: &mut E, status: ToolStatus)
    ensures told { (Rose (E.faults err.old) (E.faults err.new) → ⊥) → Adds (E.held err.old) (E.held err.new) (told_text status) }
    ensures beginning { AddsBeginning (E.held err.old) (E.held err.new) (told_text status) }
    ensures once { FailedOnceAtMost (writing (E.held err.old) (E.held err.new) (E.faults err.old) (E.faults err.new)) }
{
    let _ = tell_status(err, status);
}
