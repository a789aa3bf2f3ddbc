//! What is told of an end.

ghost use Rattle.sig_base.specs.Flow.{Rose, Adds};
ghost use Rattle.sig_edge.specs.Streams.{writing};
ghost use Rattle.sig_edge.specs.Told.{AddsBeginning, FailedOnceAtMost, IsTold};
ghost use Rattle.sig_view.specs.Told.{told_text};

use crate::status::ViewStatus;
use sig_base::Sink;
use sig_chart::MOST_EVENTS;
use sig_edge::{
    Untold, tell_memory, tell_number, tell_piece, tell_pieces, tell_read_fault, tell_refusal,
    tell_write_fault,
};

/// The program's name, with which what it tells begins.
pub(crate) const PROGRAM: &str = "sigview";

/// How the command is called.
const USAGE: &[u8] =
    b"usage: sigview chart [--from S] [--to T]|concurrent P I|outcomes [--states N] [--record K]\n";

/// Writes what there is to tell of an end.
fn tell_status<E: Sink>(err: &mut E, status: ViewStatus) -> Result<(), Untold>
    ensures { IsTold (writing (E.held err.old) (E.held err.new) (E.faults err.old) (E.faults err.new)) (told_text status) result }
{
    match status {
        ViewStatus::Done => tell_piece(err, b""),
        ViewStatus::BadScript { line, kind } => tell_refusal(err, PROGRAM, line, kind),
        ViewStatus::Usage => tell_piece(err, USAGE),
        ViewStatus::ReadFault => tell_read_fault(err, PROGRAM),
        ViewStatus::WriteFault => tell_write_fault(err, PROGRAM),
        ViewStatus::Memory => tell_memory(err, PROGRAM),
        ViewStatus::No { event } => tell_number(err, PROGRAM, "no at event", event, ""),
        ViewStatus::BadRecord { line } => tell_number(err, PROGRAM, "record line", line, ""),
        ViewStatus::TooLong => tell_pieces(err, &[PROGRAM.as_bytes(), b": too long\n"]),
        ViewStatus::NoEvent => tell_pieces(err, &[PROGRAM.as_bytes(), b": no such event\n"]),
        ViewStatus::TooManyEvents => tell_number(
            err,
            PROGRAM,
            "more than",
            MOST_EVENTS as u64,
            " events: choose some with --from S --to T",
        ),
        ViewStatus::NoOutcome => tell_pieces(err, &[PROGRAM.as_bytes(), b": no such outcome\n"]),
        ViewStatus::NotFound { states } => tell_number(
            err,
            PROGRAM,
            "no such outcome was found; states met:",
            states,
            "; there may be more outcomes",
        ),
        ViewStatus::Unfinished { states } => {
            tell_number(
                err,
                PROGRAM,
                "states met:",
                states,
                "; there may be more outcomes",
            )
        }
    }
}

/// Writes what there is to tell of an end. A fault there changes no status.
pub(crate) fn tell<E: Sink>(err: &mut E, status: ViewStatus)
    ensures told { (Rose (E.faults err.old) (E.faults err.new) → ⊥) → Adds (E.held err.old) (E.held err.new) (told_text status) }
    ensures beginning { AddsBeginning (E.held err.old) (E.held err.new) (told_text status) }
    ensures once { FailedOnceAtMost (writing (E.held err.old) (E.held err.new) (E.faults err.old) (E.faults err.new)) }
{
    let _ = tell_status(err, status);
}
