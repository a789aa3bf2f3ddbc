//! What is written of a run.

ghost use Rattle.std.specs.Prelude.{ℕ, Bool, IfOk};
ghost use Rattle.sig_edge.specs.Streams.{writing};
ghost use Rattle.sig_program.specs.Scripts.{Program};
ghost use Rattle.sig_host.specs.Answers.{AreTexts, IsScriptRun};
ghost use Rattle.sig_host.specs.Told.{text_in};

use crate::ending::Ending;
use crate::status::Status;
use crate::texts::Texts;
use sig_base::{Sink, Written, write_whole};
use std::alloc::AllocError;

/// Writes the record. The summary is told once it is written.
fn write_record<O: Sink>(texts: Texts, out: &mut O) -> Ending
    ensures run { (workers : ℕ) → (script : Program) → (asked : Bool) → AreTexts workers script asked texts
        → IsScriptRun workers script asked
        (writing (O.held out.old) (O.held out.new) (O.faults out.old) (O.faults out.new))
        result.status (text_in result.summary) }
{
    match write_whole(out, texts.record.as_slice()) {
        Written::Whole => Ending {
            status: Status::Done,
            summary: texts.summary,
        },
        Written::WriteFault { written: _ } => Ending::short(Status::WriteFault),
    }
}

/// Writes the record of a run, if there was memory for the run and its texts. They are made whole before
/// the first write.
pub(crate) fn write_run<O: Sink>(texts: Result<Texts, AllocError>, out: &mut O) -> Ending
    ensures { (workers : ℕ) → (script : Program) → (asked : Bool) → IfOk texts (AreTexts workers script asked)
        → IsScriptRun workers script asked
        (writing (O.held out.old) (O.held out.new) (O.faults out.old) (O.faults out.new))
        result.status (text_in result.summary) }
{
    match texts {
        Ok(texts) => write_record(texts, out),
        Err(_) => Ending::short(Status::Memory),
    }
}
