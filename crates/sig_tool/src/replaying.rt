//! The command `replay`.

ghost use Rattle.std.specs.Prelude.{◌≡◌, ◌+◌, IfOk};
ghost use Rattle.sig_base.specs.Flow.{IsNotPassed};
ghost use Rattle.sig_edge.specs.Streams.{IsReadWithin, reading};
ghost use Rattle.sig_check.specs.Replays.{IsReplayed};
ghost use Rattle.sig_process.specs.Standing.{runnings_of};
ghost use Rattle.sig_record.specs.RecordOf.{record_of};
ghost use Rattle.sig_record.specs.RecordText.{record_text};
ghost use Rattle.sig_record.specs.RunRecord.{IsOfSettledRun};
ghost use Rattle.sig_tool.specs.declared.command.Command.TheVariants.{Replay};
ghost use Rattle.sig_tool.specs.declared.given.TheConstants.{MOST_INPUT};
ghost use Rattle.sig_tool.specs.Texts.{IsTextRead};

use crate::given::{Given, read_checked};
use crate::status::ToolStatus;
use sig_base::Source;
use sig_check::{Replaying, replay};
use sig_model::Origins;
use sig_process::Crew;
use sig_record::{Record, print_record};
use std::alloc::{AllocError, Global};

/// The processes that made the choices of the given record, and the origins of the signals of their run.
/// The error is want of memory.
pub(crate) fn replayed(alloc: Global, given: &Given) -> Result<(Crew, Origins), AllocError>
    requires { IsOfSettledRun given.now.script given.now.told }
    ensures made { IfOk result (λ r. IsReplayed given.now.script given.now.told (runnings_of r.0) r.1) }
    ensures again { IfOk result (λ r. record_of (runnings_of r.0) ≡ given.now.told) }
{
    let made = replay(alloc, &given.script, &given.told)?;
    match made {
        Replaying::Replayed { crew, origins } => Ok((crew, origins)),
        Replaying::Stopped { event: _ } => unreachable!(),
    }
}

/// The record of these processes.
fn record_again(alloc: Global, given: &Given) -> Result<Record, AllocError>
    requires { IsOfSettledRun given.now.script given.now.told }
    ensures { IfOk result (λ r. r ≡ given.now.told) }
{
    let made = replayed(alloc, given)?;
    Record::gather(alloc, made.0)
}

/// The text of that record.
fn text_again(alloc: Global, given: &Given) -> Result<Vec<u8>, AllocError>
    requires { IsOfSettledRun given.now.script given.now.told }
    ensures { IfOk result (λ text. text.items ≡ record_text given.now.told) }
{
    let told = record_again(alloc, given)?;
    let mut text = Vec::new(alloc);
    print_record(&told, &mut text)?;
    Ok(text)
}

/// The text of `replay`: that of the record that is gathered from processes which made the given
/// record's choices. It is the given record's.
pub(crate) fn replay_text<S: Source>(alloc: Global, input: &mut S) -> Result<Vec<u8>, ToolStatus>
    ensures text { IsTextRead Replay (reading (S.left input.old) (S.left input.new) (S.faults input.old) (S.faults input.new)) result }
    ensures taken { IsReadWithin (MOST_INPUT + 1)
        (reading (S.left input.old) (S.left input.new) (S.faults input.old) (S.faults input.new)) }
    ensures behind { IsNotPassed (S.end input.old) (S.end input.new) }
{
    let given = read_checked(alloc, input)?;
    let text = text_again(alloc, &given)?;
    Ok(text)
}
