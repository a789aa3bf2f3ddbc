//! A record's choices, made once more.

ghost use Rattle.std.specs.Prelude.{◌≡◌, ◌<◌, IfOk, List};
ghost use Rattle.sig_kinds.specs.declared.signal.Signal.{Signal};
ghost use Rattle.sig_program.specs.Scripts.{Program};
ghost use Rattle.sig_runs.specs.Machine.{Machine};
ghost use Rattle.sig_model.specs.ProcessState.{ProcessState};
ghost use Rattle.sig_record.specs.declared.report.Report.{Report};
ghost use Rattle.sig_record.specs.RunRecord.{IsRecordOfRun};
ghost use Rattle.sig_check.specs.Replays.{IsReplay, IsSameReplay, GivesAgain};

use crate::opening::{close, open};
use crate::retracing::retrace;
use sig_base::Steps;
use sig_lists::Sequence;
use sig_model::{LAST_STAMP, Origins};
use sig_process::Crew;
use sig_program::Script;
use sig_record::Record;
use std::alloc::{AllocError, Global};
use std::marker::Brand;
use std::sync::ledger::{Blank, Ledger};

/// What a replay of a record comes to.
#[derive(Drop)]
pub enum Replaying {
    /// The choice of this event, counted from 1, isn't possible after those before it.
    Stopped { event: u64 },
    /// All choices were made, by this crew, whose outboxes are empty; and these are the origins of the
    /// signals that were sent.
    Replayed { crew: Crew, origins: Origins },
}

/// A script and a record determine what a replay returns: where one replay stops, each stops at the same
/// event; else each has the same record, the same origins in the same order, and the same machine at its end
/// (the state of each process, and the signals of each sender that wait for it).
pub fn a_record_has_one_replay()
    ensures { (script : Program) (reports : List Report) (a b : Replaying) →
        IsReplay script reports a → IsReplay script reports b → IsSameReplay script a b }
{}

/// Makes the choices of the record's events in their order, with the steps counted from this blank.
/// The error is want of memory.
fn replay_counted<L: Ledger>(
    blank: Blank,
    alloc: Global,
    script: &Script,
    given: &Record,
) -> Result<Replaying, AllocError>
    requires name { blank.name ≡ L.name }
    requires parts { blank.parts ≡ L.parts }
    requires some { 0 < blank.parts }
    ensures replay { IfOk result (IsReplay script.now given.now) }
    ensures again { (machine : Machine ProcessState Signal) → IsRecordOfRun script.now machine given.now →
        IfOk result (GivesAgain given.now) }
{
    let order = given.merge(alloc)?;
    let reports = given.reports();
    let mut players = open(alloc, script)?;
    let mut origins = Sequence::new(alloc);
    let mut steps: Steps<L> = Steps::open(blank);
    let way = retrace(
        &mut players,
        reports,
        order.as_slice(),
        &mut origins,
        &mut steps,
    )?;
    let made = way.made;
    if LAST_STAMP <= made {
        return Err(AllocError);
    }
    let whole = way.whole;
    if !whole {
        return Ok(Replaying::Stopped { event: made + 1 });
    }
    let procs = close(alloc, players)?;
    Ok(Replaying::Replayed {
        crew: Crew { procs },
        origins,
    })
}

/// Makes the choices of the record's events in their order, and looks at nothing else of the record.
/// With the crew it gives the origins of the run that was made: which event of its sender sent each
/// signal, where the events of each process are counted from 1. They stand in the order of these
/// events; of one event those of the signals to its own process come first, and else they stand in the
/// order of sending. Of the record of a run it gives a crew with this record, so that `gather` of the
/// crew gives it. The error is want of memory; a record of 2^62 events, which lies in no memory, has
/// it too.
pub fn replay(alloc: Global, script: &Script, given: &Record) -> Result<Replaying, AllocError>
    ensures replay { IfOk result (IsReplay script.now given.now) }
    ensures again { (machine : Machine ProcessState Signal) → IsRecordOfRun script.now machine given.now →
        IfOk result (GivesAgain given.now) }
{
    let replay = replay_counted::<Brand>(Blank::new(1), alloc, script, given)?;
    Ok(replay)
}
