//! The processes make the choices of a record's events once more.

ghost use Rattle.std.specs.Prelude.{◌≡◌, ℕ, ◌≤◌, ◌++◌, List, [], All, IfOk, length, true};
ghost use Rattle.std.specs.Bool.{MatchBool};
ghost use Rattle.sig_kinds.specs.declared.signal.Signal.{Signal};
ghost use Rattle.sig_program.specs.Scripts.{Program, IsWithin};
ghost use Rattle.sig_runs.specs.Machine.{Machine};
ghost use Rattle.sig_model.specs.ProcessState.{ProcessState};
ghost use Rattle.sig_model.specs.Running.{Running};
ghost use Rattle.sig_record.specs.declared.report.Report.{Report};
ghost use Rattle.sig_record.specs.declared.merging.MergedAt.{MergedAt};
ghost use Rattle.sig_record.specs.RecordOf.{record_of};
ghost use Rattle.sig_record.specs.Merging.{IsMerged};
ghost use Rattle.sig_record.specs.RunRecord.{events_listed, IsRecordOfRun};
ghost use Rattle.sig_players.specs.Players.{crew_of, AreReady};
ghost use Rattle.sig_choices.specs.Choosing.{AreEmptied};
ghost use Rattle.sig_choices.specs.Following.{HasFollowed};
ghost use Rattle.sig_choices.specs.Origins.{origins_of};
ghost use Rattle.sig_check.specs.Replays.{HasRetraced, StopsAt};

use crate::following::Way;
use sig_base::Steps;
use sig_model::Origins;
use sig_players::{Player, choose_telling};
use sig_record::{MergedAt, Report, event_at};
use std::alloc::AllocError;
use std::sync::ledger::Ledger;

/// A crew that made the choices of the events of a record of a run has that record, and where the
/// events are a run each of their choices is possible, if the script's processes keep their bounds (`goes`).
pub fn a_retraced_crew_has_the_record()
    ensures same { (script : Program) (reports : List Report) (order : List MergedAt) (crew : List Running)
        (machine : Machine ProcessState Signal) →
        IsMerged reports order → HasRetraced script (events_listed reports order) crew → AreEmptied crew →
        IsRecordOfRun script machine reports → record_of crew ≡ reports }
    ensures goes { (script : Program) (reports : List Report) (order : List MergedAt)
        (machine : Machine ProcessState Signal) (count : ℕ) →
        IsMerged reports order → All IsWithin script.procs → IsRecordOfRun script machine reports →
        StopsAt script (events_listed reports order) count → ⊥ }
{}

/// Makes the choices of the events of a record in this order, up to the first that isn't possible,
/// and adds the origins of what they send. Which events they make isn't looked at. The error is want
/// of memory.
pub(crate) fn retrace<L: Ledger>(
    players: &mut Vec<Player>,
    reports: &[Report],
    order: &[MergedAt],
    origins: &mut Origins,
    steps: &mut Steps<L>,
) -> Result<Way, AllocError>
    requires ready { AreReady players.old.items }
    requires empty { AreEmptied (crew_of players.old.items) }
    ensures ready { IfOk result (λ way. way.whole ≡ true → AreReady players.new.items) }
    ensures empty { IfOk result (λ way. way.whole ≡ true → AreEmptied (crew_of players.new.items)) }
    ensures few { IfOk result (λ way. way.made ≤ length order.now) }
    ensures retraced { (script : Program) → HasFollowed script [] (crew_of players.old.items) → IfOk result (λ way. MatchBool way.whole
        (HasRetraced script (events_listed reports.now order.now) (crew_of players.new.items))
        (StopsAt script (events_listed reports.now order.now) way.made)) }
    ensures told { (script : Program) → HasFollowed script [] (crew_of players.old.items) → IfOk result (λ way. way.whole ≡ true →
        origins.new ≡ origins.old ++ origins_of script (events_listed reports.now order.now)) }
{
    let mut made = 0;
    for at in order {
        if let Some(event) = event_at(reports, *at) {
            let done = choose_telling(players, at.pid.0, &event.did, origins, steps)?;
            if !done {
                return Ok(Way { made, whole: false });
            }
            made += 1;
        }
    }
    Ok(Way { made, whole: true })
}
