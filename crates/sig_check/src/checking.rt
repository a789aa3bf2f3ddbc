//! The check of a record.

ghost use Rattle.std.specs.Prelude.{◌≡◌, ◌≢◌, ◌<◌, ◌⊎◌, IfOk};
ghost use Rattle.std.specs.Bool.{MatchBool};
ghost use Rattle.sig_program.specs.Scripts.{Program};
ghost use Rattle.sig_model.specs.Still.{IsStillCrew};
ghost use Rattle.sig_model.specs.CrewLaw.{IsLawfulCrew};
ghost use Rattle.sig_record.specs.RecordOf.{record_of};
ghost use Rattle.sig_record.specs.RunRecord.{IsOfSettledRun};
ghost use Rattle.sig_players.specs.Players.{crew_of, AreReady};
ghost use Rattle.sig_choices.specs.Choosing.{AreEmptied};
ghost use Rattle.sig_check.specs.Going.{SomeCanGo};
ghost use Rattle.sig_check.specs.Verdicts.{IsVerdict};

use crate::following::follow;
use crate::opening::{close, open};
use crate::resting::can_any_go;
use crate::verdict::Verdict;
use sig_base::Steps;
use sig_lists::Same;
use sig_model::LAST_STAMP;
use sig_players::Player;
use sig_process::Crew;
use sig_program::Script;
use sig_record::Record;
use std::alloc::{AllocError, Global};
use std::marker::Brand;
use std::sync::ledger::{Blank, Ledger};

/// Whether none of these processes can go on, and this is their record. The error is want of memory.
fn ends_so<L: Ledger>(
    alloc: Global,
    players: Vec<Player>,
    given: &Record,
    steps: &mut Steps<L>,
) -> Result<bool, AllocError>
    requires ready { AreReady players.items }
    requires empty { AreEmptied (crew_of players.items) }
    ensures { (script : Program) → IsLawfulCrew script (crew_of players.items) → IfOk result (λ so. MatchBool so
        (IsStillCrew (crew_of players.items) × (given.now ≡ record_of (crew_of players.items)))
        (SomeCanGo (crew_of players.items) ⊎ (given.now ≢ record_of (crew_of players.items)))) }
{
    let mut procs = close(alloc, players)?;
    let goes = can_any_go(&mut procs, steps)?;
    if goes {
        return Ok(false);
    }
    let gathered = Record::gather(alloc, Crew { procs })?;
    let so = gathered.same(given);
    Ok(so)
}

/// Whether the record is that of a settled run of the script, and else the first event with which it
/// is none, with the steps counted from this blank. The error is want of memory.
fn check_counted<L: Ledger>(
    blank: Blank,
    alloc: Global,
    script: &Script,
    given: &Record,
) -> Result<Verdict, AllocError>
    requires name { blank.name ≡ L.name }
    requires parts { blank.parts ≡ L.parts }
    requires some { 0 < blank.parts }
    ensures { IfOk result (IsVerdict script.now given.now) }
{
    let order = given.merge(alloc)?;
    let reports = given.reports();
    let mut players = open(alloc, script)?;
    let mut steps: Steps<L> = Steps::open(blank);
    let way = follow(&mut players, reports, order.as_slice(), &mut steps)?;
    let made = way.made;
    if LAST_STAMP <= made {
        return Err(AllocError);
    }
    let whole = way.whole;
    if !whole {
        return Ok(Verdict::No { event: made + 1 });
    }
    let so = ends_so(alloc, players, given, &mut steps)?;
    if so {
        return Ok(Verdict::Yes);
    }
    Ok(Verdict::No { event: made + 1 })
}

/// Whether the record is that of a settled run of the script, and else the first event with which
/// it is none. Of the record of a settled run it tells `Yes`. The error is want of memory; a record
/// of 2^62 events, which lies in no memory, has it too.
pub fn check(alloc: Global, script: &Script, given: &Record) -> Result<Verdict, AllocError>
    ensures verdict { IfOk result (IsVerdict script.now given.now) }
    ensures settled { IsOfSettledRun script.now given.now → IfOk result (λ v. v ≡ Verdict.Yes) }
{
    let verdict = check_counted::<Brand>(Blank::new(1), alloc, script, given)?;
    Ok(verdict)
}
