//! The processes go along the events of a record.

ghost use Rattle.std.specs.Prelude.{◌≡◌, [], true, false, Some, None, IfOk, length, option_copied};
ghost use Rattle.std.specs.Bool.{MatchBool};
ghost use Rattle.sig_program.specs.Scripts.{Program};
ghost use Rattle.sig_record.specs.RunRecord.{events_listed};
ghost use Rattle.sig_players.specs.Players.{crew_of, AreReady};
ghost use Rattle.sig_choices.specs.Choosing.{AreEmptied};
ghost use Rattle.sig_choices.specs.Following.{HasFollowed, StopsAfter, MakesNext};

use sig_base::Steps;
use sig_model::Event;
use sig_players::{Player, choose};
use sig_record::{MergedAt, Report, event_at};
use std::alloc::AllocError;
use std::sync::ledger::Ledger;

/// How far the processes went.
#[derive(Clone, Copy)]
pub(crate) struct Way {
    /// How many events they made.
    pub(crate) made: u64,
    /// Whether these were all.
    pub(crate) whole: bool,
}

/// Makes the choice of this event of the process of this pid, and tells whether that made this event.
/// After `false` and after an error the players are of no more use. The error is want of memory.
fn follow_one<L: Ledger>(
    players: &mut Vec<Player>,
    pid: u32,
    event: &Event,
    steps: &mut Steps<L>,
) -> Result<bool, AllocError>
    requires ready { AreReady players.old.items }
    requires empty { AreEmptied (crew_of players.old.items) }
    ensures ready { IfOk result (λ made. made ≡ true → AreReady players.new.items) }
    ensures empty { IfOk result (λ made. made ≡ true → AreEmptied (crew_of players.new.items)) }
    ensures made { (script : Program) →
        IfOk result (MakesNext script (crew_of players.old.items) pid event.now (crew_of players.new.items)) }
{
    if !choose(players, pid, &event.did, steps)? {
        return Ok(false);
    }
    Ok(players[pid as usize].has_last(event))
}

/// Makes the choices of the events of a record in this order, up to the first that isn't possible or
/// makes another event. The error is want of memory.
pub(crate) fn follow<L: Ledger>(
    players: &mut Vec<Player>,
    reports: &[Report],
    order: &[MergedAt],
    steps: &mut Steps<L>,
) -> Result<Way, AllocError>
    requires ready { AreReady players.old.items }
    requires empty { AreEmptied (crew_of players.old.items) }
    ensures ready { IfOk result (λ way. way.whole ≡ true → AreReady players.new.items) }
    ensures empty { IfOk result (λ way. way.whole ≡ true → AreEmptied (crew_of players.new.items)) }
    ensures followed { (script : Program) → HasFollowed script [] (crew_of players.old.items) → IfOk result (λ way. MatchBool way.whole
        (HasFollowed script (events_listed reports.now order.now) (crew_of players.new.items)
        × (way.made ≡ length (events_listed reports.now order.now)))
        (StopsAfter script (events_listed reports.now order.now) way.made)) }
{
    let mut made = 0;
    for at in order {
        if let Some(event) = event_at(reports, *at) {
            if !follow_one(players, at.pid.0, event, steps)? {
                return Ok(Way { made, whole: false });
            }
            made += 1;
        }
    }
    Ok(Way { made, whole: true })
}
