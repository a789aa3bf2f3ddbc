//! The processes of a script make the choices of a record, and the origins of what they send are told.

ghost use Rattle.std.specs.Prelude.{◌≡◌, ◌<◌, ◌-◌, ◌+◌, ◌++◌, [], true, None, IfOk, OnOk, map, length, slice_get, slice_index, vec_len};
ghost use Rattle.std.specs.Bool.{MatchBool};
ghost use Rattle.sig_program.specs.Scripts.{Program};
ghost use Rattle.sig_runs.specs.Machine.{apply, choice};
ghost use Rattle.sig_model.specs.Machine.{acted_at, rules_of};
ghost use Rattle.sig_model.specs.SettledRun.{events_of};
ghost use Rattle.sig_model.specs.CrewLaw.{IsLawfulCrew, outbox_of, machine_of};
ghost use Rattle.sig_players.specs.Players.{seen, crew_of, IsReady, AreReady};
ghost use Rattle.sig_choices.specs.Choosing.{Acts, Refuses, AreEmptied, HasMade, HasPosted};
ghost use Rattle.sig_choices.specs.Origins.{origin_of, origins_in, own_origins, sent_at};

use crate::player::Player;
use crate::playing::post_one;
use sig_base::Steps;
use sig_model::{Did, Origin, Origins};
use sig_terms::Pid;
use std::alloc::AllocError;
use std::sync::ledger::Ledger;

/// All signals in the outbox of the process at this place join those that wait for their receivers,
/// the oldest first, and the origin of each is added: the event with this number sent it. The error is
/// want of memory.
fn post_telling(
    players: &mut Vec<Player>,
    at: usize,
    event: u64,
    origins: &mut Origins,
) -> Result<(), AllocError>
    requires within { at < vec_len players.old }
    requires ready { AreReady players.old.items }
    ensures ready { OnOk result (AreReady players.new.items) }
    ensures len { vec_len players.new ≡ vec_len players.old }
    ensures posted { OnOk result (HasPosted (crew_of players.old.items) at (crew_of players.new.items)) }
    ensures empty { OnOk result (outbox_of (slice_get (crew_of players.new.items) at) ≡ []) }
    ensures told { OnOk result (origins.new
        ≡ origins.old ++ map (origin_of event) (outbox_of (slice_get (crew_of players.old.items) at))) }
{
    loop {
        let moved = post_one(players, at)?;
        let Some(posted) = moved else {
            return Ok(());
        };
        origins.add(Origin {
            from: posted.from,
            to: posted.to,
            number: posted.number,
            event,
        })?;
    }
}

/// Adds the origins of the signals of this process to itself with the numbers from the first to below
/// the end, which the event with this number sent. The error is want of memory.
fn tell_own(
    pid: Pid,
    event: u64,
    first: u64,
    end: u64,
    origins: &mut Origins,
) -> Result<(), AllocError>
    ensures { OnOk result (origins.new ≡ origins.old ++ own_origins pid.0 event first (end - first)) }
{
    for number in first..end {
        origins.add(Origin {
            from: pid,
            to: pid,
            number,
            event,
        })?;
    }
    Ok(())
}

impl Player {
    /// Does what an event did, where that may be, and tells whether it did; then the origins of what it
    /// sends to itself are added. The error is want of memory. After `false` or an error the player is
    /// of no more use, and nothing is told of the origins.
    fn act_telling<L: Ledger>(
        &mut self,
        did: &Did,
        origins: &mut Origins,
        steps: &mut Steps<L>,
    ) -> Result<bool, AllocError>
        requires { IsReady self.old }
        ensures ready { IfOk result (λ made. made ≡ true → IsReady self.new) }
        ensures made { IfOk result (λ made. MatchBool made
            (Acts did.now (seen self.old) (seen self.new))
            (Refuses did.now (seen self.old))) }
        ensures told { IfOk result (λ made. made ≡ true → origins.new ≡ origins.old
            ++ own_origins self.old.process.running.pid (length self.new.process.running.events)
            (slice_index self.old.process.running.state.counts.next_numbers self.old.process.running.pid)
            (slice_index self.new.process.running.state.counts.next_numbers self.old.process.running.pid
            - slice_index self.old.process.running.state.counts.next_numbers self.old.process.running.pid)) }
    {
        let pid = self.process.pid();
        let first = self.process.next_number(pid);
        let made = self.act(did, steps)?;
        if !made {
            return Ok(false);
        }
        let event = self.process.events().len() as u64;
        let end = self.process.next_number(pid);
        tell_own(pid, event, first, end, origins)?;
        Ok(true)
    }
}

/// Makes this choice as [`crate::choose`] does, and adds the origin of each signal that is sent by it: first
/// those of the signals of the process to itself, then those to others, each in the order in which
/// they were sent. The error is want of memory. After `false` or an error the players are of no more
/// use, and nothing is told of the origins. As there, this is promised where the processes are a lawful
/// crew of some script.
///
/// Asks what [`crate::choose`] asks.
pub fn choose_telling<L: Ledger>(
    players: &mut Vec<Player>,
    pid: u32,
    did: &Did,
    origins: &mut Origins,
    steps: &mut Steps<L>,
) -> Result<bool, AllocError>
    requires ready { AreReady players.old.items }
    requires empty { AreEmptied (crew_of players.old.items) }
    ensures ready { IfOk result (λ made. made ≡ true → AreReady players.new.items) }
    ensures empty { IfOk result (λ made. made ≡ true → AreEmptied (crew_of players.new.items)) }
    ensures made { (script : Program) → IsLawfulCrew script (crew_of players.old.items) → IfOk result (λ made. MatchBool made
        (HasMade script (crew_of players.old.items) pid (choice pid (acted_at did.now)) (crew_of players.new.items))
        (apply (rules_of script) (machine_of script (crew_of players.old.items)) (choice pid (acted_at did.now)) ≡ None)) }
    ensures told { (script : Program) → IsLawfulCrew script (crew_of players.old.items) → IfOk result (λ made. made ≡ true →
        origins.new ≡ origins.old ++ origins_in pid (length (events_of (slice_get (crew_of players.old.items) pid)) + 1)
        (sent_at (rules_of script) (machine_of script (crew_of players.old.items)) (choice pid (acted_at did.now)))) }
{
    let at = pid as usize;
    if players.len() <= at {
        return Ok(false);
    }
    let made = players[at].act_telling(did, origins, steps)?;
    if !made {
        return Ok(false);
    }
    let event = players[at].process.events().len() as u64;
    post_telling(players, at, event, origins)?;
    Ok(true)
}
