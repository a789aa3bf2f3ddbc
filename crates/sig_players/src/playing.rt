//! The processes of a script make the choices of a record.

ghost use Rattle.std.specs.Prelude.{◌≡◌, ◌<◌, [], true, false, Some, None, IfOk, OnOk, MatchOption, slice_get, vec_len};
ghost use Rattle.std.specs.Bool.{MatchBool};
ghost use Rattle.sig_program.specs.Scripts.{Program};
ghost use Rattle.sig_runs.specs.Machine.{apply, choice};
ghost use Rattle.sig_model.specs.Machine.{acted_at, rules_of};
ghost use Rattle.sig_model.specs.CrewLaw.{IsLawfulCrew, outbox_of, machine_of};
ghost use Rattle.sig_players.specs.Players.{crew_of, AreReady};
ghost use Rattle.sig_choices.specs.Choosing.{AreEmptied, HasMade, HasPosted, IsPosted};

use crate::player::Player;
use sig_base::Steps;
use sig_model::Did;
use sig_terms::Pid;
use std::alloc::AllocError;
use std::sync::ledger::Ledger;

/// Which signal was handed over.
#[derive(Clone, Copy)]
pub(crate) struct Posted {
    /// Its sender.
    pub(crate) from: Pid,
    /// Its receiver.
    pub(crate) to: Pid,
    /// Its number among those of this sender to this receiver.
    pub(crate) number: u64,
}

/// The oldest signal in the outbox of the process at this place joins those that wait for its
/// receiver. Tells which one, and `None` where there was none. The error is want of memory.
pub(crate) fn post_one(players: &mut Vec<Player>, at: usize) -> Result<Option<Posted>, AllocError>
    requires within { at < vec_len players.old }
    requires ready { AreReady players.old.items }
    ensures ready { OnOk result (AreReady players.new.items) }
    ensures len { vec_len players.new ≡ vec_len players.old }
    ensures posted { IfOk result (λ moved. MatchOption moved
        ((crew_of players.new.items ≡ crew_of players.old.items) × (outbox_of (slice_get (crew_of players.old.items) at) ≡ []))
        (λ named. (h : IsPosted (crew_of players.old.items) at (crew_of players.new.items))
        × (named.from ≡ h.signal.from) × (named.to ≡ h.signal.to) × (named.number ≡ h.signal.number))) }
{
    match players[at].next_out() {
        None => Ok(None),
        Some(signal) => {
            let posted = Posted {
                from: signal.from,
                to: signal.to,
                number: signal.number,
            };
            players[signal.to.0 as usize].give(signal)?;
            Ok(Some(posted))
        }
    }
}

/// All signals in the outbox of the process at this place join those that wait for their receivers,
/// the oldest first. The error is want of memory.
fn post_all(players: &mut Vec<Player>, at: usize) -> Result<(), AllocError>
    requires within { at < vec_len players.old }
    requires ready { AreReady players.old.items }
    ensures ready { OnOk result (AreReady players.new.items) }
    ensures len { vec_len players.new ≡ vec_len players.old }
    ensures posted { OnOk result (HasPosted (crew_of players.old.items) at (crew_of players.new.items)) }
    ensures empty { OnOk result (outbox_of (slice_get (crew_of players.new.items) at) ≡ []) }
{
    loop {
        let moved = post_one(players, at)?;
        if moved.is_none() {
            return Ok(());
        }
    }
}

/// Makes this choice of the process of this pid, where it is possible, and tells whether it was: the
/// process executes its next instruction, or handles the oldest signal of this sender, and what it
/// sends joins the signals that wait for their receivers. Of a signal that was handled only the sender
/// is read. The error is want of memory. After `false` or an error the players are of no more use.
/// (Erlang Reference Manual, Processes, Receiving Signals; choices are this project's own.)
///
/// What it makes, and what it tells, is promised where the processes are a lawful crew of some script.
///
/// Asks that each process stands at the place of its pid, is one of as many as there are, as
/// [`sig_process::Process::count`] tells, and has taken in no signal of another; that it has a list for
/// each of them, with signals of that sender alone that may arrive; and that the outboxes are empty.
pub fn choose<L: Ledger>(
    players: &mut Vec<Player>,
    pid: u32,
    did: &Did,
    steps: &mut Steps<L>,
) -> Result<bool, AllocError>
    requires ready { AreReady players.old.items }
    requires empty { AreEmptied (crew_of players.old.items) }
    ensures ready { IfOk result (λ made. made ≡ true → AreReady players.new.items) }
    ensures empty { IfOk result (λ made. made ≡ true → AreEmptied (crew_of players.new.items)) }
    ensures within { IfOk result (λ made. made ≡ true → pid < vec_len players.new) }
    ensures made { (script : Program) → IsLawfulCrew script (crew_of players.old.items) → IfOk result (λ made. MatchBool made
        (HasMade script (crew_of players.old.items) pid (choice pid (acted_at did.now)) (crew_of players.new.items))
        (apply (rules_of script) (machine_of script (crew_of players.old.items)) (choice pid (acted_at did.now)) ≡ None)) }
{
    let at = pid as usize;
    if players.len() <= at {
        return Ok(false);
    }
    let made = players[at].act(did, steps)?;
    if !made {
        return Ok(false);
    }
    post_all(players, at)?;
    Ok(true)
}
