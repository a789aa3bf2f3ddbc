//! The processes of a script, before they make a choice, and after the last.

ghost use Rattle.std.specs.Prelude.{◌≡◌, ◌++◌, All, IfOk, OnOk};
ghost use Rattle.sig_kinds.specs.SignalList.{SignalList};
ghost use Rattle.sig_model.specs.Keeping.{IsArriving};
ghost use Rattle.sig_model.specs.OneWorker.{opened_crew};
ghost use Rattle.sig_model.specs.CrewLaw.{IsLawfulCrew};
ghost use Rattle.sig_process.specs.Standing.{runnings_of};
ghost use Rattle.sig_choices.specs.Waiting.{joined};
ghost use Rattle.sig_players.specs.Players.{seen, crew_of, IsReady, AreReady, HasNothing};

use sig_kinds::Signals;
use sig_players::{Player, arrive, none_of};
use sig_process::{Crew, Process};
use sig_program::Script;
use std::alloc::{AllocError, Global};
use std::mem::drop;

/// These processes, for which nothing waits. The error is want of memory.
fn seat_all(alloc: Global, count: u32, procs: Vec<Process>) -> Result<Vec<Player>, AllocError>
    requires { All (HasNothing count) (runnings_of procs.items) }
    ensures each { IfOk result (λ players. All IsReady players.items) }
    ensures crew { IfOk result (λ players. crew_of players.items ≡ runnings_of procs.items) }
{
    let mut players = Vec::new(alloc);
    for process in procs {
        let waiting = match none_of(alloc, count) {
            Ok(waiting) => waiting,
            Err(error) => {
                drop(process);
                return Err(error);
            }
        };
        players.push(Player { process, waiting })?;
    }
    Ok(players)
}

/// The processes of the script, as the script opens them: none has made a choice yet. The error is want of
/// memory. (Erlang Reference Manual, Processes, Process Creation; scripts are this project's own.)
pub fn open(alloc: Global, script: &Script) -> Result<Vec<Player>, AllocError>
    ensures ready { IfOk result (λ players. AreReady players.items) }
    ensures opened { IfOk result (λ players. crew_of players.items ≡ opened_crew script.now) }
    ensures lawful { IfOk result (λ players. IsLawfulCrew script.now (crew_of players.items)) }
{
    let crew = Crew::open(alloc, script)?;
    let players = seat_all(alloc, script.count(), crew.procs)?;
    Ok(players)
}

/// The process takes these signals in, the oldest first. The error is want of memory.
fn take_in(process: &mut Process, mut signals: Signals) -> Result<(), AllocError>
    requires { All (IsArriving process.old.running.pid process.old.running.count) signals.items }
    ensures { OnOk result (process.new.running ≡ record process.old.running { taken_in = process.old.running.taken_in ++ signals.items }) }
{
    while let Some(signal) = signals.pop_front() {
        arrive(process, signal)?;
    }
    Ok(())
}

/// The process takes all these signals in, by ascending sender. The error is want of memory.
fn take_all(process: &mut Process, waiting: Vec<Signals>) -> Result<(), AllocError>
    requires { All (λ (q : SignalList). All (IsArriving process.old.running.pid process.old.running.count) q.items) waiting.items }
    ensures { OnOk result (process.new.running
        ≡ record process.old.running { taken_in = process.old.running.taken_in ++ joined waiting.items }) }
{
    for signals in waiting {
        take_in(process, signals)?;
    }
    Ok(())
}

/// The process, which takes in all that waits for it. The error is want of memory.
fn close_one(player: Player) -> Result<Process, AllocError>
    requires { IsReady player }
    ensures { IfOk result (λ process. process.running ≡ seen player) }
{
    let mut process = player.process;
    match take_all(&mut process, player.waiting) {
        Ok(()) => Ok(process),
        Err(error) => {
            drop(process);
            Err(error)
        }
    }
}

/// These processes, each of which takes in all that waits for it, by ascending sender. Where their
/// outboxes are empty, as [`sig_players::choose`] leaves them, and each stands at the place of its pid,
/// they can be gathered into a record. The error is want of memory.
///
/// Asks that each process itself has taken in no signal of another, and has a list for each process of
/// the script, with signals of that sender alone that may arrive.
pub fn close(alloc: Global, players: Vec<Player>) -> Result<Vec<Process>, AllocError>
    requires { All IsReady players.items }
    ensures { IfOk result (λ procs. runnings_of procs.items ≡ crew_of players.items) }
{
    let mut procs = Vec::new(alloc);
    for player in players {
        let process = close_one(player)?;
        procs.push(process)?;
    }
    Ok(procs)
}
