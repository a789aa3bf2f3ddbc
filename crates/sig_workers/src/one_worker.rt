ghost use Rattle.std.specs.Prelude.{◌≡◌, ◌<◌, [], IfOk, OnOk, true, vec_len};
ghost use Rattle.sig_program.specs.Scripts.{Program};
ghost use Rattle.sig_model.specs.Keeping.{IsPlaced};
ghost use Rattle.sig_model.specs.CrewLaw.{IsLawfulCrew};
ghost use Rattle.sig_model.specs.OneWorker.{pass, RunsTo, IsClear};
ghost use Rattle.sig_model.specs.Still.{IsStillCrew};
ghost use Rattle.sig_process.specs.Standing.{runnings_of};
ghost use Rattle.sig_workers.specs.Room.{room};

use crate::visiting::visit_counted;
use sig_base::Steps;
use sig_kinds::Signals;
use sig_process::{Crew, Process};
use std::alloc::AllocError;
use std::marker::Brand;
use std::sync::ledger::{Blank, Ledger};

/// A pass over all processes, by ascending pid. Tells whether it had an event. What is sent lies in
/// the list on its way, which is empty before and after.
fn pass_all<L: Ledger>(
    procs: &mut Vec<Process>,
    sent: &mut Signals,
    steps: &mut Steps<L>,
) -> Result<bool, AllocError>
    requires placed { IsPlaced (runnings_of procs.old.items) }
    requires empty { sent.old.items ≡ [] }
    ensures pass { IfOk result (λ moved. (runnings_of procs.new.items, moved) ≡ pass (runnings_of procs.old.items)) }
    ensures placed { OnOk result (IsPlaced (runnings_of procs.new.items)) }
    ensures empty { OnOk result (sent.new.items ≡ []) }
    ensures clear { IsClear (runnings_of procs.old.items) → OnOk result (IsClear (runnings_of procs.new.items)) }
    ensures falls { IfOk result (λ moved. moved ≡ true → room (runnings_of procs.new.items) < room (runnings_of procs.old.items)) }
    ensures len { vec_len procs.new ≡ vec_len procs.old }
{
    let mut moved = false;
    for at in 0..procs.len() {
        let here = visit_counted(procs, at, sent, steps)?;
        moved |= here;
    }
    Ok(moved)
}

/// Passes until one has no event.
fn run_passes<L: Ledger>(blank: Blank, crew: Crew) -> Result<Crew, AllocError>
    requires name { blank.name ≡ L.name }
    requires parts { blank.parts ≡ L.parts }
    requires some { 0 < blank.parts }
    requires clear { IsClear (runnings_of crew) }
    requires placed { IsPlaced (runnings_of crew) }
    ensures run { IfOk result (λ c. RunsTo (runnings_of crew) (runnings_of c)) }
    ensures clear { IfOk result (λ c. IsClear (runnings_of c)) }
    ensures lawful { (script : Program) → IsLawfulCrew script (runnings_of crew) → IfOk result (λ c. IsLawfulCrew script (runnings_of c)) }
    ensures still { IfOk result (λ c. IsStillCrew (runnings_of c)) }
{
    let mut steps: Steps<L> = Steps::open(blank);
    let mut procs = crew.procs;
    let mut sent = Signals::new(*procs.allocator());
    loop {
        let moved = pass_all(&mut procs, &mut sent, &mut steps)?;
        if !moved {
            return Ok(Crew { procs });
        }
    }
}

/// The run of one worker: passes over the processes until one has no event. No process of the crew
/// that it gives can do anything. It ends, since each pass but the last raises the sum of the
/// processes' stamps, and no stamp is above 2^62. The error is want of memory.
///
/// Asks that nothing is left of what a process of the crew has sent to others (its outbox is
/// empty), that the process at place p of the crew, from 0, has the pid p, and that each is one of
/// as many as the crew has, as [`Process::count`] tells.
pub fn run_one(crew: Crew) -> Result<Crew, AllocError>
    requires clear { IsClear (runnings_of crew) }
    requires placed { IsPlaced (runnings_of crew) }
    ensures run { IfOk result (λ c. RunsTo (runnings_of crew) (runnings_of c)) }
    ensures clear { IfOk result (λ c. IsClear (runnings_of c)) }
    ensures lawful { (script : Program) → IsLawfulCrew script (runnings_of crew) → IfOk result (λ c. IsLawfulCrew script (runnings_of c)) }
    ensures still { IfOk result (λ c. IsStillCrew (runnings_of c)) }
{
    run_passes::<Brand>(Blank::new(1), crew)
}
