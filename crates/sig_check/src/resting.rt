//! Whether the processes have come to rest.

ghost use Rattle.std.specs.Prelude.{◌≡◌, ◌<◌, ◌^◌, List, All, IfOk, OnOk, length, map, vec_len};
ghost use Rattle.std.specs.Bool.{MatchBool};
ghost use Rattle.sig_program.specs.Scripts.{Program, IsWithin};
ghost use Rattle.sig_runs.specs.Machine.{At};
ghost use Rattle.sig_runs.specs.Crew.{crew_machine};
ghost use Rattle.sig_runs.specs.Settled.{IsSettled};
ghost use Rattle.sig_model.specs.declared.event.Event.{Event};
ghost use Rattle.sig_model.specs.Machine.{rules_of};
ghost use Rattle.sig_model.specs.Running.{Running};
ghost use Rattle.sig_model.specs.Still.{IsStill, IsStillCrew};
ghost use Rattle.sig_model.specs.CrewLaw.{whole_member};
ghost use Rattle.sig_process.specs.Standing.{runnings_of};
ghost use Rattle.sig_record.specs.RunRecord.{whole_rules};
ghost use Rattle.sig_choices.specs.Choosing.{AreEmptied};
ghost use Rattle.sig_choices.specs.Following.{HasFollowed};
ghost use Rattle.sig_check.specs.Going.{CanGo, SomeCanGo, IsStillAt};

use sig_base::Steps;
use sig_players::execute;
use sig_process::Process;
use std::alloc::AllocError;
use std::sync::ledger::Ledger;

/// A crew that made these events has come to rest exactly where none of its processes can go on, as
/// far as there are fewer than 2^62 events. With as many a signal could have a stamp of 2^62, and its
/// receiver be at rest though it can handle another.
pub fn a_crew_rests_where_none_can_go()
    ensures rests { (script : Program) (events : List (At Event)) (crew : List Running) → All IsWithin script.procs →
        HasFollowed script events crew → AreEmptied crew → IsStillCrew crew →
        IsSettled (whole_rules script) (crew_machine (rules_of script) (map whole_member crew)) }
    ensures goes { (script : Program) (events : List (At Event)) (crew : List Running) → All IsWithin script.procs →
        HasFollowed script events crew → AreEmptied crew → length events < 2 ^ 62 → SomeCanGo crew →
        IsSettled (whole_rules script) (crew_machine (rules_of script) (map whole_member crew)) → ⊥ }
{}

/// Whether the process can handle its next signal or execute its next instruction. Where it can't it
/// is as before. The error is want of memory.
fn can_go<L: Ledger>(process: &mut Process, steps: &mut Steps<L>) -> Result<bool, AllocError>
    ensures { IfOk result (λ goes. MatchBool goes (CanGo process.old.running)
        ((process.new.running ≡ process.old.running) × IsStill process.old.running)) }
{
    if process.can_handle() {
        return Ok(true);
    }
    let goes = execute(process, steps)?;
    Ok(goes)
}

/// The same of the process at this place. The error is want of memory.
fn can_go_at<L: Ledger>(
    procs: &mut Vec<Process>,
    at: usize,
    steps: &mut Steps<L>,
) -> Result<bool, AllocError>
    requires { at < vec_len procs.old }
    ensures goes { IfOk result (λ goes. MatchBool goes (SomeCanGo (runnings_of procs.old.items))
        (IsStillAt at (runnings_of procs.old.items) (runnings_of procs.new.items))) }
    ensures len { OnOk result (vec_len procs.new ≡ vec_len procs.old) }
{
    let goes = can_go(&mut procs[at], steps)?;
    Ok(goes)
}

/// Whether one of the processes can go on. Where none can they are as before. The error is want of
/// memory.
pub(crate) fn can_any_go<L: Ledger>(
    procs: &mut Vec<Process>,
    steps: &mut Steps<L>,
) -> Result<bool, AllocError>
    ensures { IfOk result (λ goes. MatchBool goes (SomeCanGo (runnings_of procs.old.items))
        ((runnings_of procs.new.items ≡ runnings_of procs.old.items) × IsStillCrew (runnings_of procs.old.items))) }
{
    for at in 0..procs.len() {
        let goes = can_go_at(procs, at, steps)?;
        if goes {
            return Ok(true);
        }
    }
    Ok(false)
}
