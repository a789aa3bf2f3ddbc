ghost use Rattle.std.specs.Prelude.{◌≡◌, ◌≢◌, ℕ, ◌+◌, List, ◌∷◌, map, length, All, Some, slice_get, slice_set};
ghost use Rattle.sig_kinds.specs.declared.signal.Signal.{Signal};
ghost use Rattle.sig_kinds.specs.Counting.{IsCounting};
ghost use Rattle.sig_program.specs.Scripts.{Program, IsScriptWithin, IsWithin};
ghost use Rattle.sig_runs.specs.Crew.{IsLawful, crew_machine};
ghost use Rattle.sig_runs.specs.Order.{Place, IsOrder, events_at};
ghost use Rattle.sig_runs.specs.OnTheWay.{IsLawfulAtWork};
ghost use Rattle.sig_runs.specs.Settled.{IsSettled};
ghost use Rattle.sig_model.specs.Machine.{rules_of, opening_of};
ghost use Rattle.sig_model.specs.Running.{Running, exec_next, handle_next};
ghost use Rattle.sig_model.specs.OneWorker.{arrived, visit, RunsTo, IsClear, opened_crew};
ghost use Rattle.sig_model.specs.Accounts.{came};
ghost use Rattle.sig_model.specs.SettledRun.{IsSettledRun};
ghost use Rattle.sig_model.specs.CrewLaw.{IsLawfulCrew, IsMachineStep, left_for, whole_member, crew_at_work, machine_of};
ghost use Rattle.sig_model.specs.Still.{IsStillCrew};

/// A lawful crew of processes that run is lawful in the theory of processes that run apart: with
/// what lies in its outboxes, and where these are empty without them.
pub fn lawful_crew_is_lawful()
    ensures at_work { (script : Program) (crew : List Running) → IsLawfulCrew script crew →
        IsLawfulAtWork (rules_of script) (opening_of script) (crew_at_work crew) }
    ensures clear { (script : Program) (crew : List Running) → IsLawfulCrew script crew → IsClear crew →
        IsLawful (rules_of script) (opening_of script) (map whole_member crew) }
{}

/// The crew of a script is lawful as it was opened, and stays lawful when a process executes an
/// instruction or handles a signal, and when the oldest signal of an outbox is taken in by its
/// receiver, which is there; so also through each visit, and through the run of one worker, which
/// leaves the outboxes empty.
pub fn lawful_crew_stays_lawful()
    ensures opened { (script : Program) → IsScriptWithin script → All IsWithin script.procs → IsLawfulCrew script (opened_crew script) }
    ensures executed { (script : Program) (crew : List Running) (p : ℕ) (r t : Running) → IsLawfulCrew script crew →
        slice_get crew p ≡ Some r → exec_next r ≡ Some t → IsLawfulCrew script (slice_set crew p t) }
    ensures handled { (script : Program) (crew : List Running) (p : ℕ) (r t : Running) → IsLawfulCrew script crew →
        slice_get crew p ≡ Some r → handle_next r ≡ Some t → IsLawfulCrew script (slice_set crew p t) }
    ensures delivered { (script : Program) (crew : List Running) (p : ℕ) (r : Running) (x : Signal) (left : List Signal) →
        IsLawfulCrew script crew → slice_get crew p ≡ Some r → r.outbox ≡ x ∷ left →
        (u : Running) × (slice_get crew x.to.0 ≡ Some u)
        × IsLawfulCrew script (slice_set (slice_set crew p (record r { outbox = left })) x.to.0 (arrived u x)) }
    ensures visited { (script : Program) (crew : List Running) (p : ℕ) → IsLawfulCrew script crew → IsLawfulCrew script (visit p crew) }
    ensures run { (script : Program) (crew last : List Running) → IsLawfulCrew script crew → RunsTo crew last → IsLawfulCrew script last }
    ensures clear { (crew last : List Running) → IsClear crew → RunsTo crew last → IsClear last }
{}

/// An event of a process of a lawful crew is one step of the script's machine, in which the signals
/// in the outboxes are on their way; a delivery is no step.
pub fn lawful_crew_goes_by_steps()
    ensures executed { (script : Program) (crew : List Running) (p : ℕ) (r t : Running) → IsLawfulCrew script crew →
        slice_get crew p ≡ Some r → exec_next r ≡ Some t → IsMachineStep script crew p r t }
    ensures handled { (script : Program) (crew : List Running) (p : ℕ) (r t : Running) → IsLawfulCrew script crew →
        slice_get crew p ≡ Some r → handle_next r ≡ Some t → IsMachineStep script crew p r t }
    ensures delivered { (script : Program) (crew : List Running) (p : ℕ) (r u : Running) (x : Signal) (left : List Signal) →
        IsLawfulCrew script crew → slice_get crew p ≡ Some r → r.outbox ≡ x ∷ left → slice_get crew x.to.0 ≡ Some u →
        machine_of script (slice_set (slice_set crew p (record r { outbox = left })) x.to.0 (arrived u x)) ≡ machine_of script crew }
{}

/// A lawful crew with empty outboxes, of which no process can do anything, has come to rest; and so
/// has a lawful crew at the end of the run of one worker.
pub fn lawful_crew_comes_to_rest()
    ensures still { (script : Program) (crew : List Running) → IsLawfulCrew script crew → IsClear crew → IsStillCrew crew →
        IsSettled (rules_of script) (crew_machine (rules_of script) (map whole_member crew)) }
    ensures run { (script : Program) (crew last : List Running) → IsLawfulCrew script crew → IsClear crew → RunsTo crew last →
        IsSettled (rules_of script) (crew_machine (rules_of script) (map whole_member last)) }
{}

/// A lawful crew with empty outboxes, of which no process can do anything, is what a settled run of
/// the script's machine leads to. The run has the crew's events in the order of their stamps, and of
/// equal stamps by pid.
pub fn still_crew_is_a_settled_run()
    ensures { (script : Program) (crew : List Running) (order : List Place) → IsLawfulCrew script crew → IsClear crew →
        IsStillCrew crew → IsOrder (rules_of script) (map whole_member crew) order →
        (run : IsSettledRun script crew) × (run.events ≡ events_at (map whole_member crew) order) }
{}

/// In a lawful crew the signals that lie in an outbox go on with the numbers of those of the same
/// sender that came to their receiver before.
pub fn outboxes_continue_the_numbers()
    ensures { (script : Program) (crew : List Running) (s t : ℕ) (u : Running) → IsLawfulCrew script crew → s ≢ t →
        slice_get crew t ≡ Some u → IsCounting (length (came s u) + 1) (left_for t (slice_get crew s)) }
{}
