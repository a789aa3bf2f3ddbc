ghost use Rattle.std.specs.Prelude.{◌≡◌, ℕ, List, All, Some, None, slice_get, slice_set};
ghost use Rattle.sig_kinds.specs.declared.signal.Signal.{Signal};
ghost use Rattle.sig_program.specs.Scripts.{Program};
ghost use Rattle.sig_runs.specs.Machine.{apply, choice};
ghost use Rattle.sig_model.specs.declared.event.Did.{Did};
ghost use Rattle.sig_model.specs.Machine.{acted_at, rules_of};
ghost use Rattle.sig_model.specs.Keeping.{IsArriving};
ghost use Rattle.sig_model.specs.Running.{Running};
ghost use Rattle.sig_model.specs.CrewLaw.{IsLawfulCrew, machine_of};
ghost use Rattle.sig_choices.specs.Waiting.{AreAlike};
ghost use Rattle.sig_choices.specs.Choosing.{Acts, Refuses, AreEmptied, HasMade};

/// What waits for a process may stand in another order, where the signals of each sender stand as
/// before: the crew stays lawful, and its machine is the same. (Erlang Reference Manual, Processes,
/// Delivery of Signals: nothing is promised of the order of signals of two senders.)
pub fn order_between_senders_is_free()
    ensures lawful { (script : Program) (crew : List Running) (p : ℕ) (r : Running) (xs : List Signal) →
        IsLawfulCrew script crew → slice_get crew p ≡ Some r → AreAlike xs r.taken_in → All (IsArriving r.pid r.count) xs →
        IsLawfulCrew script (slice_set crew p (record r { taken_in = xs })) }
    ensures still { (script : Program) (crew : List Running) (p : ℕ) (r : Running) (xs : List Signal) →
        IsLawfulCrew script crew → slice_get crew p ≡ Some r → AreAlike xs r.taken_in → All (IsArriving r.pid r.count) xs →
        machine_of script (slice_set crew p (record r { taken_in = xs })) ≡ machine_of script crew }
{}

/// What a process of a lawful crew does by a choice is one step of the machine; and where the outboxes
/// are empty and the process can't make the choice, the machine can't. (Erlang Reference Manual,
/// Processes, Receiving Signals; choices are this project's own.)
pub fn a_choice_is_a_step()
    ensures acts { (script : Program) (crew : List Running) (p : ℕ) (r t : Running) (did : Did) →
        IsLawfulCrew script crew → slice_get crew p ≡ Some r → Acts did r t →
        HasMade script crew p (choice p (acted_at did)) (slice_set crew p t) }
    ensures refuses { (script : Program) (crew : List Running) (p : ℕ) (r : Running) (did : Did) →
        IsLawfulCrew script crew → AreEmptied crew → slice_get crew p ≡ Some r → Refuses did r →
        apply (rules_of script) (machine_of script crew) (choice p (acted_at did)) ≡ None }
{}
