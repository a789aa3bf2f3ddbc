ghost use Rattle.std.specs.Prelude.{◌≡◌, ℕ, List, ◌++◌, length, Some};
ghost use Rattle.sig_kinds.specs.declared.signal.Signal.{Signal};
ghost use Rattle.sig_program.specs.Scripts.{Declared, Program};
ghost use Rattle.sig_runs.specs.Machine.{Machine, At, IsRun};
ghost use Rattle.sig_runs.specs.Crew.{opening_machine};
ghost use Rattle.sig_runs.specs.PairFacts.{HoldOfPairs};
ghost use Rattle.sig_model.specs.declared.event.Event.{Event};
ghost use Rattle.sig_model.specs.ProcessState.{ProcessState};
ghost use Rattle.sig_model.specs.Machine.{rules_of, opening_of};
ghost use Rattle.sig_model.specs.Running.{Running, opened, exec_next, handle_next};
ghost use Rattle.sig_model.specs.Keeping.{IsKeeping};
ghost use Rattle.sig_model.specs.Accounts.{IsNumbered};
ghost use Rattle.sig_model.specs.PairNumbers.{numbers_for};

/// The numbers of the signals that a process sends to each process of the script are 1, 2, 3 and so
/// on, in the order of their sending. So it is of each process that keeps what a running process has
/// to keep (`kept`): when the script opens it, when it executes an instruction or handles a signal,
/// when signals come to it and when signals leave its outbox. In every run of a script's machine, the
/// numbers of the signals on their way from one process to another count up by one, and the sender's
/// next number for the other is the one after them (`on_the_way`).
pub fn signals_are_numbered()
    ensures opened { (pid count turns : ℕ) (p : Declared) → IsNumbered (opened pid count turns p) }
    ensures kept { (r : Running) → IsKeeping r → IsNumbered r }
    ensures executed { (r t : Running) → IsKeeping r → exec_next r ≡ Some t → IsNumbered t }
    ensures handled { (r t : Running) → IsKeeping r → handle_next r ≡ Some t → IsNumbered t }
    ensures arrived { (r : Running) (xs : List Signal) → IsNumbered r → IsNumbered (record r { taken_in = r.taken_in ++ xs }) }
    ensures fetched { (r : Running) (left : List Signal) → IsNumbered r → IsNumbered (record r { outbox = left }) }
    ensures on_the_way { (script : Program) (events : List (At Event)) (end : Machine ProcessState Signal) →
        IsRun (rules_of script) (opening_machine (opening_of script)) events end →
        HoldOfPairs (numbers_for (length script.procs)) (rules_of script) end }
{}
