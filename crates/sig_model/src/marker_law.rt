ghost use Rattle.std.specs.Prelude.{◌≡◌, ℕ, List, All, Some, length, slice_get};
ghost use Rattle.sig_kinds.specs.declared.signal.Signal.{Signal};
ghost use Rattle.sig_program.specs.Scripts.{Declared, Program, IsWithin, IsScriptWithin};
ghost use Rattle.sig_runs.specs.Machine.{Machine, At, IsRun};
ghost use Rattle.sig_runs.specs.Crew.{opening_machine};
ghost use Rattle.sig_runs.specs.Fresh.{MakesFresh};
ghost use Rattle.sig_runs.specs.Marks.{AllMarksSound, KeepsMarksSound, by_whole};
ghost use Rattle.sig_runs.specs.Settled.{IsSettled};
ghost use Rattle.sig_runs.specs.Everywhere.{HoldEverywhere};
ghost use Rattle.sig_model.specs.declared.event.Event.{Event};
ghost use Rattle.sig_model.specs.ProcessState.{ProcessState};
ghost use Rattle.sig_model.specs.Executing.{SkipsNone};
ghost use Rattle.sig_model.specs.Machine.{rules_of, opening_of};
ghost use Rattle.sig_model.specs.Marking.{marking, whole_of};
ghost use Rattle.sig_model.specs.NameLaw.{names_below};

/// The marker law of a script's machine. A process makes each reference with its own pid and its
/// next serial, and no other reference is new anywhere. From the opening on, in each run by the
/// manual's receive, which looks at all messages: each reference that stands in a process or in a
/// queued signal was made by its owner, the arrival numbers of the messages rise, and no message
/// that is older than a mark holds the mark's reference, so that no receive through a marker skips a
/// message that could match. So the runs that look from the marks on are the runs that look at all
/// messages, and what is settled for the first is settled for the others.
/// (Erlang Reference Manual, Expressions, Receive; Data Types, Reference. Marks are an aid of the
/// runtime.)
pub fn a_run_from_marks_is_a_run()
    ensures fresh { (script : Program) → MakesFresh marking (rules_of script) }
    ensures keeps { (script : Program) → All IsWithin script.procs →
        KeepsMarksSound marking (rules_of script) (whole_of script) }
    ensures opened { (script : Program) → AllMarksSound marking (opening_machine (opening_of script)) }
    ensures sound { (script : Program) (events : List (At Event)) (end : Machine ProcessState Signal) →
        All IsWithin script.procs →
        IsRun (by_whole (rules_of script) (whole_of script)) (opening_machine (opening_of script)) events end →
        AllMarksSound marking end }
    ensures skips_none { (script : Program) (events : List (At Event)) (end : Machine ProcessState Signal) →
        All IsWithin script.procs →
        IsRun (by_whole (rules_of script) (whole_of script)) (opening_machine (opening_of script)) events end →
        (pid : ℕ) (s : ProcessState) (p : Declared) → slice_get end.procs pid ≡ Some s →
        slice_get script.procs pid ≡ Some p → SkipsNone p s }
    ensures from_the_mark { (script : Program) (events : List (At Event)) (end : Machine ProcessState Signal) →
        All IsWithin script.procs →
        IsRun (by_whole (rules_of script) (whole_of script)) (opening_machine (opening_of script)) events end →
        IsRun (rules_of script) (opening_machine (opening_of script)) events end }
    ensures from_the_head { (script : Program) (events : List (At Event)) (end : Machine ProcessState Signal) →
        All IsWithin script.procs →
        IsRun (rules_of script) (opening_machine (opening_of script)) events end →
        IsRun (by_whole (rules_of script) (whole_of script)) (opening_machine (opening_of script)) events end }
    ensures settled { (script : Program) (m : Machine ProcessState Signal) →
        All IsWithin script.procs → AllMarksSound marking m → IsSettled (rules_of script) m →
        IsSettled (by_whole (rules_of script) (whole_of script)) m }
{}

/// In each run of a script's machine from its opening, every process that is named, in a state or in
/// a queued signal, is one of the script's: so is the owner of each reference. So it is in the runs
/// that look from the marks on, and in those that look at all messages. (Erlang Reference Manual,
/// Data Types, Pid and Reference.)
pub fn only_processes_of_the_script_are_named()
    ensures from_marks { (script : Program) (events : List (At Event)) (end : Machine ProcessState Signal) → IsScriptWithin script →
        IsRun (rules_of script) (opening_machine (opening_of script)) events end →
        HoldEverywhere (names_below (length script.procs)) end }
    ensures over_all { (script : Program) (events : List (At Event)) (end : Machine ProcessState Signal) → IsScriptWithin script →
        All IsWithin script.procs →
        IsRun (by_whole (rules_of script) (whole_of script)) (opening_machine (opening_of script)) events end →
        HoldEverywhere (names_below (length script.procs)) end }
{}
