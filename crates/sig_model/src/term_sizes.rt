ghost use Rattle.std.specs.Prelude.{List, All};
ghost use Rattle.sig_kinds.specs.declared.signal.Signal.{Signal};
ghost use Rattle.sig_runs.specs.Machine.{Machine, At, IsRun};
ghost use Rattle.sig_runs.specs.Crew.{opening_machine};
ghost use Rattle.sig_runs.specs.Everywhere.{HoldEverywhere};
ghost use Rattle.sig_runs.specs.Marks.{by_whole};
ghost use Rattle.sig_program.specs.Scripts.{Program, IsWithin};
ghost use Rattle.sig_model.specs.declared.event.Event.{Event};
ghost use Rattle.sig_model.specs.ProcessState.{ProcessState};
ghost use Rattle.sig_model.specs.Machine.{rules_of, opening_of};
ghost use Rattle.sig_model.specs.Marking.{whole_of};
ghost use Rattle.sig_model.specs.TermSizes.{term_sizes};

/// In every run of every script the terms stay small. Each message and each reason in a signal, and
/// the reason for which a process has ended, have at most 1,024 nodes and depth 64; the value of each
/// variable, and each message that no receive has taken, at most 1,029 nodes and depth 65. So it is
/// in the runs that look from the marks on, and in those that look at all messages. (The bounds are
/// this project's own.)
pub fn terms_stay_small()
    ensures from_marks { (script : Program) (events : List (At Event)) (end : Machine ProcessState Signal) →
        IsRun (rules_of script) (opening_machine (opening_of script)) events end → HoldEverywhere term_sizes end }
    ensures over_all { (script : Program) (events : List (At Event)) (end : Machine ProcessState Signal) →
        All IsWithin script.procs →
        IsRun (by_whole (rules_of script) (whole_of script)) (opening_machine (opening_of script)) events end →
        HoldEverywhere term_sizes end }
{}
