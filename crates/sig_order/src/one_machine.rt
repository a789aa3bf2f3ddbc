ghost use Rattle.std.specs.Prelude.{All, List};
ghost use Rattle.sig_kinds.specs.declared.signal.Signal.{Signal};
ghost use Rattle.sig_program.specs.Scripts.{Program, IsWithin};
ghost use Rattle.sig_runs.specs.Machine.{Machine, At, IsRun};
ghost use Rattle.sig_runs.specs.Crew.{opening_machine};
ghost use Rattle.sig_model.specs.declared.event.Event.{Event};
ghost use Rattle.sig_model.specs.ProcessState.{ProcessState};
ghost use Rattle.sig_model.specs.Machine.{rules_of, opening_of};
ghost use Rattle.sig_record.specs.RunRecord.{whole_rules};
ghost use Rattle.sig_order.specs.OneMachine.{AllowTheSame};

/// The saved place of a receive changes no choice. At each machine to which a run leads from the
/// opening of a script that keeps its bounds, the rules by which a receive looks from its saved place
/// and those by which it looks at all messages allow the same choices: each with the same event, the
/// same machine behind it, and the same signals sent. So it is behind the runs that look from the
/// marks on, and behind those that look at all messages. What is said by the first of these rules, as
/// of a replay, where it stops, and of the origins of signals, is so said of the machine of the
/// manual. (Erlang Reference Manual, Expressions, Receive. The saved place is this project's own.)
pub fn a_saved_place_changes_no_choice()
    ensures from_marks { (script : Program) (events : List (At Event)) (end : Machine ProcessState Signal) →
        All IsWithin script.procs →
        IsRun (rules_of script) (opening_machine (opening_of script)) events end → AllowTheSame script end }
    ensures over_all { (script : Program) (events : List (At Event)) (end : Machine ProcessState Signal) →
        All IsWithin script.procs →
        IsRun (whole_rules script) (opening_machine (opening_of script)) events end → AllowTheSame script end }
{}
