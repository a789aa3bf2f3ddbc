ghost use Rattle.std.specs.Prelude.{◌≡◌, All, List};
ghost use Rattle.sig_kinds.specs.declared.signal.Signal.{Signal};
ghost use Rattle.sig_program.specs.Scripts.{Program, IsWithin, IsScriptWithin};
ghost use Rattle.sig_runs.specs.Machine.{Machine};
ghost use Rattle.sig_model.specs.declared.origin.Origin.{Origin};
ghost use Rattle.sig_model.specs.ProcessState.{ProcessState};
ghost use Rattle.sig_choices.specs.Origins.{origins_of};
ghost use Rattle.sig_record.specs.declared.report.Report.{Report};
ghost use Rattle.sig_record.specs.RunRecord.{events_listed, IsRecordOfRun};
ghost use Rattle.sig_order.specs.Happening.{IsTraced, HandledAreTold, QueuedAreTold};

/// The record of a run of a script's plain machine, and the origins of the run's signals, keep what
/// `Happened::build` asks for (`traced`): at most one event sent each signal, and each step leads to a
/// higher stamp, from an event to the next one of its process, and from the event that sent a signal to
/// the one that handled it. Of each signal that an event handled one of the origins tells the event that
/// sent it, and the record has that event (`told`); so it is of each signal that is still queued, and it
/// has the stamp of that event (`queued`). (Erlang Reference Manual, Processes, Delivery of Signals;
/// stamps are Lamport's logical clocks.)
pub fn origins_of_a_run_are_traced()
    ensures traced { (script : Program) (machine : Machine ProcessState Signal) (reports : List Report) (origins : List Origin) →
        IsScriptWithin script → All IsWithin script.procs → (run : IsRecordOfRun script machine reports) →
        origins ≡ origins_of script (events_listed reports run.order) → IsTraced reports origins }
    ensures told { (script : Program) (machine : Machine ProcessState Signal) (reports : List Report) (origins : List Origin) →
        IsScriptWithin script → All IsWithin script.procs → (run : IsRecordOfRun script machine reports) →
        origins ≡ origins_of script (events_listed reports run.order) → HandledAreTold reports origins }
    ensures queued { (script : Program) (machine : Machine ProcessState Signal) (reports : List Report) (origins : List Origin) →
        IsScriptWithin script → All IsWithin script.procs → (run : IsRecordOfRun script machine reports) →
        origins ≡ origins_of script (events_listed reports run.order) → QueuedAreTold reports origins }
{}
