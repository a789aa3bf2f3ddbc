ghost use Rattle.std.specs.Prelude.{◌≡◌, List};
ghost use Rattle.sig_program.specs.Scripts.{Program};
ghost use Rattle.sig_model.specs.Running.{Running};
ghost use Rattle.sig_model.specs.OneWorker.{RunsTo, opened_crew};
ghost use Rattle.sig_model.specs.SettledRun.{IsSettledRun};
ghost use Rattle.sig_model.specs.MadeEvents.{Makes};

/// The run of one worker is a settled run of the script's machine: each of its events is an
/// execution or the handling of the oldest signal of one sender, possible at that moment; the
/// signals that wait at its end are those of the machine; and each process is at rest then. Only a
/// late process may go on, and only by handling a signal. The events stand in the order in which the
/// passes make them. A script has one such run: its end is determined.
pub fn one_worker_run_is_settled()
    ensures settled { (script : Program) (last : List Running) → RunsTo (opened_crew script) last → IsSettledRun script last }
    ensures in_order { (script : Program) (last : List Running) → RunsTo (opened_crew script) last →
        (run : IsSettledRun script last) × Makes (opened_crew script) run.events }
    ensures one_only { (crew a b : List Running) → RunsTo crew a → RunsTo crew b → a ≡ b }
{}
