ghost use Rattle.std.specs.Prelude.{◌<◌, ◌≤◌, All};
ghost use Rattle.sig_runs.specs.Rules.{KeepStamps};
ghost use Rattle.sig_program.specs.Scripts.{Program};
ghost use Rattle.sig_model.specs.declared.state.TheConstants.{LAST_STAMP};
ghost use Rattle.sig_model.specs.Keeping.{IsKeeping};
ghost use Rattle.sig_model.specs.Machine.{rules_of};
ghost use Rattle.sig_model.specs.Running.{Running};

/// The stamps of every script's machine are as the theory of merged runs wants them: an execution
/// has the process's last stamp plus 1, a handling has 1 plus the greater of the last stamp and the
/// signal's, and each signal has the stamp of the event that sends it. So of a running process no
/// event has a stamp above 2^62, and each signal that it handled had a lower one.
pub fn stamps_are_kept()
    ensures rules { (script : Program) → KeepStamps (rules_of script) }
    ensures events { (r : Running) → IsKeeping r → All (λ e. e.stamp ≤ LAST_STAMP) r.events }
    ensures handled { (r : Running) → IsKeeping r → All (λ x. x.stamp < LAST_STAMP) r.handled }
{}
