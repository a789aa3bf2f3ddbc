//! A process executes, where it may.
ghost use Rattle.std.specs.Prelude.{◌≡◌, false, Some, None, IfOk, MatchResult};
ghost use Rattle.std.specs.Bool.{MatchBool};
ghost use Rattle.sig_model.specs.Running.{exec_next};

use sig_base::Steps;
use sig_process::{Exec, Process};
use std::alloc::AllocError;
use std::sync::ledger::Ledger;

/// Executes the next instruction, where that may be, and tells whether it did. Where it did not, the
/// process is as before, but for the place from which a receive looks on. The error is want of memory;
/// then the process is as before in the same sense.
pub fn execute<L: Ledger>(process: &mut Process, steps: &mut Steps<L>) -> Result<bool, AllocError>
    ensures made { IfOk result (λ made. MatchBool made
        (exec_next process.old.running ≡ Some process.new.running)
        (exec_next process.old.running ≡ None)) }
    ensures same { MatchResult result
        (λ made. made ≡ false → process.new.running ≡ process.old.running)
        (λ _. process.new.running ≡ process.old.running) }
{
    if !process.can_exec() {
        return Ok(false);
    }
    match process.exec(steps)? {
        Exec::Stepped => Ok(true),
        Exec::Waiting => Ok(false),
    }
}
