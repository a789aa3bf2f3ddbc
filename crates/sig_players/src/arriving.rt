//! A signal arrives at a process.
ghost use Rattle.std.specs.Prelude.{◌≡◌, MatchResult};
ghost use Rattle.sig_model.specs.Keeping.{IsArriving};
ghost use Rattle.sig_model.specs.OneWorker.{arrived};

use sig_kinds::{Push, Signal};
use sig_process::Process;
use std::alloc::AllocError;
use std::mem::drop;

/// The signal waits for the process, behind the others. The error is want of memory; then the
/// process is as before, and the signal is dropped, since those who hand it over give up then.
///
/// Asks that the signal is of another process, goes to this one, names only processes below
/// [`Process::count`], and has a stamp of at most 2^62.
pub fn arrive(process: &mut Process, signal: Signal) -> Result<(), AllocError>
    requires { IsArriving process.old.running.pid process.old.running.count signal }
    ensures { MatchResult result
        (λ _. process.new ≡ record process.old { running = arrived process.old.running signal })
        (λ _. process.new ≡ process.old) }
{
    match process.arrive(signal) {
        Push::Added => Ok(()),
        Push::Memory { signal } => {
            drop(signal);
            Err(AllocError)
        }
    }
}
