//! The signals that wait for a process.

ghost use Rattle.std.specs.Prelude.{◌≡◌, ◌≤◌, option_copied};
ghost use Rattle.sig_model.specs.Running.{next_of};
ghost use Rattle.sig_process.specs.Committing.{behind_first, others_behind};

use sig_kinds::{Signal, Signals};

/// The signal that a process handles next: its oldest own one, or where there is none the oldest of
/// another.
pub(crate) fn next_signal<'a>(own: &'a Signals, taken_in: &'a Signals) -> Option<&'a Signal>
    ensures { option_copied result ≡ next_of own.now.items taken_in.now.items }
{
    match own.get(0) {
        Some(signal) => Some(signal),
        None => taken_in.get(0),
    }
}

/// Takes the next signal.
pub(crate) fn pop_next(own: &mut Signals, taken_in: &mut Signals) -> Option<Signal>
    ensures signal { result ≡ next_of own.old.items taken_in.old.items }
    ensures own { own.new.items ≡ behind_first own.old.items }
    ensures taken_in { taken_in.new.items ≡ others_behind own.old.items taken_in.old.items }
    ensures own_spare { own.old.spare ≤ own.new.spare }
{
    match own.pop_front() {
        Some(signal) => Some(signal),
        None => taken_in.pop_front(),
    }
}
