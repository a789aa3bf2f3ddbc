//! The signals of others that wait for a process, those of each sender apart.

ghost use Rattle.std.specs.Prelude.{◌≡◌, ◌<◌, [], All, MatchOption, IfOk, OnOk, vec_len};
ghost use Rattle.sig_kinds.specs.SignalList.{SignalList};
ghost use Rattle.sig_choices.specs.Waiting.{of_sender, IsTaken, IsPut};

use sig_kinds::{Push, Signal, Signals};
use std::alloc::{AllocError, Global};
use std::mem::drop;

/// An empty list of signals for each of so many senders. The error is want of memory.
pub fn none_of(alloc: Global, count: u32) -> Result<Vec<Signals>, AllocError>
    ensures many { IfOk result (λ lists. vec_len lists ≡ count) }
    ensures none { IfOk result (λ lists. All (λ (q : SignalList). q.items ≡ []) lists.items) }
{
    let mut lists = Vec::new(alloc);
    for _i in 0..count {
        lists.push(Signals::new(alloc))?;
    }
    Ok(lists)
}

/// Takes the oldest signal of this sender. `None` exactly where there is none: then nothing is promised of the
/// lists.
pub(crate) fn take_of(waiting: &mut Vec<Signals>, sender: u32) -> Option<Signal>
    ensures { MatchOption result (of_sender sender waiting.old.items ≡ []) (λ x. IsTaken waiting.old.items sender x waiting.new.items) }
{
    let at = sender as usize;
    if at < waiting.len() {
        waiting[at].pop_front()
    } else {
        None
    }
}

/// Puts a signal behind those of its sender. The error is want of memory.
pub(crate) fn put_behind(waiting: &mut Vec<Signals>, signal: Signal) -> Result<(), AllocError>
    requires { signal.from.0 < vec_len waiting.old }
    ensures { OnOk result (IsPut waiting.old.items signal.from.0 signal waiting.new.items) }
{
    let at = signal.from.0 as usize;
    match waiting[at].push(signal) {
        Push::Added => Ok(()),
        Push::Memory { signal } => {
            drop(signal);
            Err(AllocError)
        }
    }
}
