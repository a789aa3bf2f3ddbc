//! Which sort of signal an event handled.

ghost use Rattle.std.specs.Prelude.{◌≡◌, option_copied};
ghost use Rattle.sig_chart.specs.Sorts.{sort_of_kind, sort_of_target, sort_of_done, sort_of_kept, sort_of_end, sort_sent, told_sort};

use crate::finding::instr_at;
use sig_kinds::Kind;
use sig_model::{Event, Outcome};
use sig_program::{Instr, Script};
use sig_svg::Sort;
use sig_terms::Term;

/// The sort of a signal of this kind.
pub(crate) fn sort_of_kind(kind: &Kind) -> Sort
    ensures { result ≡ sort_of_kind kind.now }
{
    match kind {
        Kind::Message { .. } => Sort::Message,
        Kind::AliasMessage { .. } => Sort::Alias,
        Kind::Link => Sort::Link,
        Kind::Unlink { .. } => Sort::Unlink,
        Kind::UnlinkAck { .. } => Sort::Ack,
        Kind::Monitor { .. } => Sort::Monitor,
        Kind::Demonitor { .. } => Sort::Demonitor,
        Kind::Exit { .. } => Sort::Exit,
        Kind::Down { .. } => Sort::Down,
    }
}

/// A message to this target.
fn sort_of_target(to: &Term) -> Sort
    ensures { result ≡ sort_of_target to.now }
{
    match to {
        Term::Ref(_) => Sort::Alias,
        _ => Sort::Message,
    }
}

/// What an instruction without a result sends.
fn sort_of_done(instr: Option<&Instr>) -> Sort
    ensures { result ≡ sort_of_done (option_copied instr.entry) }
{
    match instr {
        Some(Instr::Link { .. }) => Sort::Link,
        Some(Instr::Unlink { .. }) => Sort::Unlink,
        Some(Instr::ExitTo { .. }) => Sort::Exit,
        _ => Sort::Demonitor,
    }
}

/// What told of an end, where this was kept.
fn sort_of_kept(message: &Term) -> Sort
    ensures { result ≡ sort_of_kept message.now }
{
    match message {
        Term::Tuple(items) => {
            if items.len() == 5 {
                Sort::Down
            } else {
                Sort::Exit
            }
        }
        _ => Sort::ExitOrDown,
    }
}

/// What told of an end, or that there is no such process, where its handling came to this.
fn sort_of_end(outcome: &Outcome) -> Sort
    ensures { result ≡ sort_of_end outcome.now }
{
    match outcome {
        Outcome::Ended { .. } => Sort::Exit,
        Outcome::Kept { message } => sort_of_kept(message),
        _ => Sort::ExitOrDown,
    }
}

/// What an event sent that came to `sent`, where the handling came to `handled`.
fn sort_sent(instr: Option<&Instr>, sent: &Outcome, handled: &Outcome) -> Sort
    ensures { result ≡ sort_sent (option_copied instr.entry) sent.now handled.now }
{
    match sent {
        Outcome::Sent { to, .. } => sort_of_target(to),
        Outcome::Set { .. } => Sort::Monitor,
        Outcome::Answered { .. } => Sort::Demonitor,
        Outcome::Done => sort_of_done(instr),
        Outcome::Kept { .. } => Sort::Demonitor,
        Outcome::Unlinked => Sort::Ack,
        _ => sort_of_end(handled),
    }
}

/// The sort of a signal that this event of the process sent, if it is there, where its handling came to
/// `handled`.
pub(crate) fn told_sort(script: &Script, pid: u32, event: Option<&Event>, handled: &Outcome) -> Sort
    ensures { result ≡ told_sort script.now pid (option_copied event.entry) handled.now }
{
    match event {
        None => Sort::ExitOrDown,
        Some(event) => sort_sent(instr_at(script, pid, &event.did), &event.outcome, handled),
    }
}
