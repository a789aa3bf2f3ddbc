ghost use Rattle.std.specs.Prelude.{◌≡◌, ◌++◌, [], IfOk, OnOk, All, map};
ghost use Rattle.sig_model.specs.Keeping.{IsKeeping};
ghost use Rattle.sig_model.specs.OneWorker.{IsClear};
ghost use Rattle.sig_process.specs.Standing.{runnings_of};
ghost use Rattle.sig_record.specs.Sorting.{sorted_by, is_lower};
ghost use Rattle.sig_record.specs.RecordOf.{left_of, sorted_report, sorted_record};

use crate::report::{Left, Lefts, Queued, Report};
use sig_inner::Inner;
use sig_kinds::{Signal, Signals};
use sig_lists::Sequence;
use sig_process::Process;
use sig_program::{Instrs, Labels};
use std::alloc::{AllocError, Global};
use std::mem;

/// What is left of the messages.
fn lefts_of(alloc: Global, mut inner: Inner) -> Result<Lefts, AllocError>
    ensures { IfOk result (λ lefts. lefts ≡ map left_of inner.queue.inbox.messages) }
{
    let mut lefts = Vec::with_capacity(alloc, inner.len())?;
    while let Some((arrival, message)) = inner.pop_front() {
        lefts.push(Left { arrival, message })?;
    }
    Ok(Sequence::from_vec(lefts))
}

/// Moves the signals to the end of the others.
fn move_all(waiting: &mut Vec<Signal>, mut signals: Signals) -> Result<(), AllocError>
    ensures { OnOk result (waiting.new.items ≡ waiting.old.items ++ signals.items) }
{
    waiting.reserve(signals.len())?;
    while let Some(signal) = signals.pop_front() {
        waiting.push(signal)?;
    }
    Ok(())
}

/// Sorts the signals by sender and then number. Of two with one sender and number the one that
/// stood first stays first.
fn sort(waiting: &mut Vec<Signal>) -> Result<(), AllocError>
    ensures { OnOk result (waiting.new.items ≡ sorted_by is_lower waiting.old.items) }
{
    waiting.sort_by_key(|signal| (signal.from.0, signal.number))
}

/// The signals of a process to itself and those of others, sorted by sender and then number.
fn queued_of(alloc: Global, own: Signals, taken_in: Signals) -> Result<Queued, AllocError>
    ensures { IfOk result (λ queued. queued ≡ sorted_by is_lower (own.items ++ taken_in.items)) }
{
    let mut waiting = Vec::new(alloc);
    move_all(&mut waiting, own)?;
    move_all(&mut waiting, taken_in)?;
    sort(&mut waiting)?;
    Ok(Sequence::from_vec(waiting))
}

/// What is left of the messages, and the signals that wait.
fn waiting_of(
    alloc: Global,
    left: Inner,
    own: Signals,
    taken_in: Signals,
) -> Result<(Lefts, Queued), AllocError>
    ensures left { IfOk result (λ waiting. waiting.0 ≡ map left_of left.queue.inbox.messages) }
    ensures queued { IfOk result (λ waiting. waiting.1 ≡ sorted_by is_lower (own.items ++ taken_in.items)) }
{
    let left = lefts_of(alloc, left)?;
    let queued = queued_of(alloc, own, taken_in)?;
    Ok((left, queued))
}

/// Lets go of a process's part of the script. Where the program is about to end it stays where it lies.
fn let_go(labels: Labels, instrs: Instrs, ends: bool) {
    if ends {
        mem::forget(labels);
        mem::forget(instrs);
    } else {
        drop(labels);
        drop(instrs);
    }
}

/// The report of a process. Where the program is about to end its part of the script stays where it lies.
fn report(alloc: Global, process: Process, ends: bool) -> Result<Report, AllocError>
    requires { process.running.outbox ≡ [] }
    ensures report { IfOk result (λ report. report ≡ sorted_report process.running) }
    ensures keeps { IsKeeping process.running }
{
    let parts = process.into_parts();
    let_go(parts.labels, parts.instrs, ends);
    let (left, queued) = waiting_of(alloc, parts.left, parts.own, parts.taken_in)?;
    Ok(Report {
        pid: parts.pid,
        name: parts.name,
        events: parts.events,
        left,
        queued,
        state: parts.state,
    })
}

/// The reports of the processes. Where the program is about to end their parts of the script stay where they lie.
pub(crate) fn gather_all(
    alloc: Global,
    procs: Vec<Process>,
    ends: bool,
) -> Result<Vec<Report>, AllocError>
    requires { IsClear (runnings_of procs.items) }
    ensures reports { IfOk result (λ reports. reports.items ≡ sorted_record (runnings_of procs.items)) }
    ensures keeping { OnOk result (All IsKeeping (runnings_of procs.items)) }
{
    let mut reports = Sequence::new(alloc);
    for process in procs {
        reports.add(report(alloc, process, ends)?)?;
    }
    Ok(reports.into_vec())
}
