ghost use Rattle.std.specs.Prelude.{◌≡◌, ◌<◌, [], length, All, OnOk, IfOk, IfSome, slice_get, slice_set, Some, vec_len};
ghost use Rattle.sig_model.specs.Keeping.{IsArriving, IsPlaced};
ghost use Rattle.sig_model.specs.OneWorker.{handle_all, exec_or_stay, visited, deliver_all, deliver_to, visit, has_moved};
ghost use Rattle.sig_process.specs.Standing.{runnings_of};

use crate::arriving::arrive;
use sig_base::Steps;
use sig_kinds::{Signal, Signals};
use sig_process::Process;
use std::alloc::AllocError;
use std::sync::ledger::Ledger;

/// Handles signals as long as one may be handled, at most so many.
fn handle_at_most(process: &mut Process, count: usize) -> Result<(), AllocError>
    ensures { OnOk result (process.new.running ≡ handle_all count process.old.running) }
{
    for _i in 0..count {
        if !process.can_handle() {
            return Ok(());
        }
        process.handle()?;
    }
    Ok(())
}

/// Executes the next instruction, where one may be executed.
fn exec_once<L: Ledger>(process: &mut Process, steps: &mut Steps<L>) -> Result<(), AllocError>
    ensures { OnOk result (process.new.running ≡ exec_or_stay process.old.running) }
{
    if process.can_exec() {
        process.exec(steps)?;
    }
    Ok(())
}

/// Visits the process: it handles the signals that wait, and executes one instruction.
#[tactic(auto, unfolding(sig_model::specs::OneWorker::visited))]
fn visit_process<L: Ledger>(process: &mut Process, steps: &mut Steps<L>) -> Result<(), AllocError>
    ensures { OnOk result (process.new.running ≡ visited process.old.running) }
{
    let own = process.own_count();
    let others = process.taken_in_count();
    handle_at_most(process, own)?;
    handle_at_most(process, others)?;
    exec_once(process, steps)
}

/// The signal is delivered: it waits behind the others for its receiver.
fn deliver_one(procs: &mut Vec<Process>, signal: Signal) -> Result<(), AllocError>
    requires placed { IsPlaced (runnings_of procs.old.items) }
    requires arriving { IsArriving signal.to.0 (length procs.old.items) signal }
    ensures procs { OnOk result (runnings_of procs.new.items ≡
        deliver_to (slice_get (runnings_of procs.old.items) signal.to.0) signal (runnings_of procs.old.items)) }
    ensures placed { OnOk result (IsPlaced (runnings_of procs.new.items)) }
    ensures len { vec_len procs.new ≡ vec_len procs.old }
{
    arrive(&mut procs[signal.to.0 as usize], signal)
}

/// Each of the signals is delivered.
#[tactic(auto, unfolding(sig_model::specs::OneWorker::deliver_all))]
fn deliver_each(procs: &mut Vec<Process>, signals: &mut Signals) -> Result<(), AllocError>
    requires placed { IsPlaced (runnings_of procs.old.items) }
    requires arriving { All (λ x. IsArriving x.to.0 (length procs.old.items) x) signals.old.items }
    ensures procs { OnOk result (runnings_of procs.new.items ≡ deliver_all signals.old.items (runnings_of procs.old.items)) }
    ensures placed { OnOk result (IsPlaced (runnings_of procs.new.items)) }
    ensures empty { OnOk result (signals.new.items ≡ []) }
    ensures len { vec_len procs.new ≡ vec_len procs.old }
{
    while let Some(signal) = signals.pop_front() {
        deliver_one(procs, signal)?;
    }
    Ok(())
}

/// Visits the process, and takes what it has sent to others into the empty list.
fn visit_and_take<L: Ledger>(
    process: &mut Process,
    sent: &mut Signals,
    steps: &mut Steps<L>,
) -> Result<(), AllocError>
    requires empty { sent.old.items ≡ [] }
    ensures process { OnOk result (process.new.running ≡ record (visited process.old.running) { outbox = [] }) }
    ensures sent { OnOk result (sent.new.items ≡ (visited process.old.running).outbox) }
    ensures arriving { OnOk result (All (λ x. IsArriving x.to.0 process.old.running.count x) sent.new.items) }
{
    visit_process(process, steps)?;
    process.take_outbox(sent);
    Ok(())
}

/// Visits the process at this place, and takes what it has sent to others into the empty list.
fn visit_at<L: Ledger>(
    procs: &mut Vec<Process>,
    at: usize,
    sent: &mut Signals,
    steps: &mut Steps<L>,
) -> Result<(), AllocError>
    requires within { at < vec_len procs.old }
    requires placed { IsPlaced (runnings_of procs.old.items) }
    requires empty { sent.old.items ≡ [] }
    ensures visit { OnOk result (IfSome (slice_get (runnings_of procs.old.items) at) (λ r.
        (runnings_of procs.new.items ≡ slice_set (runnings_of procs.old.items) at (record (visited r) { outbox = [] }))
        × (sent.new.items ≡ (visited r).outbox))) }
    ensures placed { OnOk result (IsPlaced (runnings_of procs.new.items)) }
    ensures arriving { OnOk result (All (λ x. IsArriving x.to.0 (length procs.old.items) x) sent.new.items) }
    ensures len { vec_len procs.new ≡ vec_len procs.old }
{
    visit_and_take(&mut procs[at], sent, steps)
}

/// Visits the process at this place, and delivers what it sends. The list in which that lies on its
/// way is empty before and after.
#[tactic(auto, unfolding(sig_model::specs::OneWorker::visit))]
fn visit_one<L: Ledger>(
    procs: &mut Vec<Process>,
    at: usize,
    sent: &mut Signals,
    steps: &mut Steps<L>,
) -> Result<(), AllocError>
    requires within { at < vec_len procs.old }
    requires placed { IsPlaced (runnings_of procs.old.items) }
    requires empty { sent.old.items ≡ [] }
    ensures visit { OnOk result (runnings_of procs.new.items ≡ visit at (runnings_of procs.old.items)) }
    ensures placed { OnOk result (IsPlaced (runnings_of procs.new.items)) }
    ensures empty { OnOk result (sent.new.items ≡ []) }
    ensures len { vec_len procs.new ≡ vec_len procs.old }
{
    visit_at(procs, at, sent, steps)?;
    deliver_each(procs, sent)
}

/// Visits the process at this place, and tells whether that had an event. One that has nothing to do
/// is passed over. What it sends lies in the list on its way, which keeps its room for the next visit.
#[tactic(auto, using(crate::proofs::IdleLemmas::not_moved))]
pub(crate) fn visit_counted<L: Ledger>(
    procs: &mut Vec<Process>,
    at: usize,
    sent: &mut Signals,
    steps: &mut Steps<L>,
) -> Result<bool, AllocError>
    requires within { at < vec_len procs.old }
    requires placed { IsPlaced (runnings_of procs.old.items) }
    requires empty { sent.old.items ≡ [] }
    ensures visit { OnOk result (runnings_of procs.new.items ≡ visit at (runnings_of procs.old.items)) }
    ensures placed { OnOk result (IsPlaced (runnings_of procs.new.items)) }
    ensures empty { OnOk result (sent.new.items ≡ []) }
    ensures moved { IfOk result (λ moved. moved ≡ has_moved at (runnings_of procs.old.items) (runnings_of procs.new.items)) }
    ensures len { vec_len procs.new ≡ vec_len procs.old }
{
    if procs[at].is_idle() {
        return Ok(false);
    }
    let before = procs[at].events().len();
    visit_one(procs, at, sent, steps)?;
    let after = procs[at].events().len();
    Ok(before != after)
}
