//! The queues of a round are closed, and what they have left is handed over.
ghost use Rattle.std.specs.Prelude.{◌≡◌, ◌<◌, ◌++◌, ◌∷◌, [], ℕ, length, vec_len, slice_get, Some, All, IfOk, OnOk};
ghost use Rattle.sig_model.specs.Accounts.{Continues};
ghost use Rattle.sig_model.specs.Keeping.{IsArriving};
ghost use Rattle.sig_model.specs.Running.{Running};
ghost use Rattle.sig_process.specs.Standing.{runnings_of};
ghost use Rattle.sig_queue.specs.Seats.{Queue, Seated};
ghost use Rattle.sig_queue.specs.declared.account.Account.{Account};
ghost use Rattle.sig_workers.specs.Acting.{KeepEvents};
ghost use Rattle.sig_workers.specs.Closing.{CanClose, HasClosed, IsClosedAt};

use crate::first::take_first;
use sig_kinds::{Push, Signal, Signals};
use sig_lists::Pushed;
use sig_process::Process;
use sig_queue::{Closed, QSeat, Receipt, Receipts, Rest, SigQueue};
use std::alloc::{AllocError, Global};
use std::collections::VecDeque;
use std::mem::drop;

/// Adds a signal at the end. The error is want of memory.
fn add_signal(signals: &mut Signals, signal: Signal) -> Result<(), AllocError>
    ensures { OnOk result (signals.new.items ≡ signals.old.items ++ signal ∷ []) }
{
    match signals.push(signal) {
        Push::Added => Ok(()),
        Push::Memory { signal } => {
            drop(signal);
            Err(AllocError)
        }
    }
}

/// What is left, in an empty list. The error is want of memory.
fn gather(mut rest: Rest, left: &mut Signals) -> Result<(), AllocError>
    requires { left.old.items ≡ [] }
    ensures { OnOk result (left.new.items ≡ rest) }
{
    while let Some(signal) = rest.next() {
        add_signal(left, signal)?;
    }
    Ok(())
}

/// What is left waits for the process, behind what that has taken in. It lies in the empty list on its
/// way. The error is want of memory.
fn hand_over(rest: Rest, left: &mut Signals, process: &mut Process) -> Result<(), AllocError>
    requires empty { left.old.items ≡ [] }
    requires arriving { All (IsArriving process.old.running.pid process.old.running.count) rest }
    requires continues { Continues process.old.running rest }
    ensures given { OnOk result (process.new.running ≡ record process.old.running { taken_in = process.old.running.taken_in ++ rest }) }
    ensures saved { OnOk result (process.new.saved ≡ process.old.saved) }
    ensures empty { OnOk result (left.new.items ≡ []) }
{
    gather(rest, left)?;
    process.take_in(left)
}

/// Closes a queue, and hands what it has left to its receiver. It lies in the empty list on its way.
/// The error is want of memory.
fn close_one(
    queue: SigQueue,
    seat: QSeat,
    left: &mut Signals,
    process: &mut Process,
) -> Result<Receipt, AllocError>
    requires can { CanClose queue seat process.old.running }
    requires empty { left.old.items ≡ [] }
    ensures closed { IfOk result (λ a. HasClosed queue seat process.old.running a process.new.running) }
    ensures saved { OnOk result (process.new.saved ≡ process.old.saved) }
    ensures empty { OnOk result (left.new.items ≡ []) }
{
    let Closed { rest, receipt, .. } = queue.close(seat);
    hand_over(rest, left, process)?;
    Ok(receipt)
}

/// Adds a receipt at the end. The error is want of memory.
fn add_receipt(receipts: &mut Receipts, receipt: Receipt) -> Result<(), AllocError>
    ensures { OnOk result (receipts.new ≡ receipts.old ++ receipt ∷ []) }
{
    match receipts.push(receipt) {
        Pushed::Added => Ok(()),
        Pushed::Memory { item: _ } => Err(AllocError),
    }
}

/// Closes all queues, and hands what each has left to its receiver. The receipts stand by pid. The
/// error is want of memory.
pub(crate) fn close_all(
    alloc: Global,
    queues: Vec<SigQueue>,
    seats: Vec<QSeat>,
    procs: &mut Vec<Process>,
) -> Result<Receipts, AllocError>
    requires many { (vec_len seats ≡ vec_len queues) × (vec_len procs.old ≡ vec_len queues) }
    requires can { (p : ℕ) (q : Queue) (v : Seated) (r : Running) →
        slice_get queues.items p ≡ Some q → slice_get seats.items p ≡ Some v → slice_get (runnings_of procs.old.items) p ≡ Some r
        → CanClose q v r }
    ensures count { IfOk result (λ receipts. length receipts ≡ vec_len queues) }
    ensures procs { OnOk result (vec_len procs.new ≡ vec_len procs.old) }
    ensures closed { IfOk result (λ receipts. (p : ℕ) (a : Account) (t : Running) →
        slice_get receipts p ≡ Some a → slice_get (runnings_of procs.new.items) p ≡ Some t
        → IsClosedAt queues.items seats.items (runnings_of procs.old.items) p a t) }
    ensures kept { OnOk result (KeepEvents procs.old.items procs.new.items) }
{
    let mut queues = VecDeque::from_vec(queues);
    let mut seats = VecDeque::from_vec(seats);
    let mut left = Signals::new(alloc);
    let mut receipts = Receipts::new(alloc);
    for at in 0..procs.len() {
        let queue = take_first(&mut queues);
        let seat = take_first(&mut seats);
        let receipt = close_one(queue, seat, &mut left, &mut procs[at])?;
        add_receipt(&mut receipts, receipt)?;
    }
    Ok(receipts)
}
