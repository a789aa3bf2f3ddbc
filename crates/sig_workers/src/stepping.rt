//! A visit of one process by a worker.
ghost use Rattle.std.specs.Prelude.{◌≡◌, ◌<◌, [], length, true, false, IfOk, OnOk, vec_len};
ghost use Rattle.sig_model.specs.Running.{can_handle};
ghost use Rattle.sig_process.specs.Idling.{IsIdle};
ghost use Rattle.sig_workers.specs.Gone.{IsReady, Goes};
ghost use Rattle.sig_workers.specs.Visits.{HasMoved, HaveHandled, HaveExecuted};
ghost use Rattle.sig_workers.specs.Acting.{HasActed};

use crate::bells::Bells;
use crate::fetching::fetch_rung;
use crate::putting::{Me, put_all};
use crate::shared::Shared;
use sig_base::{Gate, Point, Steps};
use sig_kinds::Signals;
use sig_process::{Exec, Process};
use sig_queue::QSeat;
use std::alloc::AllocError;
use std::sync::Wait;
use std::sync::ledger::Ledger;

/// Handles the next signal, and puts what that sends. The error is want of memory.
fn handle_one<R: Wait, G: Gate>(
    shared: &Shared<'_, R, G>,
    me: Me,
    process: &mut Process,
    seats: &mut Vec<QSeat>,
) -> Result<(), AllocError>
    requires ready { IsReady shared.now.queues.now me.pid process.old.running seats.old.items }
    requires can { can_handle process.old.running ≡ true }
    ensures goes { OnOk result (Goes shared.now.queues.now me.pid process.old.running seats.old.items process.new.running seats.new.items) }
    ensures more { OnOk result (length process.old.running.events < length process.new.running.events) }
    ensures stamp { OnOk result (process.old.running.state.counts.stamp < process.new.running.state.counts.stamp) }
    ensures empty { OnOk result (process.new.running.outbox ≡ []) }
{
    process.handle()?;
    put_all(shared, me, process, seats)?;
    shared.gate.at(me.worker, me.pid, Point::Handled);
    Ok(())
}

/// Handles signals as long as one may be handled, and puts what each handling sends before the
/// next. Tells whether there was one. It ends, since each raises the process's stamp, which is at
/// most 2^62. The error is want of memory.
fn handle_all<R: Wait, G: Gate>(
    shared: &Shared<'_, R, G>,
    me: Me,
    process: &mut Process,
    seats: &mut Vec<QSeat>,
) -> Result<bool, AllocError>
    requires ready { IsReady shared.now.queues.now me.pid process.old.running seats.old.items }
    requires clear { process.old.running.outbox ≡ [] }
    ensures goes { OnOk result (Goes shared.now.queues.now me.pid process.old.running seats.old.items process.new.running seats.new.items) }
    ensures empty { OnOk result (process.new.running.outbox ≡ []) }
    ensures all { OnOk result (can_handle process.new.running ≡ false) }
    ensures moved { IfOk result (HaveHandled process.old process.new) }
{
    let mut moved = false;
    while process.can_handle() {
        handle_one(shared, me, process, seats)?;
        moved = true;
    }
    Ok(moved)
}

/// Executes the next instruction, where one may be executed, and puts what that sends. Tells whether
/// there was one. The error is want of memory.
fn exec_one<R: Wait, G: Gate, L: Ledger>(
    shared: &Shared<'_, R, G>,
    me: Me,
    process: &mut Process,
    seats: &mut Vec<QSeat>,
    steps: &mut Steps<L>,
) -> Result<bool, AllocError>
    requires ready { IsReady shared.now.queues.now me.pid process.old.running seats.old.items }
    requires clear { process.old.running.outbox ≡ [] }
    ensures goes { OnOk result (Goes shared.now.queues.now me.pid process.old.running seats.old.items process.new.running seats.new.items) }
    ensures empty { OnOk result (process.new.running.outbox ≡ []) }
    ensures moved { IfOk result (HaveExecuted process.old process.new) }
{
    if !process.can_exec() {
        return Ok(false);
    }
    match process.exec(steps)? {
        Exec::Waiting => Ok(false),
        Exec::Stepped => {
            put_all(shared, me, process, seats)?;
            shared.gate.at(me.worker, me.pid, Point::Executed);
            Ok(true)
        }
    }
}

/// Whether a visit would find nothing to do: the process is idle, and its bell doesn't ring.
fn is_quiet(bells: &Bells, pid: u32, process: &Process) -> bool
    ensures { result ≡ true → IsIdle process.now.running }
{
    !bells.rings(pid) && process.is_idle()
}

/// Visits a process: takes in what was put for it, handles what waits, executes at most one
/// instruction, and puts each event's signals before the next event. A process that is idle and whose
/// bell doesn't ring is passed over. What it takes in lies in the empty list on its way, which keeps
/// its room for the next visit. Tells whether there was an event. The error is want of memory.
pub(crate) fn visit<R: Wait, G: Gate, L: Ledger>(
    shared: &Shared<'_, R, G>,
    me: Me,
    process: &mut Process,
    seats: &mut Vec<QSeat>,
    fetched: &mut Signals,
    steps: &mut Steps<L>,
) -> Result<bool, AllocError>
    requires ready { IsReady shared.now.queues.now me.pid process.old.running seats.old.items }
    requires clear { process.old.running.outbox ≡ [] }
    requires within { me.pid < vec_len seats.old }
    requires nothing { fetched.old.items ≡ [] }
    ensures goes { OnOk result (Goes shared.now.queues.now me.pid process.old.running seats.old.items process.new.running seats.new.items) }
    ensures empty { OnOk result (process.new.running.outbox ≡ []) }
    ensures moved { IfOk result (HasMoved process.old.running process.new.running) }
    ensures acted { OnOk result (HasActed process.old process.new) }
    ensures nothing { OnOk result (fetched.new.items ≡ []) }
{
    if is_quiet(shared.bells, me.pid, process) {
        return Ok(false);
    }
    fetch_rung(shared, me, process, seats, fetched)?;
    let handled = handle_all(shared, me, process, seats)?;
    let executed = exec_one(shared, me, process, seats, steps)?;
    Ok(handled | executed)
}
