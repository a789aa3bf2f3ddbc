//! The first numbers of the queues of a round: those that the processes give next. To make them
//! takes time with the processes and the pairs of processes of which one has sent to the other.
ghost use Rattle.std.specs.Prelude.{◌≡◌, ◌≤◌, ◌<◌, ◌++◌, ◌∷◌, [], ℕ, length, replicate, slice_index, slice_index_or, vec_len, IfOk, OnOk};
ghost use Rattle.sig_process.specs.Standing.{runnings_of};
ghost use Rattle.sig_workers.specs.Opening.{AreNumbered};
ghost use Rattle.sig_workers.specs.Columns.{padded, HasNext, IsColumn};

use sig_layout::Numbers;
use sig_process::Process;
use sig_terms::Pid;
use std::alloc::{AllocError, Global};

/// A number comes to its place, behind ones. The error is want of memory.
fn put_number(column: &mut Numbers, at: usize, number: u64) -> Result<(), AllocError>
    requires { length column.old ≤ at }
    ensures { OnOk result (column.new ≡ padded at column.old ++ number ∷ []) }
{
    column.pad(at);
    column.add(number)
}

/// The numbers of the next signals of the process at this place come to this place of the lists of
/// their receivers. Ones are left out. The error is want of memory.
fn add_row(columns: &mut Vec<Numbers>, process: &Process, at: usize) -> Result<(), AllocError>
    requires few { vec_len columns.old ≤ 256 }
    requires short { (p : ℕ) → p < length columns.old.items → length (slice_index_or columns.old.items p []) ≤ at }
    requires numbered { (p : ℕ) → p < length columns.old.items → 1 ≤ slice_index process.now.running.state.counts.next_numbers p }
    ensures many { OnOk result (length columns.new.items ≡ length columns.old.items) }
    ensures next { OnOk result ((p : ℕ) → p < length columns.old.items → HasNext at
        (slice_index process.now.running.state.counts.next_numbers p)
        (slice_index_or columns.old.items p []) (slice_index_or columns.new.items p [])) }
{
    let (low, high) = process.sent_between();
    let end = high.min(columns.len());
    for to in low..end {
        let number = process.next_number(Pid(to as u32));
        if number != 1 {
            put_number(&mut columns[to], at, number)?;
        }
    }
    Ok(())
}

/// So many empty lists. The error is want of memory.
fn empty_columns(alloc: Global, count: usize) -> Result<Vec<Numbers>, AllocError>
    ensures { IfOk result (λ cs. cs.items ≡ replicate count []) }
{
    let mut columns = Vec::new(alloc);
    for _at in 0..count {
        columns.push(Numbers::new(alloc))?;
    }
    Ok(columns)
}

/// For each process, by pid, the numbers of the next signals to it, by the pids of their senders. Ones
/// at the end may be left out. The error is want of memory.
pub(crate) fn all_columns(alloc: Global, procs: &[Process]) -> Result<Vec<Numbers>, AllocError>
    requires few { length procs.now ≤ 256 }
    requires numbered { AreNumbered (runnings_of procs.now) }
    ensures many { IfOk result (λ cs. length cs.items ≡ length procs.now) }
    ensures columns { IfOk result (λ cs. (p : ℕ) → p < length procs.now
        → IsColumn (length procs.now) p (runnings_of procs.now) (slice_index_or cs.items p [])) }
{
    let mut columns = empty_columns(alloc, procs.len())?;
    for at in 0..procs.len() {
        add_row(&mut columns, &procs[at], at)?;
    }
    Ok(columns)
}
