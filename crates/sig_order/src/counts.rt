//! For each event, how many events of each process are at it or before it.

ghost use Rattle.std.specs.Prelude.{◌≡◌, ◌<◌, length, slice_index, IfOk, OnOk};
ghost use Rattle.sig_order.specs.Counting.{no_rows, last_row, row_at, count_at, IsNewRow, IsLearned, noted, with_event, AddsEvent};

use crate::at::At;
use sig_lists::Sequence;
use std::alloc::{AllocError, Global};

/// The counts of a process's events. An event that handles no signal of another process changes no
/// count but the one of its own process, which is its number; so rows are kept for the others alone.
#[derive(Drop)]
pub(crate) struct Rows {
    /// A row for each event that handled a signal of another process: for each process a count.
    pub(crate) learned: Sequence<Sequence<u64>>,
    /// For each event how many rows there were then.
    pub(crate) known: Sequence<u64>,
}

impl Rows {
    /// No event.
    pub(crate) fn new(alloc: Global) -> Rows
        ensures { result ≡ no_rows }
    {
        Rows {
            learned: Sequence::new(alloc),
            known: Sequence::new(alloc),
        }
    }

    /// Adds an event that goes by the last row. The error is want of memory.
    fn note(&mut self) -> Result<(), AllocError>
        ensures { OnOk result (self.new ≡ noted self.old) }
    {
        let n = self.learned.len() as u64;
        self.known.add(n)
    }

    /// Adds an event, with a row of its own if there is one. The error is want of memory.
    fn add(&mut self, row: Option<Sequence<u64>>) -> Result<(), AllocError>
        ensures { OnOk result (self.new ≡ with_event self.old row) }
    {
        match row {
            None => self.note(),
            Some(row) => {
                self.learned.add(row)?;
                self.note()
            }
        }
    }
}

/// The number at this place, 0 where there is none.
fn item(counts: &[u64], place: usize) -> u64
    ensures { result ≡ slice_index counts.now place }
{
    if place < counts.len() {
        counts[place]
    } else {
        0
    }
}

/// Of so many rows the last one, without items where there are none.
fn last_row(learned: &[Sequence<u64>], n: u64) -> &[u64]
    ensures { result.now ≡ last_row learned.now n }
{
    if n == 0 {
        return &[];
    }
    let place = (n - 1) as usize;
    if place >= learned.len() {
        return &[];
    }
    learned[place].as_slice()
}

/// The row by which the event with this number goes, without items where there is none.
fn row(rows: &Rows, event: u64) -> &[u64]
    ensures { result.now ≡ row_at rows.now event }
{
    if event == 0 {
        return &[];
    }
    let n = item(rows.known.as_slice(), (event - 1) as usize);
    last_row(rows.learned.as_slice(), n)
}

/// How many events of the process are at this event or before it.
pub(crate) fn count(rows: &[Rows], at: At, pid: usize) -> u64
    ensures { result ≡ count_at rows.now at pid }
{
    if at.pid as usize >= rows.len() {
        return 0;
    }
    let of_process = &rows[at.pid as usize];
    if (of_process.known.len() as u64) < at.event {
        return 0;
    }
    if pid == at.pid as usize {
        return at.event;
    }
    item(row(of_process, at.event), pid)
}

/// The row of an event, which handled a signal that the event `sender` sent: of each process the
/// greater of two counts. The error is want of memory.
fn new_row(alloc: Global, rows: &[Rows], at: At, sender: At) -> Result<Sequence<u64>, AllocError>
    requires { 0 < at.event }
    ensures { IfOk result (IsNewRow rows.now at sender) }
{
    let last = At {
        pid: at.pid,
        event: at.event - 1,
    };
    let mut counts = Vec::with_capacity(alloc, rows.len())?;
    for q in 0..rows.len() {
        let n = count(rows, last, q).max(count(rows, sender, q));
        counts.push(n)?;
    }
    Ok(Sequence::from_vec(counts))
}

/// The row of an event, if an event of another process sent a signal to it. The error is want of
/// memory.
fn learned(
    alloc: Global,
    rows: &[Rows],
    at: At,
    sender: Option<At>,
) -> Result<Option<Sequence<u64>>, AllocError>
    requires { 0 < at.event }
    ensures { IfOk result (IsLearned rows.now at sender) }
{
    let Some(sender) = sender else {
        return Ok(None);
    };
    let row = new_row(alloc, rows, at, sender)?;
    Ok(Some(row))
}

/// Adds the counts of an event. The error is want of memory.
pub(crate) fn add_event(
    alloc: Global,
    rows: &mut Vec<Rows>,
    at: At,
    sender: Option<At>,
) -> Result<(), AllocError>
    requires event { 0 < at.event }
    requires process { at.pid < length rows.old.items }
    ensures { OnOk result (AddsEvent rows.old.items at sender rows.new.items) }
{
    let row = learned(alloc, rows.as_slice(), at, sender)?;
    let of_process = &mut rows[at.pid as usize];
    of_process.add(row)
}
