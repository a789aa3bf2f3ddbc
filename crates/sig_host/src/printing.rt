//! A record's text, made by one thread or by several.

ghost use Rattle.std.specs.Prelude.{◌≡◌, ◌++◌, ◌≤◌, length, IfOk, IfSome, OnOk};
ghost use Rattle.std.specs.Thread.{IsSync};
ghost use Rattle.sig_record.specs.RecordText.{reports_text, record_text};
ghost use Rattle.sig_record.specs.ReadableRecord.{CanBeReread};
ghost use Rattle.sig_record.specs.StoredRecord.{IsStoredRecord};

use sig_record::{Record, Report, print_header, print_record, print_reports};
use std::alloc::{AllocError, Global};
use std::thread::{Threads, join};

/// For fewer events than these no thread is started: it would take longer than their lines.
const FEW_EVENTS: usize = 1_000;

/// Where to cut the reports so that both parts have about as many events. `None` where there are few.
fn middle(reports: &[Report]) -> Option<usize>
    ensures { IfSome result (λ at. at ≤ length reports.now) }
{
    let (mut low, mut front) = (0, 0usize);
    let (mut high, mut back) = (reports.len(), 0usize);
    while low < high {
        if front <= back {
            front = front.saturating_add(reports[low].events.len());
            low += 1;
        } else {
            high -= 1;
            back = back.saturating_add(reports[high].events.len());
        }
    }
    if front.saturating_add(back) < FEW_EVENTS {
        None
    } else {
        Some(low)
    }
}

/// Where to cut the reports for so many threads. `None` where one is to print them.
fn cut(reports: &[Report], threads: u32) -> Option<usize>
    ensures { IfSome result (λ at. (at ≤ length reports.now) × (2 ≤ threads)) }
{
    if threads < 2 || reports.len() < 2 {
        return None;
    }
    middle(reports)
}

/// The text, and behind it what the record tells of these processes.
fn add_alone(mut text: Vec<u8>, reports: &[Report]) -> Result<Vec<u8>, AllocError>
    ensures text { IfOk result (λ whole. whole.items ≡ text.items ++ reports_text reports.now) }
    ensures stored { OnOk result (IsStoredRecord reports.now) }
{
    print_reports(reports, &mut text)?;
    Ok(text)
}

/// The text, and behind it what the record tells of these processes. Half of the threads print the
/// reports in front, and the others at the same time those behind, as long as there are several
/// threads and reports, and more than a few events.
#[cycle(apart)]
fn add_apart<R: Threads + Sync>(
    rt: &R,
    alloc: Global,
    text: Vec<u8>,
    reports: &[Report],
    threads: u32,
) -> Result<Vec<u8>, AllocError>
    ensures text { IfOk result (λ whole. whole.items ≡ text.items ++ reports_text reports.now) }
    ensures stored { OnOk result (IsStoredRecord reports.now) }
{
    let Some(at) = cut(reports, threads) else {
        return add_alone(text, reports);
    };
    let (front, back) = reports.split_at(at);
    let half = threads / 2;
    let others = threads - half;
    let rest = Vec::new(alloc);
    let behind = move || -> Result<Vec<u8>, AllocError>
        requires { IsSync R.row }
        ensures text { IfOk result (λ whole. whole.items ≡ rest.items ++ reports_text back.entry.now) }
        ensures stored { OnOk result (IsStoredRecord back.entry.now) }
    { add_apart(rt, alloc, rest, back, half) };
    let before = move || -> Result<Vec<u8>, AllocError>
        requires { IsSync R.row }
        ensures text { IfOk result (λ whole. whole.items ≡ text.items ++ reports_text front.entry.now) }
        ensures stored { OnOk result (IsStoredRecord front.entry.now) }
    { add_apart(rt, alloc, text, front, others) };
    let (behind, before) = join(rt, behind, before);
    let mut whole = before?;
    whole.append(&mut behind?)?;
    Ok(whole)
}

/// The record's text, made without threads. It can be read back, where the record's names are name tokens and
/// its terms no larger than what is read. The error is want of memory.
pub fn print_alone(alloc: Global, given: &Record) -> Result<Vec<u8>, AllocError>
    ensures text { IfOk result (λ text. text.items ≡ record_text given.now) }
    ensures readable { OnOk result (CanBeReread given.now) }
{
    let mut text = Vec::new(alloc);
    print_record(given, &mut text)?;
    Ok(text)
}

/// The record's text, made by so many threads, where it is long enough for them. It can be read back, where
/// the record's names are name tokens and its terms no larger than what is read. The error is want of memory.
pub fn print_apart<R: Threads + Sync>(
    rt: &R,
    alloc: Global,
    given: &Record,
    threads: u32,
) -> Result<Vec<u8>, AllocError>
    ensures text { IfOk result (λ text. text.items ≡ record_text given.now) }
    ensures readable { OnOk result (CanBeReread given.now) }
{
    let mut text = Vec::new(alloc);
    print_header(&mut text)?;
    add_apart(rt, alloc, text, given.reports(), threads)
}
