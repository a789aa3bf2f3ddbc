//! The command `concurrent`.

ghost use Rattle.std.specs.Prelude.{◌≡◌, ◌+◌, ◌++◌, true, IfOk, OnOk, decimal};
ghost use Rattle.sig_base.specs.Flow.{IsNotPassed};
ghost use Rattle.sig_edge.specs.Streams.{IsReadWithin, reading};
ghost use Rattle.sig_tool.specs.declared.given.TheConstants.{MOST_INPUT};
ghost use Rattle.sig_order.specs.Happening.{is_there};
ghost use Rattle.sig_view.specs.declared.command.Command.TheVariants.{Concurrent};
ghost use Rattle.sig_view.specs.Inputs.{IsRecordRead};
ghost use Rattle.sig_view.specs.Ranges.{span_line, span_text, range_line, range_lines, AreRanges, IsAnswered};

use crate::reading::read_settled;
use crate::status::ViewStatus;
use itoa::Buffer;
use sig_base::Source;
use sig_order::{At, Happened, Span};
use sig_record::Record;
use sig_tool::origins_of;
use std::alloc::{AllocError, Global};

/// Puts this word and the number behind the text.
fn put_number(text: &mut Vec<u8>, word: &[u8], number: u64) -> Result<(), AllocError>
    ensures { OnOk result (text.new.items ≡ text.old.items ++ (word.now ++ decimal number)) }
{
    let mut digits = Buffer::new();
    text.extend_from_slice(word)?;
    text.extend_from_slice(digits.format(number).as_bytes())
}

/// Puts the numbers of the first and the last of these events behind the text, and ends the line.
fn put_ends(text: &mut Vec<u8>, span: Span) -> Result<(), AllocError>
    ensures { OnOk result (text.new.items ≡ text.old.items ++ span_text span) }
{
    put_number(text, b" ", span.first)?;
    put_number(text, b" ", span.last)?;
    text.extend_from_slice(b"\n")
}

/// Puts the line of these events of the process behind the text.
fn put_span(text: &mut Vec<u8>, pid: u64, span: Span) -> Result<(), AllocError>
    ensures { OnOk result (text.new.items ≡ text.old.items ++ span_line pid span) }
{
    put_number(text, b"concurrent ", pid)?;
    put_ends(text, span)
}

/// Puts the line of the process behind the text, where it has one.
fn put_range(text: &mut Vec<u8>, pid: u64, range: Option<Span>) -> Result<(), AllocError>
    ensures { OnOk result (text.new.items ≡ text.old.items ++ range_line pid range) }
{
    match range {
        None => Ok(()),
        Some(span) => put_span(text, pid, span),
    }
}

/// The lines of the processes with these ranges, by pid from 0.
fn lines_of(alloc: Global, ranges: &[Option<Span>]) -> Result<Vec<u8>, AllocError>
    ensures { IfOk result (λ text. text.items ≡ range_lines 0 ranges.now) }
{
    let mut text = Vec::new(alloc);
    for pid in 0..ranges.len() {
        put_range(&mut text, pid as u64, ranges[pid])?;
    }
    Ok(text)
}

/// For each process of the record the events that are concurrent with this one.
fn ranges_of(
    alloc: Global,
    order: &Happened,
    told: &Record,
    event: At,
) -> Result<Vec<Option<Span>>, AllocError>
    requires same { order.now.reports ≡ told.now }
    requires there { is_there told.now event ≡ true }
    ensures { IfOk result (λ ranges. AreRanges told.now order.now.origins event ranges.items) }
{
    let mut ranges = Vec::new(alloc);
    for report in told.reports() {
        let range = order.concurrent(event, report.pid.0);
        ranges.push(range)?;
    }
    Ok(ranges)
}

/// The lines of the processes that have events which are concurrent with this one; `NoEvent` where the
/// record lacks it.
fn answer(alloc: Global, order: &Happened, told: &Record, event: At) -> Result<Vec<u8>, ViewStatus>
    requires { order.now.reports ≡ told.now }
    ensures { IsAnswered told.now order.now.origins event result }
{
    if !order.has(event) {
        return Err(ViewStatus::NoEvent);
    }
    let ranges = ranges_of(alloc, order, told, event)?;
    let text = lines_of(alloc, ranges.as_slice())?;
    Ok(text)
}

/// The text of `concurrent`: a line `concurrent Q FIRST LAST` for each process that has events which
/// are concurrent with this one, by ascending pid.
pub(crate) fn concurrent_text<S: Source>(
    alloc: Global,
    event: At,
    input: &mut S,
) -> Result<Vec<u8>, ViewStatus>
    ensures text { IsRecordRead (Concurrent event)
        (reading (S.left input.old) (S.left input.new) (S.faults input.old) (S.faults input.new)) result }
    ensures taken { IsReadWithin (MOST_INPUT + 1)
        (reading (S.left input.old) (S.left input.new) (S.faults input.old) (S.faults input.new)) }
    ensures behind { IsNotPassed (S.end input.old) (S.end input.new) }
{
    let given = read_settled(alloc, input)?;
    let origins = origins_of(alloc, &given)?;
    let order = Happened::build(alloc, &given.told, &origins)?;
    answer(alloc, &order, &given.told, event)
}
