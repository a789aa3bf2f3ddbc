//! Readers of a record's lines.

ghost use Rattle.std.specs.Prelude.{◌≡◌, ℕ, List, Option, Some, None, if◌then◌else◌, codes};
ghost use Rattle.std.specs.Option.{option_map};
ghost use Rattle.sig_terms.specs.Fronts.{Gives};
ghost use Rattle.sig_record.specs.Readers.{spaced, closed};
ghost use Rattle.sig_record.specs.Sorting.{is_lower};
ghost use Rattle.sig_record.specs.Refusing.{Yields};
ghost use Rattle.sig_record.specs.LineReaders.{one_line, or_left};
ghost use Rattle.sig_record.specs.Phrases.{narrow, wide, row_front};
ghost use Rattle.sig_record.specs.EventRows.{has_ended, did_front, standing_front};
ghost use Rattle.sig_record.specs.RecordFronts.{
  begins_by_digit,
  begins_by,
  event_front,
  left_front,
  signal_front,
  may_follow,
  queued_front,
  state_front,
  head_front,
};

use crate::items::Item;
use crate::kinds::kind;
use crate::outcomes::{did, outcome};
use crate::pieces::{after, name, narrow, past, term, term_field, wide, wide_field};
use crate::refusal::Refusal;
use crate::report::Left;
use sig_kinds::Signal;
use sig_model::{Did, Event, State};
use sig_terms::bytes::is_digit_byte;
use sig_terms::{Name, Pid, ReadTerm};
use std::alloc::Global;

/// What was read, where the line ends behind it.
fn line_end<'a, T: Drop>(read: Result<(T, &'a [u8]), ReadTerm>) -> Result<(T, &'a [u8]), ReadTerm>
    ensures { (front : Option (T × List ℕ)) → Gives (λ x. (x.0, x.1.now)) read.entry front →
        Gives (λ x. (x.0, x.1.now)) result (closed (codes "\n") front) }
{
    let (item, end) = read?;
    let rest = past(b"\n", end)?;
    Ok((item, rest))
}

/// What was read, where it passes a test.
fn passing<'a, T: Drop>(passes: bool, read: (T, &'a [u8])) -> Result<(T, &'a [u8]), ReadTerm>
    ensures { Gives {Y = T × List ℕ} (λ x. (x.0, x.1.now)) result
        (if passes then Some (read.entry.0, read.entry.1.now) else None) }
{
    if passes {
        Ok(read)
    } else {
        Err(ReadTerm::BadTerm)
    }
}

/// An event's stamp, and what the process did.
fn act(bytes: &[u8]) -> Option<((u64, Did), &[u8])>
    ensures { option_map (λ x. (x.0, x.1.now)) result ≡ spaced wide did_front bytes.now }
{
    let (stamp, rest) = wide(bytes)?;
    let rest = after(b" ", rest)?;
    let (did, rest) = did(rest)?;
    Some(((stamp, did), rest))
}

#[tactic(auto, unfolding(crate::specs::RecordFronts::event_front))]
fn event(alloc: Global, bytes: &[u8]) -> Result<(Event, &[u8]), ReadTerm>
    ensures { Gives (λ x. (x.0, x.1.now)) result (event_front bytes.now) }
{
    let ((stamp, did), rest) = act(bytes).ok_or(ReadTerm::BadTerm)?;
    let rest = past(b" ", rest)?;
    let (outcome, rest) = line_end(outcome(alloc, rest))?;
    let event = Event {
        stamp,
        did,
        outcome,
    };
    Ok((event, rest))
}

#[tactic(auto, unfolding(crate::specs::RecordFronts::left_front))]
fn left(alloc: Global, bytes: &[u8]) -> Result<(Left, &[u8]), ReadTerm>
    ensures { Gives (λ x. (x.0, x.1.now)) result (left_front bytes.now) }
{
    let rest = past(b"left ", bytes)?;
    let (arrival, rest) = wide(rest).ok_or(ReadTerm::BadTerm)?;
    let rest = past(b" ", rest)?;
    let (message, rest) = line_end(term(alloc, rest))?;
    Ok((Left { arrival, message }, rest))
}

/// A signal's sender, number and stamp.
fn signal_numbers(bytes: &[u8]) -> Option<(((u32, u64), u64), &[u8])>
    ensures { option_map (λ x. (x.0, x.1.now)) result ≡ spaced (spaced narrow wide) wide bytes.now }
{
    let (from, rest) = narrow(bytes)?;
    let (number, rest) = wide_field(rest)?;
    let (stamp, rest) = wide_field(rest)?;
    Some((((from, number), stamp), rest))
}

#[tactic(auto, unfolding(crate::specs::RecordFronts::signal_front))]
fn signal(alloc: Global, to: Pid, bytes: &[u8]) -> Result<(Signal, &[u8]), ReadTerm>
    ensures { Gives (λ x. (x.0, x.1.now)) result (signal_front to.0 bytes.now) }
{
    let rest = past(b"queued ", bytes)?;
    let (((from, number), stamp), rest) = signal_numbers(rest).ok_or(ReadTerm::BadTerm)?;
    let rest = past(b" ", rest)?;
    let (kind, rest) = line_end(kind(alloc, rest))?;
    let from = Pid(from);
    let signal = Signal {
        from,
        to,
        number,
        stamp,
        kind,
    };
    Ok((signal, rest))
}

/// Whether the sender is lower, or it is the same and the number is lower.
fn is_lower(a: &Signal, b: &Signal) -> bool
    ensures { result ≡ is_lower a.now b.now }
{
    a.from.0 < b.from.0 || a.from.0 == b.from.0 && a.number < b.number
}

/// Whether the signal isn't lower than the last of these.
fn may_follow(before: &[Signal], signal: &Signal) -> bool
    ensures { result ≡ may_follow before.now signal.now }
{
    match before.last() {
        Some(last) => !is_lower(signal, last),
        None => true,
    }
}

fn queued<'a>(
    alloc: Global,
    to: Pid,
    before: &[Signal],
    bytes: &'a [u8],
) -> Result<(Signal, &'a [u8]), ReadTerm>
    ensures { Gives (λ x. (x.0, x.1.now)) result (queued_front to.0 before.now bytes.now) }
{
    let read = signal(alloc, to, bytes)?;
    let follows = may_follow(before, &read.0);
    passing(follows, read)
}

fn ended(alloc: Global, bytes: &[u8]) -> Result<(State, &[u8]), ReadTerm>
    ensures { Gives (λ x. (x.0, x.1.now)) result (row_front has_ended bytes.now) }
{
    let (reason, rest) = term_field(alloc, bytes)?;
    Ok((State::Ended { reason }, rest))
}

#[tactic(auto, unfolding(crate::specs::EventRows::standing_front))]
fn standing(alloc: Global, bytes: &[u8]) -> Result<(State, &[u8]), ReadTerm>
    ensures { Gives (λ x. (x.0, x.1.now)) result (standing_front bytes.now) }
{
    if let Some(rest) = after(b"state ended", bytes) {
        return ended(alloc, rest);
    }
    if let Some(rest) = after(b"state waiting", bytes) {
        return Ok((State::Waiting, rest));
    }
    if let Some(rest) = after(b"state cut", bytes) {
        return Ok((State::Cut, rest));
    }
    Err(ReadTerm::BadTerm)
}

#[tactic(auto, unfolding(crate::specs::RecordFronts::head_front))]
fn head(alloc: Global, pid: u32, bytes: &[u8]) -> Result<((u32, Name), &[u8]), ReadTerm>
    ensures { Gives (λ x. (x.0, x.1.now)) result (head_front pid bytes.now) }
{
    let rest = past(b"process ", bytes)?;
    let (n, rest) = narrow(rest).ok_or(ReadTerm::BadTerm)?;
    let rest = past(b" ", rest)?;
    let (name, rest) = line_end(name(alloc, rest))?;
    passing(n == pid, ((n, name), rest))
}

/// What a line's reader answered; where it refused the line, with the length of the rest that begins there.
fn whole_line<'a, T>(
    read: Result<(T, &'a [u8]), ReadTerm>,
    left: usize,
) -> Result<(T, &'a [u8]), Refusal>
    ensures { (front : Option (T × List ℕ)) → Gives (λ x. (x.0, x.1.now)) read.entry front →
        Yields (λ x. (x.0, x.1.now)) result (or_left left front) }
{
    match read {
        Ok(found) => Ok(found),
        Err(ReadTerm::BadTerm) => Err(Refusal::Bad { left }),
        Err(ReadTerm::Memory) => Err(Refusal::Memory),
    }
}

fn begins_by_digit(bytes: &[u8]) -> bool
    ensures { result ≡ begins_by_digit bytes.now }
{
    match bytes {
        [] => false,
        [first, ..] => is_digit_byte(*first),
    }
}

pub(crate) fn begins_by(text: &[u8], bytes: &[u8]) -> bool
    ensures { result ≡ begins_by text.now bytes.now }
{
    after(text, bytes).is_some()
}

impl Item for Event {
    ghost begins = { begins_by_digit };

    ghost front = { λ pid before. one_line event_front };

    fn begins(bytes: &[u8]) -> bool {
        begins_by_digit(bytes)
    }

    fn read<'a>(
        alloc: Global,
        _pid: u32,
        _before: &[Event],
        bytes: &'a [u8],
    ) -> Result<(Event, &'a [u8]), Refusal> {
        whole_line(event(alloc, bytes), bytes.len())
    }
}

impl Item for Left {
    ghost begins = { begins_by (codes "left ") };

    ghost front = { λ pid before. one_line left_front };

    fn begins(bytes: &[u8]) -> bool {
        begins_by(b"left ", bytes)
    }

    fn read<'a>(
        alloc: Global,
        _pid: u32,
        _before: &[Left],
        bytes: &'a [u8],
    ) -> Result<(Left, &'a [u8]), Refusal> {
        whole_line(left(alloc, bytes), bytes.len())
    }
}

impl Item for Signal {
    ghost begins = { begins_by (codes "queued ") };

    ghost front = { λ pid before. one_line (queued_front pid before) };

    fn begins(bytes: &[u8]) -> bool {
        begins_by(b"queued ", bytes)
    }

    fn read<'a>(
        alloc: Global,
        pid: u32,
        before: &[Signal],
        bytes: &'a [u8],
    ) -> Result<(Signal, &'a [u8]), Refusal> {
        whole_line(queued(alloc, Pid(pid), before, bytes), bytes.len())
    }
}

/// The line of a state.
pub(crate) fn state_line(alloc: Global, bytes: &[u8]) -> Result<(State, &[u8]), Refusal>
    ensures { Yields (λ x. (x.0, x.1.now)) result (one_line state_front bytes.now) }
{
    whole_line(line_end(standing(alloc, bytes)), bytes.len())
}

/// The first line of this process's part: its pid and its name.
pub(crate) fn head_line(
    alloc: Global,
    pid: u32,
    bytes: &[u8],
) -> Result<((u32, Name), &[u8]), Refusal>
    ensures { Yields (λ x. (x.0, x.1.now)) result (one_line (head_front pid) bytes.now) }
{
    whole_line(head(alloc, pid, bytes), bytes.len())
}
