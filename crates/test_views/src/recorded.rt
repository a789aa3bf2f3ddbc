//! The records of runs that end in the outcomes of a list. `sigtool check` has to say yes to each.

use crate::called::{Called, PLAIN};
use sig_record::{Record, print_ends, read_record};
use sig_view::ViewStatus;
use std::alloc::{AllocError, Global};
use test_shared::{Setting, is_checked};

/// What the record tells of how the processes ended.
fn text_of_ends(alloc: Global, told: &Record) -> Result<Vec<u8>, AllocError> {
    let mut ends = Vec::new(alloc);
    print_ends(told.reports(), &mut ends)?;
    Ok(ends)
}

/// The same of the record of this text. `None` where it can't be read.
fn ends_of(alloc: Global, told: &[u8]) -> Result<Option<Vec<u8>>, AllocError> {
    match read_record(alloc, told) {
        Ok(told) => {
            let ends = text_of_ends(alloc, &told);
            drop(told);
            Ok(Some(ends?))
        }
        Err(_) => Ok(None),
    }
}

/// The call with these words on the script alone.
pub(crate) fn called_with(
    alloc: Global,
    words: &[&str],
    script: &[u8],
) -> Result<Called, AllocError> {
    let setting = Setting { words, ..PLAIN };
    Called::of(alloc, &setting, script, b"")
}

/// The call that asks for the record of a run that ends in the outcome of this number, where the search may
/// visit so many states, if that is said.
pub(crate) fn asked_for(
    alloc: Global,
    script: &[u8],
    states: Option<&'static str>,
    number: usize,
) -> Result<Called, AllocError> {
    let number = format!(in alloc; "{number}")?;
    let record = number.as_str();
    match states {
        None => called_with(alloc, &["outcomes", "--record", record], script),
        Some(states) => called_with(
            alloc,
            &["outcomes", "--states", states, "--record", record],
            script,
        ),
    }
}

/// What the record that is written tells of how the processes ended. `None` where none is written, or
/// `sigtool check` says no to it.
fn ends_written(
    alloc: Global,
    script: &[u8],
    called: &Called,
) -> Result<Option<Vec<u8>>, AllocError> {
    let told = called.out.held();
    let is_written = matches!(
        called.status,
        ViewStatus::Done | ViewStatus::Unfinished { .. }
    );
    if is_written && is_checked(alloc, script, told)? {
        ends_of(alloc, told)
    } else {
        Ok(None)
    }
}

/// The same of the call that asks for the record.
fn recorded(
    alloc: Global,
    script: &[u8],
    states: Option<&'static str>,
    number: usize,
) -> Result<Option<Vec<u8>>, AllocError> {
    let called = asked_for(alloc, script, states, number)?;
    let ends = ends_written(alloc, script, &called);
    drop(called);
    ends
}

/// How many outcomes the list says that it has, where these are fewer than ten.
pub(crate) fn count_of(listed: &[u8]) -> usize {
    match listed.get(9) {
        Some(digit) if digit.is_ascii_digit() => digit.saturating_sub(b'0') as usize,
        _ => 0,
    }
}

/// Appends the first line of a list of so many outcomes, of which it says this.
fn push_first(
    alloc: Global,
    text: &mut Vec<u8>,
    count: usize,
    says: &str,
) -> Result<(), AllocError> {
    let line = format!(in alloc; "outcomes {count} {says}\n")?;
    let pushed = text.extend_from_slice(line.as_bytes());
    drop(line);
    pushed
}

/// Appends the outcome with this number.
fn push_outcome(
    alloc: Global,
    text: &mut Vec<u8>,
    number: usize,
    outcome: &[u8],
) -> Result<(), AllocError> {
    let line = format!(in alloc; "outcome {number}\n")?;
    let pushed = text.extend_from_slice(line.as_bytes());
    drop(line);
    pushed?;
    text.extend_from_slice(outcome)
}

/// Appends the outcome of this number, as the record that is asked for by it tells it.
fn push_recorded(
    alloc: Global,
    text: &mut Vec<u8>,
    script: &[u8],
    states: Option<&'static str>,
    number: usize,
) -> Result<(), AllocError> {
    match recorded(alloc, script, states, number)? {
        Some(outcome) => {
            let pushed = push_outcome(alloc, text, number, outcome.as_slice());
            drop(outcome);
            pushed
        }
        None => push_outcome(alloc, text, number, b""),
    }
}

/// Appends the list of so many outcomes of the script, of which it says this, as the records tell them that are asked
/// for by their numbers.
fn push_list(
    alloc: Global,
    text: &mut Vec<u8>,
    script: &[u8],
    states: Option<&'static str>,
    (count, says): (usize, &str),
) -> Result<(), AllocError> {
    push_first(alloc, text, count, says)?;
    for number in 1..=count {
        push_recorded(alloc, text, script, states, number)?;
    }
    Ok(())
}

/// Whether the list, of which it says this, is told by the records of runs that end in its outcomes.
pub(crate) fn is_told_by_records(
    alloc: Global,
    script: &[u8],
    states: Option<&'static str>,
    listed: &[u8],
    says: &str,
) -> Result<bool, AllocError> {
    let mut text = Vec::new(alloc);
    push_list(alloc, &mut text, script, states, (count_of(listed), says))?;
    Ok(text.as_slice() == listed)
}
