//! How the texts of a case are written.

use crate::fault::Fault;
use std::alloc::Global;

/// The number that this word spells.
pub(crate) fn number(word: &str) -> Result<u64, Fault> {
    word.parse::<u64>().map_err(|_| Fault::Part)
}

/// The byte of two hexadecimal digits.
fn byte_of(digits: &str) -> Result<u8, Fault> {
    let mut byte: u8 = 0;
    for digit in digits.chars() {
        let value = digit.to_digit(16).ok_or(Fault::Part)?;
        byte = byte.wrapping_mul(16).wrapping_add(value as u8);
    }
    Ok(byte)
}

/// Appends the number that this round has: the first one, and a step more for each round before.
fn push_counted(alloc: Global, text: &mut Vec<u8>, numbers: &str, round: u64) -> Result<(), Fault> {
    let (first, step) = numbers.split_once('+').ok_or(Fault::Part)?;
    let counted = number(first)?.wrapping_add(number(step)?.wrapping_mul(round));
    let digits = format!(in alloc; "{counted}")?;
    text.extend_from_slice(digits.as_bytes())?;
    Ok(())
}

/// Appends a byte and a text.
fn push_both(text: &mut Vec<u8>, byte: u8, rest: &str) -> Result<(), Fault> {
    text.extend_from_slice(&[byte])?;
    text.extend_from_slice(rest.as_bytes())?;
    Ok(())
}

/// Appends what stands behind a backslash. Behind the one at the end of a line that is nothing.
fn push_escaped(alloc: Global, text: &mut Vec<u8>, piece: &str, round: u64) -> Result<(), Fault> {
    let Some((first, rest)) = piece.split_at_checked(1) else {
        return Ok(());
    };
    match first {
        "n" => push_both(text, b'\n', rest),
        "r" => push_both(text, b'\r', rest),
        "t" => push_both(text, b'\t', rest),
        "x" => {
            let (digits, rest) = rest.split_at_checked(2).ok_or(Fault::Part)?;
            push_both(text, byte_of(digits)?, rest)
        }
        "{" => {
            let (numbers, rest) = rest.split_once('}').ok_or(Fault::Part)?;
            push_counted(alloc, text, numbers, round)?;
            text.extend_from_slice(rest.as_bytes())?;
            Ok(())
        }
        _ => Err(Fault::Part),
    }
}

/// Appends a text in which backslashes may stand.
pub(crate) fn push_spelled(
    alloc: Global,
    text: &mut Vec<u8>,
    spelled: &str,
    round: u64,
) -> Result<(), Fault> {
    let mut is_plain = true;
    for piece in spelled.split('\\') {
        if is_plain {
            text.extend_from_slice(piece.as_bytes())?;
        } else {
            push_escaped(alloc, text, piece, round)?;
        }
        is_plain = false;
    }
    Ok(())
}

/// Appends a line, with its line feed if it doesn't end with a backslash.
fn push_once(alloc: Global, text: &mut Vec<u8>, line: &str, round: u64) -> Result<(), Fault> {
    push_spelled(alloc, text, line, round)?;
    if !line.ends_with('\\') {
        text.extend_from_slice(b"\n")?;
    }
    Ok(())
}

/// Appends a line so many times.
fn push_times(alloc: Global, text: &mut Vec<u8>, times: u64, line: &str) -> Result<(), Fault> {
    for round in 0..times {
        push_once(alloc, text, line, round)?;
    }
    Ok(())
}

/// Appends a line of a case's text.
fn push_line(alloc: Global, text: &mut Vec<u8>, line: &str) -> Result<(), Fault> {
    match line.strip_prefix("\\*") {
        Some(repeated) => {
            let (times, line) = repeated.split_once(' ').ok_or(Fault::Part)?;
            push_times(alloc, text, number(times)?, line)
        }
        None => push_once(alloc, text, line, 0),
    }
}

/// Appends these lines.
pub(crate) fn push_lines(alloc: Global, text: &mut Vec<u8>, lines: &str) -> Result<(), Fault> {
    for line in lines.split('\n') {
        push_line(alloc, text, line)?;
    }
    Ok(())
}

/// Whether the text has the piece at this place.
fn stands_at(text: &[u8], piece: &[u8], at: usize) -> bool {
    match text.get(at..) {
        Some(rest) => rest.starts_with(piece),
        None => false,
    }
}

/// How often the piece stands in the text.
pub(crate) fn count(text: &[u8], piece: &[u8]) -> u64 {
    let mut found: u64 = 0;
    for at in 0..text.len() {
        if stands_at(text, piece, at) {
            found = found.saturating_add(1);
        }
    }
    found
}

/// Appends what a line of a record tells of how a process ended, as `sigview outcomes` prints it: without
/// arrival numbers, numbers and stamps.
fn push_end(ends: &mut Vec<u8>, line: &str) -> Result<(), Fault> {
    let (word, rest) = line.split_once(' ').ok_or(Fault::Output)?;
    let (first, behind) = rest.split_once(' ').unwrap_or((rest, ""));
    match word {
        "process" | "state" => ends.extend_from_slice(line.as_bytes())?,
        "left" => {
            ends.extend_from_slice(b"left ")?;
            ends.extend_from_slice(behind.as_bytes())?;
        }
        "queued" => {
            ends.extend_from_slice(b"queued ")?;
            ends.extend_from_slice(first.as_bytes())?;
            ends.extend_from_slice(b" ")?;
            let kind = behind.splitn(3, ' ').nth(2).ok_or(Fault::Output)?;
            ends.extend_from_slice(kind.as_bytes())?;
        }
        _ => return Ok(()),
    }
    ends.extend_from_slice(b"\n")?;
    Ok(())
}

/// Appends what a record tells of how its processes ended.
pub(crate) fn push_ends(ends: &mut Vec<u8>, record: &str) -> Result<(), Fault> {
    for line in record.lines() {
        push_end(ends, line)?;
    }
    Ok(())
}
