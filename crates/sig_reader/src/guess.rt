//! The names of a script's processes and labels, as the lines tell them that seem to name one.

ghost use Rattle.std.specs.Prelude.{◌≡◌, ◌+◌, ◌<◌, ◌^◌, length, IfOk, OnOk};
ghost use Rattle.sig_reader.specs.Drafts.{blank};
ghost use Rattle.sig_reader.specs.Fitting.{IsFit};

use crate::draft::{Draft, discard, finish, take_line};
use crate::reader::ScriptError;
use sig_lists::Sequence;
use sig_program::Version;
use sig_tokens::{Known, Stop, Tokens, first_line, is_blank_byte};
use std::alloc::{AllocError, Global};

/// Whether the line may name a process or a label: its first byte is that of their words.
fn may_name(line: &[u8]) -> bool {
    match line.iter().find(|b| !is_blank_byte(**b)) {
        Some(b) => *b == b'p' || *b == b'l',
        None => false,
    }
}

/// Line `n` behind what was read so far, where it may name a process or a label.
fn note_line(
    alloc: Global,
    draft: &mut Draft,
    n: u64,
    tokens: &mut Tokens,
    line: &[u8],
) -> Result<(), Stop>
    requires few { n < 2 ^ 31 }
    requires fit { IsFit n draft.old }
    ensures { OnOk result (IsFit (n + 1) draft.new) }
{
    if may_name(line) {
        take_line(alloc, &Known::Any, draft, n, tokens, line)
    } else {
        Ok(())
    }
}

/// Notes the names in the text. The number is that of the line behind it.
fn note_lines(alloc: Global, draft: &mut Draft, bytes: &[u8]) -> Result<u64, Stop>
    requires short { length bytes.now < 2 ^ 30 }
    requires first { draft.old ≡ blank draft.old.version }
    ensures few { IfOk result (λ n. n < 2 ^ 31) }
    ensures fit { IfOk result (λ n. IsFit n draft.new) }
{
    let mut tokens = Sequence::new(alloc);
    let mut n: u64 = 2;
    let mut at = 0;
    while at < bytes.len() {
        let line = first_line(&bytes[at..]);
        match note_line(alloc, draft, n, &mut tokens, line) {
            Ok(()) => {}
            Err(stop) => return Err(stop),
        }
        at += line.len() + 1;
        n += 1;
    }
    Ok(n)
}

/// The names of what was read, where the text may end before line `n`.
fn names_of(draft: Draft, n: u64) -> Result<Known, AllocError>
    requires few { n < 2 ^ 31 }
    requires fit { IsFit n draft }
{
    match finish(draft, n) {
        Ok(names) => Ok(Known::Among(names)),
        Err(ScriptError::Fault { .. }) => Ok(Known::Any),
        Err(ScriptError::Memory) => Err(AllocError),
    }
}

/// No names, where a line is refused.
fn no_names(stop: Stop) -> Result<Known, AllocError> {
    match stop {
        Stop::Fault(_) => Ok(Known::Any),
        Stop::Memory => Err(AllocError),
    }
}

/// The names of processes and labels in the text, for a reader that asks whether they are right. It
/// passes over the lines that can name none, and knows no names where one of the others is refused.
///
/// Asks that there are fewer than 2^30 bytes.
pub fn guess_names(alloc: Global, version: Version, bytes: &[u8]) -> Result<Known, AllocError>
    requires { length bytes.now < 2 ^ 30 }
{
    let mut draft = Draft::new(alloc, version);
    match note_lines(alloc, &mut draft, bytes) {
        Ok(n) => names_of(draft, n),
        Err(stop) => {
            discard(draft);
            no_names(stop)
        }
    }
}
