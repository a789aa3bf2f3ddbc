//! Holds the cases on standard input against `run`, `tool` and `view`, called in memory.
//!
//! A case is a text, and what the programs print of it. It begins with a line `=== NAME`. Its parts begin with a
//! line `--- WORD ..`, and their texts stand below; a text that stands before the first part is a comment. These
//! give something to the calls that follow:
//!
//! - `--- input`: the input; `--- more`: what stands behind it; `--- taken`: what the last call printed is the
//!   input, and this stands behind it.
//! - `--- piece N`: a read gives at most N bytes (100 where nothing is said); `--- room N`: so many bytes may be
//!   told (100).
//!
//! `--- run WORDS`, `--- tool WORDS` and `--- view WORDS` call the program with these words. These compare what it
//! did; where nothing is said, the status has to be 0, and nothing may be printed and told:
//!
//! - `--- status N`, `--- output` and `--- errors`: the status, what is printed, and what is told.
//! - `--- begins`, `--- ends` and `--- count N`, in place of `--- output`: with what the output begins and ends, and
//!   how often it has this text.
//! - `--- checked`, in its place or behind it: `sigtool check` says yes to the input with the output behind it.
//! - `--- ended`: how the processes ended, as `sigview outcomes` prints it of the record that is printed.
//! - `--- unread`: nothing of the input was read.
//!
//! Each line of a text ends with a line feed, but for one that ends with a backslash. In a line, and in a word of a
//! call, `\n`, `\r` and `\t` stand for their bytes, and `\x80` for any byte, a backslash too; a word `\` alone is the
//! empty one. A line `\*N LINE` stands for N of LINE, in each of which `\{F+S}` is a number, first F and then S more
//! each time.
#![tactic(auto)]

mod calls;
mod case;
mod fault;
mod text;

use crate::case::Case;
use crate::fault::Fault;
use std::alloc::{AllocError, Global};
use std::io;
use std::process::ExitCode;
use std::sync::Wait;
use std::thread::Threads;

/// How far the text is held.
#[derive(Clone, Copy)]
struct Held {
    /// How many cases were held.
    cases: u64,
    /// How many calls they made.
    calls: u64,
    /// The line on which the next one begins.
    line: u64,
}

/// How many lines a piece has.
fn lines_of(piece: &str) -> u64 {
    let mut lines: u64 = 0;
    for _ in piece.split('\n') {
        lines = lines.saturating_add(1);
    }
    lines
}

/// Reads the parts of a case.
fn read_parts<R: Threads + Wait + Sync>(
    rt: &R,
    alloc: Global,
    case: &mut Case,
    parts: &str,
) -> Result<(), Fault> {
    let mut is_part = false;
    for part in parts.split("\n--- ") {
        if is_part {
            case.read(rt, alloc, part)?;
        }
        is_part = true;
        case.line = case.line.saturating_add(lines_of(part));
    }
    case.settle()
}

/// What is said of a case that doesn't hold.
fn report(alloc: Global, case: &Case, parts: &str, fault: Fault) -> Result<String, AllocError> {
    let name = parts.lines().next().unwrap_or("");
    let expected = String::from_utf8_lossy(alloc, case.text.as_slice())?;
    let out = String::from_utf8_lossy(alloc, case.out.as_slice())?;
    let err = String::from_utf8_lossy(alloc, case.err.as_slice())?;
    let [line, status] = [case.line, case.status as u64];
    format!(in alloc;
        "line {line}: {name}: {fault}\nexpected:\n{expected}status {status}, output:\n{out}errors:\n{err}"
    )
}

/// Holds a case. What is said of it, if it doesn't hold.
fn hold<R: Threads + Wait + Sync>(
    rt: &R,
    alloc: Global,
    parts: &str,
    held: &mut Held,
) -> Result<Option<String>, AllocError> {
    let mut case = Case::new(alloc, held.line);
    let read = read_parts(rt, alloc, &mut case, parts);
    held.line = case.line;
    held.calls = held.calls.saturating_add(case.calls);
    held.cases = held.cases.saturating_add(1);
    let said = match read {
        Ok(()) => Ok(None),
        Err(fault) => report(alloc, &case, parts, fault).map(Some),
    };
    drop(case);
    said
}

/// Holds each case of the text. What is said of the first that doesn't hold.
fn hold_all<R: Threads + Wait + Sync>(
    rt: &R,
    alloc: Global,
    text: &str,
    held: &mut Held,
) -> Result<Option<String>, AllocError> {
    let mut is_case = false;
    let text = text.strip_suffix('\n').unwrap_or(text);
    for parts in text.split("\n=== ") {
        if is_case {
            let said = hold(rt, alloc, parts, held)?;
            if said.is_some() {
                return Ok(said);
            }
        } else {
            held.line = held.line.saturating_add(lines_of(parts));
        }
        is_case = true;
    }
    Ok(None)
}

fn main(rt: HostRuntime) -> io::Result<ExitCode> {
    let alloc = rt.alloc();
    let text = io::read_to_string(alloc, rt.stdin())?;
    let mut held = Held {
        cases: 0,
        calls: 0,
        line: 1,
    };
    match hold_all(&rt, alloc, text.as_str(), &mut held)? {
        None => {
            println!(rt; "{} cases hold, {} calls", held.cases, held.calls)?;
            Ok(ExitCode::SUCCESS)
        }
        Some(said) => {
            println!(rt; "{said}")?;
            Ok(ExitCode::FAILURE)
        }
    }
}
