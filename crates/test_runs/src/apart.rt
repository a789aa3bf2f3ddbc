//! Records whose text several threads make, through the top call.

use crate::whole::Ran;
use crate::workers::count;
use itoa::Buffer;
use sig_base::OpenGate;
use sig_host::Status;
use std::alloc::{AllocError, Global};
use std::sync::Wait;
use std::thread::Threads;
use test_shared::{PLAIN, Setting};

/// What a process does that sends nothing, until it is cut: the same with any number of workers.
const ALONE: &[u8] = b"label l\nset X {x,[1,2]}\ngoto l\n";

/// The heads of scripts, each with how many such processes it has: one, fewer than most workers here,
/// and more.
const CREWS: [(&[u8], u32); 3] = [
    (b"sigscript 1\nturns 3000\n", 1),
    (b"sigscript 1\nturns 1000\n", 3),
    (b"sigscript 1\nturns 200\n", 40),
];

/// The arguments that ask for several workers.
const WORKERS: [&[&str]; 3] = [
    &["--workers", "2"],
    &["--workers", "4"],
    &["--workers", "16"],
];

/// Appends the lines of the processes of these numbers, each with these lines.
fn push_processes(
    text: &mut Vec<u8>,
    first: u32,
    end: u32,
    lines: &[u8],
) -> Result<(), AllocError> {
    let mut digits = Buffer::new();
    for number in first..end {
        text.extend_from_slice(b"process p")?;
        text.extend_from_slice(digits.format(number).as_bytes())?;
        text.extend_from_slice(b"\n")?;
        text.extend_from_slice(lines)?;
    }
    Ok(())
}

/// The text of this head, and of the processes of these numbers, each with these lines.
fn text_of_processes(
    alloc: Global,
    head: &[u8],
    first: u32,
    end: u32,
    lines: &[u8],
) -> Result<Vec<u8>, AllocError> {
    let mut text = Vec::from_slice(alloc, head)?;
    push_processes(&mut text, first, end, lines)?;
    Ok(text)
}

/// A run of this text.
fn run_with<R: Threads + Wait + Sync>(
    rt: &R,
    alloc: Global,
    text: &[u8],
    words: &[&str],
) -> Result<Ran, AllocError> {
    let setting = Setting {
        words,
        taken: 100000,
        ..PLAIN
    };
    Ran::of(rt, alloc, &setting, &[(text, 1)], &OpenGate)
}

/// Whether the two runs told the same of so many processes, all of which are cut.
fn are_alike(one: &Ran, several: &Ran, processes: u32) -> bool {
    let record = several.out.held();
    let all_cut = count(record, b"\nstate cut\n") == processes as usize;
    several.status == Status::Done && all_cut && record == one.out.held()
}

/// Whether a run with these workers tells of so many processes what this one told.
fn is_told_as<R: Threads + Wait + Sync>(
    rt: &R,
    alloc: Global,
    text: &[u8],
    words: &[&str],
    one: &Ran,
    processes: u32,
) -> Result<bool, AllocError> {
    let several = run_with(rt, alloc, text, words)?;
    let alike = are_alike(one, &several, processes);
    drop(several);
    Ok(alike)
}

/// Whether a run of this text is told with these workers as with one.
fn is_text_told_alike<R: Threads + Wait + Sync>(
    rt: &R,
    alloc: Global,
    text: &[u8],
    words: &[&str],
    processes: u32,
) -> Result<bool, AllocError> {
    let one = run_with(rt, alloc, text, PLAIN.words)?;
    let alike = is_told_as(rt, alloc, text, words, &one, processes);
    drop(one);
    alike
}

/// The same of a script of so many processes.
fn is_told_alike<R: Threads + Wait + Sync>(
    rt: &R,
    alloc: Global,
    crew: (&[u8], u32),
    words: &[&str],
) -> Result<bool, AllocError> {
    let (head, processes) = crew;
    let text = text_of_processes(alloc, head, 0, processes, ALONE)?;
    let alike = is_text_told_alike(rt, alloc, text.as_slice(), words, processes);
    drop(text);
    alike
}

#[test]
fn several_threads_print_what_one_prints(rt: HostRuntime) {
    for crew in CREWS {
        for words in WORKERS {
            let alike = is_told_alike(&rt, rt.alloc(), crew, words);
            assert!(rt; alike == Ok(true), "{crew:?} {words:?}");
        }
    }
}
