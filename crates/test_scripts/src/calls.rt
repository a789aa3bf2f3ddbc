//! Calls of the three programs in memory.

use crate::fault::Fault;
use sig_base::{FailingSink, MemorySink, MemorySource, OpenGate, read_all};
use sig_host::run;
use sig_search::Silent;
use sig_tool::{ToolStatus, tool};
use sig_view::view;
use std::alloc::{AllocError, Global};
use std::sync::Wait;
use std::thread::Threads;

/// More bytes than a program prints of any input here.
const ROOM: usize = 1_000_000;

/// What a call reads, prints and tells.
#[derive(Drop)]
pub(crate) struct Streams {
    input: MemorySource,
    pub out: FailingSink,
    pub err: MemorySink,
}

impl Streams {
    /// Streams of which a read gives at most so many bytes, and a write takes ten. So many bytes may be told.
    pub(crate) fn new(
        alloc: Global,
        input: &[u8],
        piece: u64,
        room: u64,
    ) -> Result<Streams, AllocError> {
        let bytes = Vec::from_slice(alloc, input)?;
        Ok(Streams {
            input: MemorySource::new(bytes, (piece as usize).max(1)),
            out: FailingSink::with_room(alloc, ROOM, 10, Vec::new(alloc))?,
            err: MemorySink::with_room(alloc, room as usize)?,
        })
    }

    /// The number of the status with which the call of the program ends.
    pub(crate) fn call<R: Threads + Wait + Sync>(
        &mut self,
        rt: &R,
        alloc: Global,
        program: &str,
        words: &[String],
    ) -> Result<u8, Fault> {
        let Streams { input, out, err } = self;
        match program {
            "run" => Ok(run(rt, alloc, words, input, out, err, &OpenGate).number()),
            "tool" => Ok(tool(alloc, words, input, out, err).number()),
            "view" => Ok(view(alloc, words, input, out, err, &mut Silent).number()),
            _ => Err(Fault::Part),
        }
    }

    /// Whether this is what is left of the input.
    pub(crate) fn has_left(&mut self, alloc: Global, bytes: &[u8]) -> bool {
        let mut left = Vec::new(alloc);
        let _ = read_all(&mut self.input, ROOM, &mut left);
        left.as_slice() == bytes
    }
}

/// The input of a script with a record behind it.
fn joined(alloc: Global, script: &[u8], record: &[u8]) -> Result<Vec<u8>, AllocError> {
    let mut bytes = Vec::from_slice(alloc, script)?;
    bytes.extend_from_slice(record)?;
    Ok(bytes)
}

/// The words of `sigtool check`.
fn checking(alloc: Global) -> Result<Vec<String>, AllocError> {
    let mut words = Vec::new(alloc);
    words.push(String::from_str(alloc, "check")?)?;
    Ok(words)
}

/// Whether `sigtool check` says yes to the record of the script.
pub(crate) fn is_checked(alloc: Global, script: &[u8], record: &[u8]) -> Result<bool, AllocError> {
    let words = checking(alloc)?;
    let mut input = MemorySource::new(joined(alloc, script, record)?, 4096);
    let mut out = MemorySink::with_room(alloc, 10)?;
    let mut err = MemorySink::with_room(alloc, 100)?;
    let status = tool(alloc, words.as_slice(), &mut input, &mut out, &mut err);
    Ok(status == ToolStatus::Done && out.held() == b"yes\n".as_slice())
}
