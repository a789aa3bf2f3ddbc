//! A case, part by part.

use crate::calls::{Streams, is_checked};
use crate::fault::Fault;
use crate::text::{count, number, push_ends, push_lines, push_spelled};
use std::alloc::{AllocError, Global};
use std::sync::Wait;
use std::thread::Threads;

/// A case whose parts are read one behind the other.
#[derive(Drop)]
pub(crate) struct Case {
    /// The line on which the part begins that is read.
    pub line: u64,
    /// The text below that line.
    pub text: Vec<u8>,
    /// The input of the calls that follow.
    input: Vec<u8>,
    /// The most bytes that a read of it gives.
    piece: u64,
    /// How many bytes may be told.
    room: u64,
    /// The status of the last call, or 0 once it was asked for.
    pub status: u8,
    /// What the last call has printed.
    pub out: Vec<u8>,
    /// What it has told, or nothing once that was asked for.
    pub err: Vec<u8>,
    /// What it has printed was asked for.
    is_seen: bool,
    /// It has read nothing.
    is_unread: bool,
    /// How many calls there were.
    pub calls: u64,
}

/// The bytes in place of those that were there.
fn put(text: &mut Vec<u8>, bytes: &[u8]) -> Result<(), AllocError> {
    text.clear();
    text.extend_from_slice(bytes)
}

/// The word that is spelled so.
fn word_of(alloc: Global, spelled: &str) -> Result<String, Fault> {
    let mut bytes = Vec::new(alloc);
    push_spelled(alloc, &mut bytes, spelled, 0)?;
    match str::from_utf8(bytes.as_slice()) {
        Ok(word) => Ok(String::from_str(alloc, word)?),
        Err(_) => Err(Fault::Part),
    }
}

/// Appends a word.
fn push_word(words: &mut Vec<String>, word: String) -> Result<(), AllocError> {
    words.push(word)?;
    Ok(())
}

/// The words behind the first one.
fn words_of(alloc: Global, title: &str) -> Result<Vec<String>, Fault> {
    let mut words = Vec::new(alloc);
    for spelled in title.split(' ').skip(1) {
        let word = word_of(alloc, spelled)?;
        push_word(&mut words, word)?;
    }
    Ok(words)
}

/// Nothing where this is so, and else the fault.
fn ensure(is_so: bool, fault: Fault) -> Result<(), Fault> {
    if is_so { Ok(()) } else { Err(fault) }
}

impl Case {
    /// A case that begins on this line.
    pub(crate) fn new(alloc: Global, line: u64) -> Case {
        Case {
            line,
            text: Vec::new(alloc),
            input: Vec::new(alloc),
            piece: 100,
            room: 100,
            status: 0,
            out: Vec::new(alloc),
            err: Vec::new(alloc),
            is_seen: true,
            is_unread: false,
            calls: 0,
        }
    }

    /// Whether all that the last call did was asked for.
    pub(crate) fn settle(&self) -> Result<(), Fault> {
        ensure(self.status == 0, Fault::Status)?;
        ensure(self.is_seen || self.out.is_empty(), Fault::Output)?;
        ensure(self.err.is_empty(), Fault::Errors)
    }

    /// Calls the program with the words of the title.
    fn call<R: Threads + Wait + Sync>(
        &mut self,
        rt: &R,
        alloc: Global,
        program: &str,
        words: &[String],
    ) -> Result<(), Fault> {
        let mut streams = Streams::new(alloc, self.input.as_slice(), self.piece, self.room)?;
        self.status = streams.call(rt, alloc, program, words)?;
        put(&mut self.out, streams.out.held())?;
        put(&mut self.err, streams.err.held())?;
        self.is_unread = streams.has_left(alloc, self.input.as_slice());
        self.is_seen = false;
        self.calls = self.calls.saturating_add(1);
        Ok(())
    }

    /// The same, once all that the call before did was asked for.
    fn call_next<R: Threads + Wait + Sync>(
        &mut self,
        rt: &R,
        alloc: Global,
        program: &str,
        title: &str,
    ) -> Result<(), Fault> {
        self.settle()?;
        let words = words_of(alloc, title)?;
        let called = self.call(rt, alloc, program, words.as_slice());
        drop(words);
        called
    }

    /// Whether the record tells these ends.
    fn tells_ends(&self, alloc: Global) -> Result<bool, Fault> {
        let mut ends = Vec::new(alloc);
        let record = str::from_utf8(self.out.as_slice()).map_err(|_| Fault::Output)?;
        push_ends(&mut ends, record)?;
        Ok(ends.as_slice() == self.text.as_slice())
    }

    /// Whether what was printed is as the part says. `None` where it says nothing of that.
    fn is_printed(&self, alloc: Global, word: &str, rest: &str) -> Result<Option<bool>, Fault> {
        let out = self.out.as_slice();
        let text = self.text.as_slice();
        let is_so = match word {
            "output" => out == text,
            "begins" => out.starts_with(text),
            "ends" => out.ends_with(text),
            "count" => count(out, text) == number(rest)?,
            "checked" => is_checked(alloc, self.input.as_slice(), out)?,
            "ended" => self.tells_ends(alloc)?,
            _ => return Ok(None),
        };
        Ok(Some(is_so))
    }

    /// Compares what the last call did with a part. Answers whether it is one that says so.
    fn compare(&mut self, alloc: Global, word: &str, rest: &str) -> Result<bool, Fault> {
        if let Some(is_so) = self.is_printed(alloc, word, rest)? {
            self.is_seen = true;
            ensure(is_so, Fault::Output)?;
            return Ok(true);
        }
        match word {
            "status" => {
                ensure(self.status as u64 == number(rest)?, Fault::Status)?;
                self.status = 0;
            }
            "errors" => {
                ensure(self.err.as_slice() == self.text.as_slice(), Fault::Errors)?;
                self.err.clear();
            }
            "unread" => ensure(self.is_unread, Fault::Read)?,
            _ => return Ok(false),
        }
        Ok(true)
    }

    /// Takes what a part gives to the calls that follow. Answers whether it is one that does.
    fn take(&mut self, word: &str, rest: &str) -> Result<bool, Fault> {
        match word {
            "input" => put(&mut self.input, self.text.as_slice())?,
            "more" => self.input.extend_from_slice(self.text.as_slice())?,
            "taken" => {
                put(&mut self.input, self.out.as_slice())?;
                self.input.extend_from_slice(self.text.as_slice())?;
            }
            "piece" => self.piece = number(rest)?,
            "room" => self.room = number(rest)?,
            _ => return Ok(false),
        }
        Ok(true)
    }

    /// Reads the part with this title.
    fn read_titled<R: Threads + Wait + Sync>(
        &mut self,
        rt: &R,
        alloc: Global,
        title: &str,
    ) -> Result<(), Fault> {
        let (word, rest) = title.split_once(' ').unwrap_or((title, ""));
        if self.take(word, rest)? || self.compare(alloc, word, rest)? {
            return Ok(());
        }
        self.call_next(rt, alloc, word, title)
    }

    /// Reads a part.
    pub(crate) fn read<R: Threads + Wait + Sync>(
        &mut self,
        rt: &R,
        alloc: Global,
        part: &str,
    ) -> Result<(), Fault> {
        self.text.clear();
        match part.split_once('\n') {
            Some((title, lines)) => {
                push_lines(alloc, &mut self.text, lines)?;
                self.read_titled(rt, alloc, title)
            }
            None => self.read_titled(rt, alloc, part),
        }
    }
}
