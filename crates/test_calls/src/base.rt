//! What is read and written up to a limit and past a fault, and a counter.

ghost use Rattle.std.specs.Prelude.{◌≡◌, ◌+◌, ◌<◌};

use crate::shared::{Row, each_row_holds};
use sig_base::*;
use std::alloc::{AllocError, Global};
use std::io;
use std::io::{Read, Write};
use std::marker::Brand;
use std::sync::ledger::{Blank, Ledger};

const TEXT: &[u8] = b"abcdefghijklmnopqrstuvwxy";

/// The first ten bytes of the text.
const FRONT: &[u8] = b"abcdefghij";

/// The others.
const REST: &[u8] = b"klmnopqrstuvwxy";

// Gives and takes at most 10 bytes a call. Its second call fails.
#[derive(Drop)]
struct Device<T: Drop> {
    inner: T,
    calls: u32,
}

impl<T: Drop> Device<T> {
    fn begin(&mut self) -> io::Result<()> {
        self.calls = self.calls.saturating_add(1);
        if self.calls == 2 {
            return Err(io::ErrorKind::Other.into());
        }
        Ok(())
    }
}

impl<T: Read + Drop> Read for Device<T> {
    fn read(&mut self, into: &mut [u8]) -> io::Result<usize> {
        self.begin()?;
        let most = into.len().min(10);
        self.inner.read(&mut into[..most])
    }
}

impl<T: Write + Drop> Write for Device<T> {
    fn write(&mut self, piece: &[u8]) -> io::Result<usize> {
        self.begin()?;
        let most = piece.len().min(10);
        self.inner.write(&piece[..most])
    }

    fn flush(&mut self) -> io::Result<()> {
        Ok(())
    }
}

/// Where the text is read from.
enum Input {
    /// Memory, so many bytes a call.
    Memory(usize),
    /// Memory, ten bytes a call, the second of which fails.
    Failing,
    /// A device under std's.
    Device,
    /// A slice under std's.
    Slice,
}

/// Limits, what reading up to them answers, and what it gives.
type Limits<'a> = &'a [(u8, ReadAll, &'a [u8])];

/// Whether the source, read up to each limit, answers and gives this.
fn gives<S: Source>(source: &mut S, limits: Limits, into: &mut Vec<u8>) -> bool {
    for (limit, answer, bytes) in limits {
        into.clear();
        if read_all(source, *limit as usize, into) != *answer || into.as_slice() != *bytes {
            return false;
        }
    }
    true
}

fn memory_gives(
    alloc: Global,
    piece: usize,
    limits: Limits,
    into: &mut Vec<u8>,
) -> Result<bool, AllocError> {
    let mut source = MemorySource::new(TEXT.to_vec(alloc)?, piece.max(1));
    Ok(gives(&mut source, limits, into))
}

fn failing_gives(alloc: Global, limits: Limits, into: &mut Vec<u8>) -> Result<bool, AllocError> {
    let faults = [2].to_vec(alloc)?;
    let mut source = FailingSource::new(TEXT.to_vec(alloc)?, 10, faults);
    Ok(gives(&mut source, limits, into))
}

fn device_gives(limits: Limits, into: &mut Vec<u8>) -> bool {
    let device = Device {
        inner: TEXT,
        calls: 0,
    };
    gives(&mut StdSource::new(device), limits, into)
}

/// Where the text is read from, and what comes.
struct Reading(Input, Limits<'static>);

impl Row for Reading {
    fn holds(&self, alloc: Global) -> Result<bool, AllocError> {
        let mut into = Vec::new(alloc);
        match self.0 {
            Input::Memory(piece) => memory_gives(alloc, piece, self.1, &mut into),
            Input::Failing => failing_gives(alloc, self.1, &mut into),
            Input::Device => Ok(device_gives(self.1, &mut into)),
            Input::Slice => Ok(gives(&mut StdSource::new(TEXT), self.1, &mut into)),
        }
    }
}

/// It fails after ten bytes, and gives the others then.
const FAULT: Limits<'static> = &[
    (100, ReadAll::ReadFault, FRONT),
    (100, ReadAll::Whole, REST),
];

const READINGS: [Reading; 9] = [
    Reading(Input::Memory(1), &[(25, ReadAll::Whole, TEXT)]),
    Reading(Input::Memory(7), &[(26, ReadAll::Whole, TEXT)]),
    Reading(Input::Memory(10), &[(25, ReadAll::Whole, TEXT)]),
    Reading(Input::Memory(10), &[(24, ReadAll::TooLong, TEXT)]),
    Reading(Input::Memory(10), &[(9, ReadAll::TooLong, FRONT)]),
    Reading(Input::Memory(10), &[(0, ReadAll::TooLong, b"a")]),
    Reading(Input::Failing, FAULT),
    Reading(Input::Device, FAULT),
    Reading(Input::Slice, &[(100, ReadAll::Whole, TEXT)]),
];

#[test]
fn reads_up_to_the_limit_and_on_after_a_fault(rt: HostRuntime) {
    each_row_holds(&rt, rt.alloc(), &READINGS);
}

/// Where bytes are written to.
enum Output {
    /// Memory with so much room.
    Memory(usize),
    /// Memory with room for 35 bytes, ten bytes a call, the second of which fails.
    Failing,
    /// A device under std's.
    Device,
    /// A list under std's.
    List,
    /// Four bytes under std's.
    Slice,
}

/// Bytes, and what writing them answers.
type Pieces = &'static [(&'static [u8], Written)];

/// Whether writing the pieces one after another answers so.
fn takes<O: Sink>(sink: &mut O, pieces: Pieces) -> bool {
    for (piece, answer) in pieces {
        if write_whole(sink, piece) != *answer {
            return false;
        }
    }
    true
}

fn memory_takes(
    alloc: Global,
    room: usize,
    pieces: Pieces,
    held: &[u8],
) -> Result<bool, AllocError> {
    let mut sink = MemorySink::with_room(alloc, room)?;
    Ok(takes(&mut sink, pieces) && sink.held() == held)
}

fn failing_takes(alloc: Global, pieces: Pieces, held: &[u8]) -> Result<bool, AllocError> {
    let mut sink = FailingSink::with_room(alloc, 35, 10, [2].to_vec(alloc)?)?;
    Ok(takes(&mut sink, pieces) && sink.held() == held)
}

fn list_takes(is_device: bool, into: &mut Vec<u8>, pieces: Pieces) -> bool {
    if is_device {
        let inner = into;
        return takes(&mut StdSink::new(Device { inner, calls: 0 }), pieces);
    }
    takes(&mut StdSink::new(into), pieces)
}

fn list_holds(alloc: Global, is_device: bool, pieces: Pieces, held: &[u8]) -> bool {
    let mut into = Vec::new(alloc);
    list_takes(is_device, &mut into, pieces) && into.as_slice() == held
}

fn slice_takes(pieces: Pieces, held: &[u8]) -> bool {
    let mut room = [0; 4];
    takes(&mut StdSink::new(room.as_mut_slice()), pieces) && room.as_slice() == held
}

/// Where bytes are written to, these, and what is held then.
struct Writing(Output, Pieces, &'static [u8]);

impl Row for Writing {
    fn holds(&self, alloc: Global) -> Result<bool, AllocError> {
        match self.0 {
            Output::Memory(room) => memory_takes(alloc, room, self.1, self.2),
            Output::Failing => failing_takes(alloc, self.1, self.2),
            Output::Device => Ok(list_holds(alloc, true, self.1, self.2)),
            Output::List => Ok(list_holds(alloc, false, self.1, self.2)),
            Output::Slice => Ok(slice_takes(self.1, self.2)),
        }
    }
}

const FULL_AFTER_24: Written = Written::WriteFault { written: 24 };

const FAULT_AFTER_10: Written = Written::WriteFault { written: 10 };

const WRITINGS: [Writing; 10] = [
    Writing(Output::Memory(30), &[(TEXT, Written::Whole)], TEXT),
    Writing(Output::Memory(25), &[(TEXT, Written::Whole)], TEXT),
    Writing(
        Output::Memory(24),
        &[(TEXT, FULL_AFTER_24)],
        b"abcdefghijklmnopqrstuvwx",
    ),
    Writing(
        Output::Memory(0),
        &[(TEXT, Written::WriteFault { written: 0 })],
        b"",
    ),
    // ten bytes before the fault, then the rest, and ten when it gets full
    Writing(Output::Failing, &[(TEXT, FAULT_AFTER_10)], FRONT),
    Writing(
        Output::Failing,
        &[(TEXT, FAULT_AFTER_10), (REST, Written::Whole)],
        TEXT,
    ),
    Writing(
        Output::Failing,
        &[
            (TEXT, FAULT_AFTER_10),
            (REST, Written::Whole),
            (TEXT, FAULT_AFTER_10),
        ],
        b"abcdefghijklmnopqrstuvwxyabcdefghij",
    ),
    Writing(
        Output::Device,
        &[(TEXT, FAULT_AFTER_10), (REST, Written::Whole)],
        TEXT,
    ),
    Writing(Output::List, &[(TEXT, Written::Whole)], TEXT),
    Writing(
        Output::Slice,
        &[(TEXT, Written::WriteFault { written: 4 })],
        b"abcd",
    ),
];

#[test]
fn writes_until_full_and_on_after_a_fault(rt: HostRuntime) {
    each_row_holds(&rt, rt.alloc(), &WRITINGS);
}

// Counts two steps, with an open gate between them.
fn count_two<L: Ledger>(steps: &mut Steps<L>)
    ensures { steps.new ≡ steps.old + 2 }
{
    steps.tick();
    OpenGate.at(0, 1, Point::Put { buffer: Some(63) });
    steps.tick();
}

// The bytes that a counter of its own takes after two steps.
fn bytes_of_two_steps<L: Ledger>(blank: Blank) -> usize
    requires name { blank.name ≡ L.name }
    requires parts { blank.parts ≡ L.parts }
    requires some { 0 < blank.parts }
{
    let mut steps: Steps<L> = Steps::open(blank);
    count_two(&mut steps);
    size_of_val(&steps)
}

#[test]
fn steps_past_an_open_gate_take_no_bytes(rt: HostRuntime) {
    assert!(rt; bytes_of_two_steps::<Brand>(Blank::new(1)) == 0);
}
