use crate::called::{Called, Ending};
use crate::program::Program;
use crate::setting::{PLAIN, Setting};
use std::alloc::{AllocError, Global};

/// A command with its input, which is read and written a byte at a call, and what it writes.
pub struct Work {
    /// The arguments.
    pub words: &'static [&'static str],
    /// The script of the input.
    pub script: &'static [u8],
    /// The record behind it.
    pub told: &'static [u8],
    /// What is written of them.
    pub text: &'static [u8],
}

/// Whether the call whose read of this number fails says so; behind the last read it is done.
fn fails_at_read<P: Program>(alloc: Global, work: &Work, read: u64) -> Result<bool, AllocError> {
    let setting = Setting {
        words: work.words,
        piece: 1,
        failing_reads: &[read],
        failing_writes: &[],
        ..PLAIN
    };
    let reads = work.script.len().saturating_add(work.told.len()) as u64;
    let ending: Ending<P> = if read <= reads.saturating_add(1) {
        (P::READ_FAULT, b"", P::READ_TOLD)
    } else {
        (P::DONE, work.text, b"")
    };
    Called::<P>::ends_so(alloc, &setting, work.script, work.told, ending)
}

/// Whether the call whose write of this number fails says so and has written the bytes before; behind
/// the last write it is done.
fn fails_at_write<P: Program>(alloc: Global, work: &Work, write: u64) -> Result<bool, AllocError> {
    let setting = Setting {
        words: work.words,
        taken: 1,
        failing_reads: &[],
        failing_writes: &[write],
        ..PLAIN
    };
    let ending: Ending<P> = match work.text.get(..(write as usize).saturating_sub(1)) {
        Some(front) if front.len() < work.text.len() => (P::WRITE_FAULT, front, P::WRITE_TOLD),
        _ => (P::DONE, work.text, b""),
    };
    Called::<P>::ends_so(alloc, &setting, work.script, work.told, ending)
}

/// The first call of a stream, up to one behind the last read and the last write, whose fault is answered
/// otherwise.
///
/// # Errors
///
/// [`AllocError`] where memory is wanting for a call's streams.
pub fn first_other<P: Program>(alloc: Global, work: &Work) -> Result<Option<u64>, AllocError> {
    let reads = work.script.len().saturating_add(work.told.len());
    let end = reads.max(work.text.len()).saturating_add(3) as u64;
    for call in 1..end {
        if !fails_at_read::<P>(alloc, work, call)? || !fails_at_write::<P>(alloc, work, call)? {
            return Ok(Some(call));
        }
    }
    Ok(None)
}
