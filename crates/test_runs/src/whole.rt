//! Whole runs, through the top call: what they are given, and what they answer, write and tell.

use sig_base::{FailingSink, Gate, MemorySink};
use sig_host::{Status, run};
use std::alloc::{AllocError, Global};
use std::sync::Wait;
use std::thread::Threads;
use test_shared::{Setting, streams_of, texts_of};

/// A run: its answer, and what it has written and told.
#[derive(Drop)]
pub(crate) struct Ran {
    pub status: Status,
    pub out: FailingSink,
    pub err: MemorySink,
}

/// Appends these pieces, each so many times.
fn push_pieces(text: &mut Vec<u8>, pieces: &[(&[u8], usize)]) -> Result<(), AllocError> {
    for (piece, times) in pieces {
        for _ in 0..*times {
            text.extend_from_slice(piece)?;
        }
    }
    Ok(())
}

/// A text of these pieces, each so many times.
pub(crate) fn text_of(alloc: Global, pieces: &[(&[u8], usize)]) -> Result<Vec<u8>, AllocError> {
    let mut text = Vec::new(alloc);
    push_pieces(&mut text, pieces)?;
    Ok(text)
}

impl Ran {
    /// The run of the script of these pieces, each so many times.
    pub(crate) fn of<R: Threads + Wait + Sync, G: Gate>(
        rt: &R,
        alloc: Global,
        setting: &Setting,
        pieces: &[(&[u8], usize)],
        gate: &G,
    ) -> Result<Ran, AllocError> {
        let words = texts_of(alloc, setting.words)?;
        let text = text_of(alloc, pieces)?;
        let (mut script, mut out, mut err) = streams_of(alloc, setting, text)?;
        let status = run(
            rt,
            alloc,
            words.as_slice(),
            &mut script,
            &mut out,
            &mut err,
            gate,
        );
        drop(words);
        Ok(Ran { status, out, err })
    }
}
