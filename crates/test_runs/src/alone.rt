//! The top call that needs no threads: what it answers, reads, writes and tells.

use sig_base::read_all;
use sig_host::{Status, run_alone};
use sig_script::FaultKind;
use std::alloc::{AllocError, Global};
use test_shared::{ONE_MESSAGE, ONE_MESSAGE_RECORD, PLAIN, streams_of, texts_of};

/// A call: what it is given, and what comes of it.
struct Call {
    /// The arguments.
    words: &'static [&'static str],
    /// The bytes of its source.
    text: &'static [u8],
    /// What it answers.
    answer: Option<Status>,
    /// What is left of its source.
    left: &'static [u8],
    /// What it writes.
    written: &'static [u8],
    /// What it tells.
    told: &'static [u8],
}

/// Arguments that are refused, a script that is refused, one worker twice, and several.
const CALLS: [Call; 5] = [
    Call {
        words: &["--workers", "0"],
        text: ONE_MESSAGE,
        answer: Some(Status::Usage),
        left: ONE_MESSAGE,
        written: b"",
        told: b"usage: sigrun [--workers N] [--quota N] [--buffers never|always|churn:N|auto] [--generate N]\n",
    },
    Call {
        words: &[],
        text: b"sigscript 1\nprocess a\ngoto z\n",
        answer: Some(Status::BadScript {
            line: 3,
            kind: FaultKind::UnknownLabel,
        }),
        left: b"",
        written: b"",
        told: b"sigrun: line 3: unknown_label\n",
    },
    Call {
        words: &[],
        text: ONE_MESSAGE,
        answer: Some(Status::Done),
        left: b"",
        written: ONE_MESSAGE_RECORD,
        told: b"",
    },
    Call {
        words: &["--workers", "1"],
        text: ONE_MESSAGE,
        answer: Some(Status::Done),
        left: b"",
        written: ONE_MESSAGE_RECORD,
        told: b"",
    },
    Call {
        words: &["--workers", "2"],
        text: ONE_MESSAGE,
        answer: None,
        left: ONE_MESSAGE,
        written: b"",
        told: b"",
    },
];

/// Whether this comes of the call.
fn comes_of(alloc: Global, call: &Call) -> Result<bool, AllocError> {
    let words = texts_of(alloc, call.words)?;
    let text = Vec::from_slice(alloc, call.text)?;
    let (mut script, mut out, mut err) = streams_of(alloc, &PLAIN, text)?;
    let answer = run_alone(alloc, words.as_slice(), &mut script, &mut out, &mut err);
    drop(words);
    let mut left = Vec::new(alloc);
    let _ = read_all(&mut script, call.text.len(), &mut left);
    let is_left = left.as_slice() == call.left;
    Ok(answer == call.answer && is_left && out.held() == call.written && err.held() == call.told)
}

#[test]
fn one_worker_needs_no_threads(rt: HostRuntime) {
    for call in &CALLS {
        let comes = comes_of(rt.alloc(), call);
        assert!(rt; comes == Ok(true), "{:?}", call.words);
    }
}
