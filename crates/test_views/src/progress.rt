//! What is told while a search goes on, by a clock that is made.

use sig_base::MemorySink;
use sig_search::Teller;
use sig_view::Progress;
use std::alloc::{AllocError, Global};
use std::io;
use std::time::{Clock, Duration};

/// A clock that shows so many milliseconds, or can't be read.
#[derive(Drop)]
struct Made(Option<u64>);

impl Clock for Made {
    fn monotonic(&self) -> io::Result<Duration> {
        match self.0 {
            Some(shown) => Ok(Duration::from_millis(shown)),
            None => Err(io::ErrorKind::Other.into()),
        }
    }

    fn since_1970(&self) -> io::Result<Duration> {
        self.monotonic()
    }
}

/// What the clock shows, how many states were visited and met, and the line that is written then.
type Row = (Option<u64>, usize, usize, &'static [u8]);

static ROWS: [Row; 14] = [
    // The search begins, and less than a second goes.
    (Some(5000), 0, 1, b""),
    (Some(5999), 256, 700, b""),
    (
        Some(6000),
        512,
        1400,
        b"sigview: 512 states visited of 1400 met\n",
    ),
    // The next line is due a second later; but the clock isn't looked at after each visit.
    (Some(6999), 768, 2000, b""),
    (Some(7000), 769, 2000, b""),
    (Some(7100), 1023, 2001, b""),
    (
        Some(7200),
        1024,
        2001,
        b"sigview: 1024 states visited of 2001 met\n",
    ),
    (Some(8000), 1280, 2500, b""),
    // The clock can't be read.
    (None, 1536, 3000, b""),
    // Some seconds go between two visits.
    (
        Some(19200),
        1792,
        9999999999,
        b"sigview: 1792 states visited of 9999999999 met\n",
    ),
    (Some(20199), 2048, 9999999999, b""),
    // The clock goes back.
    (Some(19000), 2304, 9999999999, b""),
    (
        Some(20200),
        2560,
        9999999999,
        b"sigview: 2560 states visited of 9999999999 met\n",
    ),
    (Some(20200), 2816, 9999999999, b""),
];

/// Whether a sink with so much room holds the lines of the rows then, as far as there is room; or nothing,
/// where none is to be written.
fn are_told(alloc: Global, room: usize, shown: bool) -> Result<bool, AllocError> {
    let sink = MemorySink::with_room(alloc, room)?;
    let mut progress = Progress::new(Made(None), sink, shown);
    let mut lines = Vec::new(alloc);
    for (clock, visited, met, line) in &ROWS {
        progress.clock = Made(*clock);
        progress.tell(*visited, *met);
        lines.extend_from_slice(line)?;
    }
    let held = progress.err.held();
    if shown {
        Ok(Some(held) == lines.get(..room.min(lines.len())))
    } else {
        Ok(held.is_empty())
    }
}

#[test]
fn progress_is_told_about_once_a_second(rt: HostRuntime) {
    let told = are_told(rt.alloc(), 1000, true);
    assert!(rt; told == Ok(true));
}

#[test]
fn progress_is_told_to_a_terminal_alone(rt: HostRuntime) {
    let told = are_told(rt.alloc(), 1000, false);
    assert!(rt; told == Ok(true));
}

#[test]
fn a_fault_of_telling_progress_changes_nothing(rt: HostRuntime) {
    for room in [0, 50] {
        let told = are_told(rt.alloc(), room, true);
        assert!(rt; told == Ok(true));
    }
}
