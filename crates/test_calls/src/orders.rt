//! What signals and journals say of the order in which they came.

use sig_kinds::{Kind, Push, Signal, Signals};
use sig_layout::{Entry, Journal};
use sig_queue::Rest;
use sig_terms::{Pid, Term};

// The serial of this signal, where it is a message that is a reference of its sender.
fn serial_of(signal: &Signal) -> Option<u64> {
    match &signal.kind {
        Kind::Message {
            term: Term::Ref(reference),
        } if reference.owner == signal.from => Some(reference.serial),
        _other => None,
    }
}

/// Whether the signal is the message from one to the other with this number and this serial.
pub(crate) fn is_message(signal: &Signal, from: Pid, to: Pid, number: u64, serial: u64) -> bool {
    let is_between = signal.from == from && signal.to == to;
    is_between && signal.number == number && serial_of(signal) == Some(serial)
}

/// Whether the signals have these serials.
pub(crate) fn are(signals: &Signals, serials: &[u64]) -> bool {
    for (place, serial) in serials.iter().enumerate() {
        let Some(signal) = signals.get(place) else {
            return false;
        };
        if serial_of(signal) != Some(*serial) {
            return false;
        }
    }
    signals.len() == serials.len()
}

// Takes the next signal that is left, and adds it to the others. It tells whether there was one, and
// memory for it.
fn gather_next(rest: &mut Rest, signals: &mut Signals) -> bool {
    let Some(signal) = rest.next() else {
        return false;
    };
    let pushed = signals.push(signal);
    let is_added = matches!(pushed, Push::Added);
    drop(pushed);
    is_added
}

/// Adds the signals that are left to the others, as many as memory allows.
pub(crate) fn gather(rest: &mut Rest, signals: &mut Signals) {
    for _ in 0..u64::MAX {
        if !gather_next(rest, signals) {
            break;
        }
    }
}

// Counts the signal for its sender, one of 0 to 3. Whether its serial was the count before.
fn count(counts: &mut [u64; 4], signal: &Signal) -> bool {
    let from = (signal.from.0 % 4) as usize;
    let is_next = serial_of(signal) == Some(counts[from]);
    counts[from] = counts[from].wrapping_add(1);
    is_next
}

/// Whether the signals are so many of each of the senders 0 to 3, those of each in order.
pub(crate) fn are_in_order(signals: &Signals, expected: [u64; 4]) -> bool {
    let mut counts = [0; 4];
    for place in 0..signals.len() {
        let Some(signal) = signals.get(place) else {
            return false;
        };
        if !count(&mut counts, signal) {
            return false;
        }
    }
    counts == expected
}

/// Whether the journal has these entries.
pub(crate) fn has(journal: &Journal, entries: &[Entry]) -> bool {
    for (place, entry) in entries.iter().enumerate() {
        if journal.get(place) != Some(entry) {
            return false;
        }
    }
    journal.len() == entries.len()
}
