//! One call of each growing call with memory to spare.

use crate::shared::{Row, each_row_holds, int, passes};
use sig_kinds::*;
use sig_terms::{Pid, Ref, Term};
use std::alloc::{AllocError, Global};

fn numbered(number: u64) -> Signal {
    Signal {
        from: Pid(1),
        to: Pid(2),
        number,
        stamp: 9,
        kind: Kind::Message {
            term: Term::Pid(Pid(1)),
        },
    }
}

/// A copy of the signal with this number.
fn copied(alloc: Global, number: u64) -> Result<Signal, AllocError> {
    let signal = numbered(number);
    let copy = signal.copy(alloc);
    drop(signal);
    copy
}

/// Whether there was memory to push the signal.
fn is_pushed(signals: &mut Signals, signal: Signal) -> bool {
    let pushed = signals.push(signal);
    let is_added = matches!(pushed, Push::Added);
    drop(pushed);
    is_added
}

/// Pushes copies of signals with these numbers. It tells whether there was memory for all.
fn push_copies(alloc: Global, signals: &mut Signals, numbers: &[u64]) -> Result<bool, AllocError> {
    for number in numbers {
        if !is_pushed(signals, copied(alloc, *number)?) {
            return Ok(false);
        }
    }
    Ok(true)
}

/// The number of the next signal, which leaves.
fn next_number(signals: &mut Signals) -> Option<u64> {
    let signal = signals.pop_front()?;
    let number = signal.number;
    drop(signal);
    Some(number)
}

/// Whether the signals leave with these numbers, and there are no others.
fn leave(signals: &mut Signals, numbers: &[u64]) -> bool {
    for number in numbers {
        if next_number(signals) != Some(*number) {
            return false;
        }
    }
    signals.is_empty()
}

/// Whether the signals stand with these numbers, and there are no others.
fn stand(signals: &Signals, numbers: &[u64]) -> bool {
    for (place, number) in numbers.iter().enumerate() {
        let Some(signal) = signals.get(place) else {
            return false;
        };
        if signal.number != *number {
            return false;
        }
    }
    signals.len() == numbers.len()
}

/// Whether signals that are pushed leave in the order of their coming, and others move behind.
fn come_and_leave(
    alloc: Global,
    signals: &mut Signals,
    others: &mut Signals,
) -> Result<bool, AllocError> {
    let three = push_copies(alloc, others, &[1, 2, 3])? && leave(others, &[1, 2, 3]);
    let one = push_copies(alloc, signals, &[1])?;
    let two = push_copies(alloc, others, &[2, 3])?;
    signals.append(others)?;
    signals.room(2)?;
    signals.add(numbered(4));
    signals.add(numbered(5));
    let all = [1, 2, 3, 4, 5];
    Ok(three & one & two & others.is_empty() & stand(signals, &all) & leave(signals, &all))
}

#[test]
fn signals_leave_in_the_order_of_their_coming(rt: HostRuntime) {
    let mut signals = Signals::new(rt.alloc());
    let mut others = Signals::new(rt.alloc());
    passes(&rt, come_and_leave(rt.alloc(), &mut signals, &mut others));
}

const REFERENCE: Ref = Ref {
    owner: Pid(5),
    serial: 7,
};

/// The kind of this sign.
fn kind_of(sign: u8) -> Kind {
    let reference = REFERENCE;
    match sign {
        b'm' => Kind::Message { term: Term::Int(1) },
        b'a' => Kind::AliasMessage {
            reference,
            term: Term::Int(2),
        },
        b'l' => Kind::Link,
        b'u' => Kind::Unlink { id: 3 },
        b'k' => Kind::UnlinkAck { id: 4 },
        b'+' => Kind::Monitor { reference },
        b'-' => Kind::Demonitor { reference },
        b'e' => Kind::Exit {
            reason: Term::Int(6),
            linked: true,
        },
        _ => Kind::Down {
            reference,
            reason: Term::Int(8),
        },
    }
}

/// A copy of the kind of this sign.
fn copy_of(alloc: Global, sign: u8) -> Result<Kind, AllocError> {
    let kind = kind_of(sign);
    let copy = kind.copy(alloc);
    drop(kind);
    copy
}

/// The sign of a kind, and all that the kind says: its number, its reference, and the integer that is
/// its term.
struct Said(u8, u64, Option<Ref>, Option<i64>);

impl Said {
    /// Whether the kind is of this sign, and says this.
    fn is_of(&self, kind: &Kind) -> bool {
        let (sign, number, reference, term) = match kind {
            Kind::Message { term } => (b'm', 0, None, int(term)),
            Kind::AliasMessage { reference, term } => (b'a', 0, Some(*reference), int(term)),
            Kind::Link => (b'l', 0, None, None),
            Kind::Unlink { id } => (b'u', *id, None, None),
            Kind::UnlinkAck { id } => (b'k', *id, None, None),
            Kind::Monitor { reference } => (b'+', 0, Some(*reference), None),
            Kind::Demonitor { reference } => (b'-', 0, Some(*reference), None),
            Kind::Exit { reason, linked } => (b'e', if *linked { 1 } else { 0 }, None, int(reason)),
            Kind::Down { reference, reason } => (b'd', 0, Some(*reference), int(reason)),
        };
        self.0 == sign && self.1 == number && self.2 == reference && self.3 == term
    }
}

impl Row for Said {
    /// Whether a copy of the kind of the sign says this.
    fn holds(&self, alloc: Global) -> Result<bool, AllocError> {
        let copy = copy_of(alloc, self.0)?;
        let is_said = self.is_of(&copy);
        drop(copy);
        Ok(is_said)
    }
}

const KINDS: [Said; 9] = [
    Said(b'm', 0, None, Some(1)),
    Said(b'a', 0, Some(REFERENCE), Some(2)),
    Said(b'l', 0, None, None),
    Said(b'u', 3, None, None),
    Said(b'k', 4, None, None),
    Said(b'+', 0, Some(REFERENCE), None),
    Said(b'-', 0, Some(REFERENCE), None),
    Said(b'e', 1, None, Some(6)),
    Said(b'd', 0, Some(REFERENCE), Some(8)),
];

#[test]
fn each_kind_is_copied(rt: HostRuntime) {
    each_row_holds(&rt, rt.alloc(), &KINDS);
}
