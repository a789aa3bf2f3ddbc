//! The calls of an inner queue that no script makes so, and its marks. What receives find is tested by
//! scripts.
//!
//! A call is written as a sign and a digit: `+5` appends the integer 5, `!5` too, and again where memory is
//! refused; `-5` takes the first message out, which is the integer 5, `#0` asks how many there are, `?0`
//! whether there is none, and `*0` takes all out. `r5` reserves the serial 5; `b5` and `c5` bind and clear
//! the owner's reference with the serial 5, `B5` and `C5` that of another process. An answer is `y`, `n`,
//! the digit of a count or of the number by which the message came, or `.` where there is none.

use crate::shared::{Row, digit, each_row_holds, int, next_call, passes};
use sig_inner::{Append, Inner};
use sig_terms::{Pid, Ref, Term};
use std::alloc::{AllocError, Global};

const OWNER: Pid = Pid(7);

/// Whether there was room for the integer, as the last of fewer than a thousand messages.
fn appends(queue: &mut Inner, number: u8) -> bool {
    if queue.next_arrival() >= 1000 || queue.room().is_err() {
        return false;
    }
    let appended = queue.append(Term::Int(number as i64));
    let is_added = matches!(appended, Append::Added);
    drop(appended);
    is_added
}

/// Appends the integer, and once more where memory is refused. Whether a refusal gave the message back
/// and left the others.
fn insists(queue: &mut Inner, number: u8) -> bool {
    if queue.next_arrival() >= 1000 {
        return false;
    }
    let held = (queue.len(), queue.next_arrival());
    match queue.append(Term::Int(number as i64)) {
        Append::Added => true,
        Append::Memory { message } => {
            let is_back = int(&message) == Some(number as i64);
            drop(message);
            is_back && (queue.len(), queue.next_arrival()) == held && appends(queue, number)
        }
    }
}

/// The digit of the number by which the first message came, which is taken out and is this integer.
fn taken(queue: &mut Inner, number: u8) -> u8 {
    let Some((arrived, message)) = queue.pop_front() else {
        return b'n';
    };
    let is_so = int(&message) == Some(number as i64);
    drop(message);
    if is_so { digit(arrived) } else { b'-' }
}

/// What a call answers.
fn called(queue: &mut Inner, sign: u8, number: u8) -> u8 {
    let owner = if matches!(sign, b'B' | b'C') {
        Pid(1)
    } else {
        OWNER
    };
    let serial = number as u64;
    let yes = match sign {
        b'+' => appends(queue, number),
        b'!' => insists(queue, number),
        b'-' => return taken(queue, number),
        b'#' => return digit(queue.len() as u64),
        b'?' => queue.is_empty(),
        b'b' | b'B' => queue.bind(Ref { owner, serial }),
        b'c' | b'C' => queue.clear(Ref { owner, serial }),
        b'r' => {
            queue.reserve(serial);
            return b'.';
        }
        _ => {
            queue.empty();
            return b'.';
        }
    };
    if yes { b'y' } else { b'n' }
}

/// Whether these calls are answered so.
fn are_answered(queue: &mut Inner, calls: &[u8], answers: &[u8]) -> bool {
    let mut calls = calls.iter();
    for answer in answers {
        let Some((sign, number)) = next_call(&mut calls) else {
            return false;
        };
        if called(queue, sign, number) != *answer {
            return false;
        }
    }
    next_call(&mut calls).is_none()
}

/// Calls, and what they answer.
struct Rule(&'static [u8], &'static [u8]);

impl Row for Rule {
    /// Whether the rule holds of a new queue, which tells its owner too.
    fn holds(&self, alloc: Global) -> Result<bool, AllocError> {
        let mut queue = Inner::open(alloc, OWNER)?;
        Ok(queue.owner() == OWNER && are_answered(&mut queue, self.0, self.1))
    }
}

const RULES: [Rule; 7] = [
    // numbers go on after the queue was emptied
    Rule(b"+5 +6 #0 -5 *0 -0 ?0 +7 -7", b"yy21.nyy3"),
    // a bind needs a reserve, and a reference that the process made since then
    Rule(b"b5 b5 c5 c5", b"nnnn"),
    Rule(b"r5 B5 B5 C5 C5", b".nnnn"),
    Rule(b"r5 b4 b4 c4 c4", b".nnnn"),
    Rule(b"r5 b5 b5 c5 c5", b".ynyn"),
    Rule(b"r5 b6 b6 c6 c6", b".ynyn"),
    // of nine marks the oldest is gone
    Rule(
        b"r1 b1 r2 b2 r3 b3 r4 b4 r5 b5 r6 b6 r7 b7 r8 b8 r9 b9 c1 c2 c3 c4 c5 c6 c7 c8 c9",
        b".y.y.y.y.y.y.y.y.ynyyyyyyyy",
    ),
];

#[test]
fn rules_hold_line_by_line(rt: HostRuntime) {
    each_row_holds(&rt, rt.alloc(), &RULES);
}

/// Ten messages, for which the queue grows several times, and a mark in their midst.
static GROWING: Rule = Rule(
    b"!1 !2 !3 r4 !4 !5 b4 !6 !7 !8 !9 !0 c4 -1 -2 -3 -4 -5 -6 -7 -8 -9 -0 ?0",
    b"yyy.yyyyyyyyy1234567890y",
);

/// Whether the rule holds of a queue that is opened again where memory is refused.
fn is_kept(alloc: Global) -> Result<bool, AllocError> {
    match Inner::open(alloc, OWNER) {
        Ok(mut queue) => Ok(are_answered(&mut queue, GROWING.0, GROWING.1)),
        Err(_) => GROWING.holds(alloc),
    }
}

/// Passes too where any one request for memory is refused (`rt try --test --fail-alloc N`).
#[test]
fn what_is_held_stays_where_memory_is_refused(rt: HostRuntime) {
    passes(&rt, is_kept(rt.alloc()));
}
