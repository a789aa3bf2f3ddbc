//! A table of calls and signals, and what they answer and leave.
//!
//! A call is written as a sign and a peer: `+1` is `link` to 1, `r1` the same after `room`, `-1` is
//! `unlink` of 1, `l1`, `u1` and `e1` are a link signal, an unlink signal and an exit signal of 1, and
//! `31` is the acknowledgement of 1 with the id 3. `n1` asks for the next active peer after 1, and `N0`
//! after the last peer that there can be; `*0` takes all links out. An answer is `y`, `n`, the digit of
//! an id or of a peer, or `.` where there is none. Ids that are awaited are written by the places of
//! their peers, from 0 on, with `.` for none.

ghost use Rattle.std.specs.Prelude.{◌≡◌, ◌+◌, ◌<◌, ◌≤◌, ◌^◌};

use crate::shared::{Row, digit, each_row_holds, next_call};
use sig_links::*;
use sig_terms::Pid;
use std::alloc::{AllocError, Global};

/// `link` after `room`, which can't be refused memory.
fn linked_in_room(links: &mut Links, peer: Pid) -> Result<bool, AllocError>
    ensures { links.new.links.next_id ≡ links.old.links.next_id }
{
    links.room()?;
    let Ok(sends) = links.link(peer) else {
        unreachable!();
    };
    Ok(sends)
}

/// The next active peer after this one.
fn next_active(links: &Links, after: Pid) -> u8 {
    match links.next_active(Some(after)) {
        Some(peer) => digit(peer.0 as u64),
        None => b'n',
    }
}

/// What a call or a signal answers that changes a link.
fn called(links: &mut Links, sign: u8, peer: Pid) -> Result<u8, AllocError>
    requires { links.old.links.next_id < 2 ^ 63 }
    ensures { links.new.links.next_id ≤ links.old.links.next_id + 1 }
{
    let yes = match sign {
        b'+' => links.link(peer)?,
        b'-' => return Ok(links.unlink(peer)?.map_or(b'n', digit)),
        b'l' => links.on_link(peer)?,
        b'u' => links.on_unlink(peer),
        b'e' => links.on_exit(peer),
        _ => links.on_ack(peer, sign.wrapping_sub(b'0') as u64),
    };
    Ok(if yes { b'y' } else { b'n' })
}

/// The same, of the other calls too.
fn answered(links: &mut Links, sign: u8, peer: Pid) -> Result<u8, AllocError>
    requires { links.old.links.next_id < 2 ^ 63 }
    ensures { links.new.links.next_id ≤ links.old.links.next_id + 1 }
{
    match sign {
        b'r' => Ok(if linked_in_room(links, peer)? {
            b'y'
        } else {
            b'n'
        }),
        b'n' => Ok(next_active(links, peer)),
        b'N' => Ok(next_active(links, Pid(u32::MAX))),
        b'*' => {
            links.empty();
            Ok(b'.')
        }
        _ => called(links, sign, peer),
    }
}

/// Whether these calls are answered so.
fn are_answered(links: &mut Links, calls: &[u8], answers: &[u8]) -> Result<bool, AllocError>
    requires { links.old.links.next_id < 2 ^ 62 }
{
    let mut calls = calls.iter();
    for index in 0..1000 {
        let Some(answer) = answers.get(index) else {
            break;
        };
        let Some((sign, peer)) = next_call(&mut calls) else {
            return Ok(false);
        };
        if answered(links, sign, Pid(peer as u32))? != *answer {
            return Ok(false);
        }
    }
    Ok(next_call(&mut calls).is_none())
}

/// Whether these are the active peers, one after another.
fn are_active(links: &Links, peers: &[u8]) -> bool {
    let mut last = None;
    for peer in peers {
        last = links.next_active(last);
        if last != Some(Pid(peer.wrapping_sub(b'0') as u32)) {
            return false;
        }
    }
    links.next_active(last).is_none()
}

/// Whether these are the active peers, and the ids that are awaited.
fn leave(links: &Links, active: &[u8], awaited: &[u8]) -> bool {
    for peer in 0u32..10 {
        let id = links.awaited(Pid(peer)).map_or(b'.', digit);
        let is_active = active.contains(&digit(peer as u64));
        if id != awaited.get(peer as usize).copied().unwrap_or(b'.')
            || links.active(Pid(peer)) != is_active
        {
            return false;
        }
    }
    are_active(links, active)
}

/// The owner, calls, what they answer, the active peers after them, and the ids that are awaited.
struct Rule(
    u32,
    &'static [u8],
    &'static [u8],
    &'static [u8],
    &'static [u8],
);

impl Row for Rule {
    /// Whether the rule holds from no link on.
    fn holds(&self, alloc: Global) -> Result<bool, AllocError> {
        let Rule(owner, calls, answers, active, awaited) = self;
        let mut links = Links::open(alloc, Pid(*owner));
        Ok(are_answered(&mut links, calls, answers)? && leave(&links, active, awaited))
    }
}

const RULES: [Rule; 25] = [
    // `link`: once, again, to the owner, and while an id is awaited
    Rule(0, b"+1", b"y", b"1", b""),
    Rule(0, b"+1 +1", b"yn", b"1", b""),
    Rule(0, b"+0", b"n", b"", b""),
    Rule(0, b"+1 -1 +1", b"y1y", b"1", b".1"),
    // `unlink`: of an inactive link, of active ones, and with an older id awaited
    Rule(0, b"-1 -0", b"nn", b"", b""),
    Rule(0, b"+1 +2 -2 -1", b"yy12", b"", b".21"),
    Rule(0, b"+1 -1 +1 -1", b"y1y2", b"", b".2"),
    // a link signal: once, again, while an id is awaited, and after the acknowledgement
    Rule(0, b"l1 l1", b"yn", b"1", b""),
    Rule(0, b"+1 -1 l1", b"y1n", b"", b".1"),
    Rule(0, b"+1 -1 11 l1", b"y1yy", b"1", b""),
    // an unlink signal: of an active and of an inactive link
    Rule(0, b"l1 u1 u1", b"yyn", b"", b""),
    Rule(0, b"+1 -1 u1", b"y1n", b"", b".1"),
    // an acknowledgement: of another id, of another peer, of no unlink, and of the awaited one
    Rule(0, b"+1 -1 +1 -1 11", b"y1y2n", b"", b".2"),
    Rule(0, b"+1 -1 12", b"y1n", b"", b".1"),
    Rule(0, b"+1 11", b"yn", b"1", b""),
    Rule(0, b"+1 -1 +1 11", b"y1yy", b"1", b""),
    // an exit signal: of an active and of an inactive link
    Rule(0, b"+1 e1 e1", b"yyn", b"", b""),
    Rule(0, b"+1 -1 e1", b"y1n", b"", b".1"),
    // both unlink at once and one links again: it sees the other's unlink as one of the older link
    Rule(0, b"+1 -1 +1 u1 11", b"y1yyy", b"", b""),
    Rule(1, b"l0 -0 u0 l0 10", b"y1nny", b"", b""),
    // active peers ascend: there is none at first, and then each comes after those below it
    Rule(0, b"n0 N0", b"nn", b"", b""),
    Rule(0, b"+9 +2 l5 +2 n3 n5 n9 N0", b"yyyn59nn", b"259", b""),
    // room is made ahead, once for a link that is there
    Rule(0, b"r2 r1 r2", b"yyn", b"12", b""),
    // the next id outlives the links
    Rule(0, b"+1 -1 +2 *0", b"y1y.", b"", b""),
    Rule(0, b"+1 -1 +2 *0 l1 +2 -2", b"y1y.yy2", b"1", b"..2"),
];

#[test]
fn rules_hold_line_by_line(rt: HostRuntime) {
    each_row_holds(&rt, rt.alloc(), &RULES);
}
