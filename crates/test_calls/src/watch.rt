//! A table of calls and signals, and what they answer and leave.
//!
//! A call is written as a sign and a serial of a reference. `m`, `e`, `d` and `r` are `monitor` of
//! process 1 without a mode and with the modes explicit, demonitor and reply_demonitor; `o` is
//! `monitor` of the owner, which is 0; `-` is `demonitor`; `a` and `A` are `alias` without and with
//! `reply`; `u` is `unalias`; `>` is a message through the alias, `+` and `x` are a monitor and a
//! demonitor signal of process 2, `!` is a down signal. `*` is a monitor signal of process 7 after
//! `room`, and `0` takes all out. An answer is `y`, `n`, the pid of the process that is told, `k` for
//! a message that is kept while none is told, or `.` where there is none.

use crate::shared::{Row, digit, each_row_holds, next_call};
use sig_kinds::AliasMode;
use sig_terms::{Pid, Ref};
use sig_watch::*;
use std::alloc::{AllocError, Global};

fn reference(serial: u64) -> Ref {
    Ref {
        owner: Pid(0),
        serial,
    }
}

fn told(tell: Option<Pid>, none: u8) -> u8 {
    match tell {
        Some(pid) => digit(pid.0 as u64),
        None => none,
    }
}

/// What a message through an alias answers.
fn passed(answer: AliasAnswer) -> u8 {
    match answer {
        AliasAnswer::Dropped => b'n',
        AliasAnswer::Kept { tell } => told(tell, b'k'),
    }
}

/// What `monitor` of this sign answers.
fn monitored(watch: &mut Watch, sign: u8, reference: Ref) -> Result<bool, AllocError> {
    let mode = match sign {
        b'e' => Some(AliasMode::Explicit),
        b'd' => Some(AliasMode::Demonitor),
        b'r' => Some(AliasMode::ReplyDemonitor),
        _ => None,
    };
    let target = if sign == b'o' { Pid(0) } else { Pid(1) };
    watch.monitor(reference, target, mode)
}

/// Makes a call that has no answer.
fn changed(watch: &mut Watch, sign: u8, reference: Ref) -> Result<(), AllocError> {
    match sign {
        b'+' => return watch.on_monitor(reference, Pid(2)),
        b'*' => {
            watch.room()?;
            return watch.on_monitor(reference, Pid(7));
        }
        b'0' => watch.empty(),
        _ => watch.alias(reference, sign == b'A')?,
    }
    Ok(())
}

/// What a call or a signal answers.
fn answered(watch: &mut Watch, sign: u8, reference: Ref) -> Result<u8, AllocError> {
    let yes = match sign {
        b'-' => return Ok(told(watch.demonitor(reference), b'n')),
        b'>' => return Ok(passed(watch.on_alias_message(reference))),
        b'u' => watch.unalias(reference),
        b'x' => watch.on_demonitor(reference),
        b'!' => watch.on_down(reference),
        b'm' | b'e' | b'd' | b'r' | b'o' => monitored(watch, sign, reference)?,
        _ => {
            changed(watch, sign, reference)?;
            return Ok(b'.');
        }
    };
    Ok(if yes { b'y' } else { b'n' })
}

/// Whether these calls and signals are answered so.
fn are_answered(watch: &mut Watch, calls: &[u8], answers: &[u8]) -> Result<bool, AllocError> {
    let mut calls = calls.iter();
    for answer in answers {
        let Some((sign, serial)) = next_call(&mut calls) else {
            return Ok(false);
        };
        if answered(watch, sign, reference(serial as u64))? != *answer {
            return Ok(false);
        }
    }
    Ok(next_call(&mut calls).is_none())
}

/// Whether the monitors that are held, and the active aliases, are those of these serials.
fn has(watch: &Watch, held: &[u8], aliases: &[u8]) -> bool {
    for serial in 0u64..10 {
        let reference = reference(serial);
        let is_held = watch.target(reference).is_some();
        let is_alias = watch.alias_mode(reference).is_some();
        if is_held != held.contains(&digit(serial))
            || is_alias != aliases.contains(&digit(serial))
        {
            return false;
        }
    }
    true
}

/// Whether the monitors that are borne have these serials, in their order, among all and by their places.
fn are_borne(watch: &Watch, all: &[(Ref, Pid)], serials: &[u8]) -> bool {
    for (place, serial) in serials.iter().enumerate() {
        let Some(monitor) = watch.borne(place) else {
            return false;
        };
        if digit(monitor.0.serial) != *serial || all.get(place) != Some(&monitor) {
            return false;
        }
    }
    all.len() == serials.len() && watch.borne(serials.len()).is_none()
}

/// The same, where all are copied out first.
fn bears(alloc: Global, watch: &Watch, serials: &[u8]) -> Result<bool, AllocError> {
    let all = watch.all_borne(alloc)?;
    Ok(are_borne(watch, all.as_slice(), serials))
}

/// Calls and signals, their answers, and the serials of the monitors held, of those borne, and of
/// the active aliases after them.
struct Rule(
    &'static [u8],
    &'static [u8],
    &'static [u8],
    &'static [u8],
    &'static [u8],
);

impl Rule {
    /// Whether the calls and signals are answered so, and these monitors and aliases are left.
    fn goes(&self, alloc: Global, watch: &mut Watch) -> Result<bool, AllocError> {
        let Rule(calls, answers, held, borne, aliases) = self;
        let are_so = are_answered(watch, calls, answers)?;
        let are_left = bears(alloc, watch, borne)?;
        Ok(are_so & are_left & has(watch, held, aliases))
    }
}

impl Row for Rule {
    /// Whether the rule goes so from no monitor and no alias on.
    fn holds(&self, alloc: Global) -> Result<bool, AllocError> {
        let mut watch = Watch::open(alloc, Pid(0));
        let answer = self.goes(alloc, &mut watch);
        drop(watch);
        answer
    }
}

const RULES: [Rule; 27] = [
    // `monitor` of another process, of oneself, and with the modes
    Rule(b"m1 m2", b"yy", b"12", b"", b""),
    Rule(b"o1 -1", b"nn", b"", b"", b""),
    Rule(b"e1 d2 r3", b"yyy", b"123", b"", b"123"),
    // `demonitor`: of a monitor that is held, of the same again, of none, and by the modes
    Rule(b"m1 -1 -1 -2", b"y1nn", b"", b"", b""),
    Rule(b"e1 d2 r3 -1 -2 -3", b"yyy111", b"", b"", b"1"),
    Rule(b"a1 A2 -1 -2", b"..nn", b"", b"", b"12"),
    // `unalias`: of each mode, and again; monitors stay
    Rule(b"e1 d2 r3 u1 u2 u3", b"yyyyyy", b"123", b"", b""),
    Rule(b"a1 A2 u1 u2 u1 u3", b"..yynn", b"", b"", b""),
    // a message through an alias: twice for each mode, and after `unalias`
    Rule(b"a1 >1 >1", b".kk", b"", b"", b"1"),
    Rule(b"A1 >1 >1", b".kn", b"", b"", b""),
    Rule(b"e1 >1 >1", b"ykk", b"1", b"", b"1"),
    Rule(b"d1 >1 >1", b"ykk", b"1", b"", b"1"),
    Rule(b"r1 >1 >1", b"y1n", b"", b"", b""),
    Rule(b"a1 u1 >1", b".yn", b"", b"", b""),
    // a down: of a monitor that is held, again, after `demonitor`, after the reply, by the modes
    Rule(b"m1 !1 !1", b"yyn", b"", b"", b""),
    Rule(b"m1 -1 !1", b"y1n", b"", b"", b""),
    Rule(b"r1 >1 !1", b"y1n", b"", b"", b""),
    Rule(b"e1 d2 r3 !1 !2 !3", b"yyyyyy", b"", b"", b"1"),
    Rule(b"r1 !1 >1 -1", b"yynn", b"", b"", b""),
    // monitors that are borne: in their order, one that came twice, and after removals
    Rule(b"+3 +1 +2", b"...", b"", b"312", b""),
    Rule(b"+1 +2 +1 x1 x1", b"...yn", b"", b"2", b""),
    Rule(b"+4 +3 +2 +1 x3 +5", b"....y.", b"", b"4215", b""),
    Rule(b"+1 +2 +3 x1 +1 x2 x3", b"...y.yy", b"", b"1", b""),
    Rule(b"m1 +1 x1 -1", b"y.y1", b"", b"", b""),
    // monitors that are borne are told by their places, after a demonitor too, and are taken out
    Rule(b"*1 *2 *3 *4 *5", b".....", b"", b"12345", b""),
    Rule(b"*1 *2 *3 *4 *5 x2", b".....y", b"", b"1345", b""),
    Rule(b"*1 *2 *3 *4 *5 x2 00", b".....y.", b"", b"", b""),
];

#[test]
fn rules_hold_line_by_line(rt: HostRuntime) {
    each_row_holds(&rt, rt.alloc(), &RULES);
}
