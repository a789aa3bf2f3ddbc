//! Plays of two processes step by step, with their signals on the way as long as the play says; the
//! processes of a crew; and a message that comes too late.
//!
//! A move is written as a sign: `a` and `b` execute the next instruction of process 0 and of process
//! 1, `A` and `B` handle the next signal there, `>` delivers what 0 has sent, and `<` what 1 has
//! sent. The letter of each outcome stands in `letter`.

ghost use Rattle.std.specs.Prelude.{◌≡◌, ◌<◌, ℕ, [], length, All, IfSome, OnOk, slice_get};
ghost use Rattle.sig_kinds.specs.Counting.{IsCounting};
ghost use Rattle.sig_model.specs.Accounts.{coming_from};
ghost use Rattle.sig_model.specs.Keeping.{IsArriving};
ghost use Rattle.sig_model.specs.Running.{opened as beginning};
ghost use Rattle.test_calls.specs.Plays.{SameCome};

use crate::orders::is_message;
use crate::shared::{Row, each_row_holds};
use sig_base::Steps;
use sig_kinds::{Kind, Push, Signal, Signals};
use sig_lists::same_items;
use sig_model::{Did, Event, Outcome};
use sig_process::{Crew, Exec, Process};
use sig_program::Script;
use sig_script::{ScriptError, read_script};
use sig_terms::{Pid, Ref, Term};
use std::alloc::{AllocError, Global};
use std::marker::Brand;
use std::sync::ledger::{Blank, Ledger};

/// Lines of a script of two processes, the moves, the outcomes of both, and the next number for
/// process 1 of a signal of process 0.
struct Play {
    lines: &'static [u8],
    moves: &'static [u8],
    first: &'static [u8],
    second: &'static [u8],
    number: u64,
}

const PLAYS: [Play; 11] = [
    // A link signal is dropped while an id is awaited.
    Play {
        lines: b"process a\nlink @b\nunlink @b\nprocess b\nunlink @a\nlink @a\n",
        moves: b"a>Babb<AA>BB<A",
        first: b"ddu-k",
        second: b"ldduk",
        number: 4,
    },
    // An acknowledgement of another id is dropped.
    Play {
        lines: b"process a\nlink @b\nunlink @b\nlink @b\nunlink @b\nprocess b\n",
        moves: b"aaaa>BBBB<AA",
        first: b"dddd-k",
        second: b"lulu",
        number: 5,
    },
    // An unlink of an inactive link is acknowledged.
    Play {
        lines: b"process a\nlink @b\nunlink @b\nprocess b\nunlink @a\n",
        moves: b"a>Bab><AB<>AB",
        first: b"dduk",
        second: b"lduk",
        number: 4,
    },
    // An exit of an inactive link is dropped.
    Play {
        lines: b"process a\nlink @b\nunlink @b\nstop\nprocess b\nexit boom\n",
        moves: b"a>Bab<Aa",
        first: b"dd-e",
        second: b"le",
        number: 3,
    },
    // An exit of an active link is obeyed, and the peer that told it isn't told.
    Play {
        lines: b"process a\nlink @b\nstop\nprocess b\nexit boom\n",
        moves: b"a>Bb<A",
        first: b"de",
        second: b"le",
        number: 2,
    },
    // A link to a process that has ended comes back.
    Play {
        lines: b"process a\nlink @b\nunlink @b\nprocess b\n",
        moves: b"baa>BB<A",
        first: b"dd-",
        second: b"en-",
        number: 3,
    },
    // A message through an alias counts by the moment at which it is handled: here it comes before
    // the alias ends.
    Play {
        lines: b"process a\nalias A\nsend @b A\nunalias A\nunalias A\n\
          process b\nreceive\non X\nend\nsend X early\n",
        moves: b"aa>Bbb<Aaa",
        first: b"=smyx",
        second: b"mts",
        number: 2,
    },
    // A monitor that has ended on both sides, and a down that is on its way then.
    Play {
        lines: b"process a\nmonitor M @b\ndemonitor M\ndemonitor M flush\nprocess b\n",
        moves: b"a>Bba<A>Ba",
        first: b"=d-x",
        second: b"we-",
        number: 3,
    },
    // Signals to a process are numbered.
    Play {
        lines: b"process a\nlink @b\nsend @b hi\nprocess b\n",
        moves: b"",
        first: b"",
        second: b"",
        number: 1,
    },
    Play {
        lines: b"process a\nlink @b\nsend @b hi\nprocess b\n",
        moves: b"a",
        first: b"d",
        second: b"",
        number: 2,
    },
    Play {
        lines: b"process a\nlink @b\nsend @b hi\nprocess b\n",
        moves: b"aa",
        first: b"ds",
        second: b"",
        number: 3,
    },
];

/// The letter of the outcome of an event.
fn letter(event: &Event) -> u8 {
    match &event.outcome {
        Outcome::Sent { to: _, message: _ } => b's',
        Outcome::Set { value: _ } => b'=',
        Outcome::Done => b'd',
        Outcome::Answered { yes: true } => b'y',
        Outcome::Answered { yes: false } => b'x',
        Outcome::Took {
            clause: _,
            looked: _,
            message: _,
        } => b't',
        Outcome::After { looked: _ } => b'a',
        Outcome::Ended { reason: _ } => b'e',
        Outcome::Kept { message: _ } => b'm',
        Outcome::Dropped => b'-',
        Outcome::Linked => b'l',
        Outcome::Unlinked => b'u',
        Outcome::Acked => b'k',
        Outcome::Watched => b'w',
        Outcome::Unwatched => b'v',
        Outcome::NoProc => b'n',
    }
}

/// Whether these are the outcomes of the process's events.
fn tells(process: &Process, letters: &[u8]) -> bool {
    let events = process.events().as_slice();
    if events.len() != letters.len() {
        return false;
    }
    for (event, expected) in events.iter().zip(letters.iter()) {
        if letter(event) != *expected {
            return false;
        }
    }
    true
}

/// Executes the next instruction. False where none can be executed, and where it waits.
pub(crate) fn execute<L: Ledger>(
    process: &mut Process,
    steps: &mut Steps<L>,
) -> Result<bool, AllocError>
    ensures { OnOk result (SameCome process.old.running process.new.running) }
{
    if !process.can_exec() {
        return Ok(false);
    }
    let answer = process.exec(steps)?;
    Ok(answer == Exec::Stepped)
}

/// Handles the next signal. False where none can be handled.
fn handle(process: &mut Process) -> Result<bool, AllocError> {
    if !process.can_handle() {
        return Ok(false);
    }
    process.handle()?;
    Ok(true)
}

/// Delivers the signal of one among so many processes. False where it is for another.
fn arrives(process: &mut Process, count: u32, signal: Signal) -> Result<bool, AllocError>
    requires { IsArriving signal.to.0 count signal }
{
    if signal.to != process.pid() || count != process.count() {
        drop(signal);
        return Ok(false);
    }
    match process.arrive(signal) {
        Push::Added => Ok(true),
        Push::Memory { signal: _ } => Err(AllocError),
    }
}

/// Delivers what one has sent to the other. False where a signal is for a third, or a hundred are sent.
fn deliver(from: &mut Process, to: &mut Process) -> Result<bool, AllocError> {
    for _ in 0..100 {
        let Some(signal) = from.next_out() else {
            return Ok(true);
        };
        if !arrives(to, from.count(), signal)? {
            return Ok(false);
        }
    }
    Ok(false)
}

/// Makes the move of this sign. False where it can't be made.
fn moved<L: Ledger>(
    sign: u8,
    first: &mut Process,
    second: &mut Process,
    steps: &mut Steps<L>,
) -> Result<bool, AllocError> {
    match sign {
        b'a' => execute(first, steps),
        b'b' => execute(second, steps),
        b'A' => handle(first),
        b'B' => handle(second),
        b'>' => deliver(first, second),
        _ => deliver(second, first),
    }
}

/// Makes the moves one after another. False where one can't be made.
fn move_all<L: Ledger>(
    moves: &[u8],
    first: &mut Process,
    second: &mut Process,
    steps: &mut Steps<L>,
) -> Result<bool, AllocError> {
    for sign in moves {
        if !moved(*sign, first, second, steps)? {
            return Ok(false);
        }
    }
    Ok(true)
}

/// Whether each of the moves can be made, and both processes stand as the play says after them.
fn stands<L: Ledger>(
    first: &mut Process,
    second: &mut Process,
    steps: &mut Steps<L>,
    play: &Play,
) -> Result<bool, AllocError> {
    let made = move_all(play.moves, first, second, steps)?;
    let told = tells(first, play.first) & tells(second, play.second);
    let number = first.next_number(Pid(1));
    Ok(made & told & (first.count() == 2) & (number == play.number))
}

/// The script of these lines behind the header line.
fn script_of(alloc: Global, lines: &[u8]) -> Result<Script, ScriptError> {
    let mut text = Vec::from_slice(alloc, b"sigscript 1\n")?;
    text.extend_from_slice(lines)?;
    read_script(alloc, text.as_slice())
}

/// The processes of the script of these lines.
pub(crate) fn opened(alloc: Global, lines: &[u8]) -> Result<Crew, ScriptError> {
    let script = script_of(alloc, lines)?;
    let crew = Crew::open(alloc, &script);
    drop(script);
    Ok(crew?)
}

/// Whether there are two processes, and the first two stand as the play says after its moves.
fn stand<L: Ledger>(procs: &mut [Process], blank: Blank, play: &Play) -> Result<bool, AllocError>
    requires name { blank.name ≡ L.name }
    requires parts { blank.parts ≡ L.parts }
    requires some { 0 < blank.parts }
{
    let mut steps: Steps<L> = Steps::open(blank);
    let Some((first, rest)) = procs.split_first_mut() else {
        return Ok(false);
    };
    let Some(second) = rest.first_mut() else {
        return Ok(false);
    };
    stands(first, second, &mut steps, play)
}

/// Whether the crew has a second process and no third.
fn has_two(crew: &mut Crew) -> bool {
    let is_second = match crew.get_mut(Pid(1)) {
        Some(second) => second.pid() == Pid(1),
        None => false,
    };
    is_second && crew.get_mut(Pid(2)).is_none()
}

impl Play {
    /// Whether the crew of the script has its two processes, and the play goes so.
    fn goes(&self, alloc: Global) -> Result<bool, ScriptError> {
        let mut crew = opened(alloc, self.lines)?;
        let are_two = has_two(&mut crew);
        let went = stand::<Brand>(crew.procs.as_mut_slice(), Blank::new(1), self);
        drop(crew);
        Ok(went? && are_two)
    }
}

impl Row for Play {
    fn holds(&self, alloc: Global) -> Result<bool, AllocError> {
        Ok(self.goes(alloc) == Ok(true))
    }
}

#[test]
fn plays_go_by_the_rules(rt: HostRuntime) {
    each_row_holds(&rt, rt.alloc(), &PLAYS);
}

/// Process 0 ends its alias twice, and then waits.
const ALIAS_ENDS: &[u8] = b"process a\nalias A\nsend @b A\nunalias A\nunalias A\n\
  receive\non X\nend\n\
  process b\nreceive\non X\nend\nsend X late\n";

/// The alias.
const ALIAS: Ref = Ref {
    owner: Pid(0),
    serial: 1,
};

/// The events of process 0 where a message comes through the alias that ended before.
const LATE: [Event; 5] = [
    Event {
        stamp: 1,
        did: Did::Exec { place: 1 },
        outcome: Outcome::Set {
            value: Term::Ref(ALIAS),
        },
    },
    Event {
        stamp: 2,
        did: Did::Exec { place: 2 },
        outcome: Outcome::Sent {
            to: Term::Pid(Pid(1)),
            message: Term::Ref(ALIAS),
        },
    },
    Event {
        stamp: 3,
        did: Did::Exec { place: 3 },
        outcome: Outcome::Answered { yes: true },
    },
    Event {
        stamp: 6,
        did: Did::From {
            from: Pid(1),
            number: 1,
        },
        outcome: Outcome::Dropped,
    },
    Event {
        stamp: 7,
        did: Did::Exec { place: 4 },
        outcome: Outcome::Answered { yes: false },
    },
];

/// Adds the message through the alias to the empty list.
fn add_late(alloc: Global, signals: &mut Signals) -> Result<(), AllocError>
    requires { signals.old.items ≡ [] }
    ensures arriving { OnOk result ((count : ℕ) → 1 < count → All (IsArriving 0 count) signals.new.items) }
    ensures first { OnOk result ((s : ℕ) → IsCounting 1 (coming_from s signals.new.items)) }
{
    signals.room(1)?;
    let term = Term::plain_atom(alloc, b"late")?;
    signals.add(Signal {
        from: Pid(1),
        to: Pid(0),
        number: 1,
        stamp: 5,
        kind: Kind::AliasMessage {
            reference: ALIAS,
            term,
        },
    });
    Ok(())
}

/// Whether process 0, as the script opens it, ends its alias, drops what comes through it then, and
/// waits.
fn drops_late<L: Ledger>(
    process: &mut Process,
    script: &Script,
    signals: &mut Signals,
    steps: &mut Steps<L>,
) -> Result<bool, AllocError>
    requires many { 1 < length script.now.procs }
    requires opened { IfSome (slice_get script.now.procs 0) (λ d.
        process.old.running ≡ beginning 0 (length script.now.procs) script.now.turns d) }
    requires arriving { (count : ℕ) → 1 < count → All (IsArriving 0 count) signals.old.items }
    requires first { (s : ℕ) → IsCounting 1 (coming_from s signals.old.items) }
{
    let begun = execute(process, steps)? & execute(process, steps)? & execute(process, steps)?;
    let Some(sent) = process.next_out() else {
        return Ok(false);
    };
    let is_sent = is_message(&sent, Pid(0), Pid(1), 1, 1) & (sent.stamp == 2);
    drop(sent);
    process.take_in(signals)?;
    let is_one = process.taken_in_count() == 1;
    let goes_on = handle(process)? && execute(process, steps)?;
    let waits = process.can_exec() && process.exec(steps)? == Exec::Waiting;
    let told = same_items(process.events().as_slice(), &LATE);
    Ok(begun & is_sent & is_one & goes_on & waits & told)
}

/// The same of a process that is opened for it, and of a script with two processes.
fn late_is_dropped<L: Ledger>(
    alloc: Global,
    blank: Blank,
    script: &Script,
) -> Result<bool, AllocError>
    requires name { blank.name ≡ L.name }
    requires parts { blank.parts ≡ L.parts }
    requires some { 0 < blank.parts }
{
    if script.count() < 2 {
        return Ok(false);
    }
    let mut signals = Signals::new(alloc);
    add_late(alloc, &mut signals)?;
    let mut steps: Steps<L> = Steps::open(blank);
    let mut process = Process::open(alloc, script, Pid(0))?;
    let dropped = drops_late(&mut process, script, &mut signals, &mut steps);
    drop(process);
    drop(signals);
    dropped
}

/// The same of the script of `ALIAS_ENDS`.
fn late_goes(alloc: Global) -> Result<bool, ScriptError> {
    let script = script_of(alloc, ALIAS_ENDS)?;
    let dropped = late_is_dropped::<Brand>(alloc, Blank::new(1), &script);
    drop(script);
    Ok(dropped?)
}

#[test]
fn a_message_through_an_ended_alias_is_dropped(rt: HostRuntime) {
    assert!(rt; late_goes(rt.alloc()) == Ok(true));
}
