//! Seats that put messages, and threads of one or three of them while another fetches.
ghost use Rattle.std.specs.Prelude.{◌≡◌, ◌+◌, length, true, if◌then◌else◌, IfSome};
ghost use Rattle.sig_layout.specs.Sets.{has};
ghost use Rattle.sig_layout.specs.Sent.{putter, of};
ghost use Rattle.example_relay.specs.Relays.{Sender, Receives, message as said};
ghost use Rattle.test_calls.specs.Queues.{Puts, Keeps, SameHand, via_by, is_put, put_after};

use crate::orders::is_message;
use example_relay::{Line, offer_message, receive};
use sig_kinds::Signals;
use sig_layout::Via;
use sig_queue::{Note, Offer, QSeat, SigQueue};
use sig_terms::Pid;
use std::sync::Wait;
use std::thread;
use std::thread::Threads;

// The way by which the signal was put.
fn way_of(offer: &Offer) -> Option<Via>
    ensures { result ≡ via_by offer.now }
{
    match offer {
        Offer::Put { via } => Some(*via),
        _other => None,
    }
}

// The turn of the seat that held it, where one did and the message came back as it was offered.
fn found_by(offer: &Offer, line: Line, number: u64, serial: u64) -> Option<u64> {
    match offer {
        Offer::Busy { signal, found } => {
            let is_back = is_message(signal, line.from, line.to, number, serial);
            is_back.then_some(*found)
        }
        _other => None,
    }
}

/// Offers the message with this number. It tells by which way it was put, and which seat held the turn
/// where the message came back.
pub(crate) fn offered(
    queue: &SigQueue,
    seat: &mut QSeat,
    line: Line,
    number: u64,
    serial: u64,
) -> (Option<Via>, Option<u64>)
    requires own { seat.old.queue ≡ queue.now.id }
    requires sender { Sender queue.now.setup line }
    requires can { has seat.old.knows.senders line.from.0 ≡ true }
    requires next { number ≡ line.first + length (of putter line.from.0 seat.old.knows.put) }
    ensures own { seat.new.queue ≡ seat.old.queue }
    ensures hand { SameHand seat.old.knows seat.new.knows }
    ensures put { seat.new.knows.put ≡ put_after seat.old.knows.put (said line.from line.to number serial) result.0 }
{
    let offer = offer_message(queue, seat, line, number, serial);
    let told = (way_of(&offer), found_by(&offer, line, number, serial));
    drop(offer);
    told
}

// Whether the way is the buffer of this sender, where there is one.
fn is_aside(way: Option<Via>, from: Pid) -> bool {
    match way {
        Some(Via::Outer) => false,
        Some(Via::Buffer(buffer)) => buffer as u32 == from.0 % 64,
        None => true,
    }
}

// Whether an offer was put, or `None` where no seat held the turn and it wasn't.
fn was_put(way: Option<Via>, found: Option<u64>) -> Option<bool>
    ensures { IfSome result (λ put. put ≡ is_put way) }
{
    match way {
        Some(_) => Some(true),
        None if found.is_some() => Some(false),
        None => None,
    }
}

// Offers the message after the first `next`, and tells whether it was put, or `None` where memory is
// wanting. `aside` stays only where it was not put outside of the sender's buffer.
fn put_next(
    queue: &SigQueue,
    seat: &mut QSeat,
    line: Line,
    next: u64,
    aside: &mut bool,
) -> Option<bool>
    requires own { seat.old.queue ≡ queue.now.id }
    requires sender { Sender queue.now.setup line }
    requires can { has seat.old.knows.senders line.from.0 ≡ true }
    requires count { next ≡ length (of putter line.from.0 seat.old.knows.put) }
    ensures keeps { Keeps queue.now seat.old.knows.senders seat.new }
    ensures count { IfSome result (λ put. length (of putter line.from.0 seat.new.knows.put) ≡ next + (if put then 1 else 0)) }
{
    let number = line.first.checked_add(next)?;
    let (way, found) = offered(queue, seat, line, number, next);
    *aside &= is_aside(way, line.from);
    was_put(way, found)
}

// Puts so many messages with the serials from 0 on, or as many as memory allows. It tells whether
// all were put, and each in the sender's buffer.
fn put_each(queue: &SigQueue, mut seat: QSeat, line: Line, count: u64) -> (QSeat, bool)
    requires puts { Puts queue.now line seat }
    ensures keeps { Keeps queue.now seat.knows.senders result.0 }
{
    let mut next = 0;
    let mut aside = true;
    for _ in 0..u64::MAX {
        if next >= count {
            break;
        }
        match put_next(queue, &mut seat, line, next, &mut aside) {
            Some(true) => next += 1,
            Some(false) => thread::yield_now(),
            None => break,
        }
    }
    (seat, aside & (next == count))
}

// Two threads put so many messages each.
fn put_two<R: Threads>(
    rt: &R,
    queue: &SigQueue,
    first: QSeat,
    second: QSeat,
    one: Line,
    two: Line,
    count: u64,
) -> ((QSeat, bool), (QSeat, bool))
    requires first { Puts queue.now one first }
    requires second { Puts queue.now two second }
    ensures first { Keeps queue.now first.knows.senders result.0.0 }
    ensures second { Keeps queue.now second.knows.senders result.1.0 }
{
    thread::join(
        rt,
        move || -> (QSeat, bool)
            requires { Puts queue.now one first }
            ensures { Keeps queue.entry.now first.knows.senders result.0 }
        { put_each(queue, first, one, count) },
        move || -> (QSeat, bool)
            requires { Puts queue.now two second }
            ensures { Keeps queue.entry.now second.knows.senders result.0 }
        { put_each(queue, second, two, count) },
    )
}

// One thread puts so many messages while another fetches, until it has enough.
fn put_and_receive<R: Threads + Wait + Sync>(
    rt: &R,
    queue: &SigQueue,
    sender: QSeat,
    receiver: QSeat,
    line: Line,
    count: u64,
    taken: Signals,
    enough: usize,
) -> ((QSeat, bool), (QSeat, Signals))
    requires puts { Puts queue.now line sender }
    requires own { receiver.queue ≡ queue.now.id }
    requires receives { Receives taken.items receiver.knows }
    ensures keeps { Keeps queue.now sender.knows.senders result.0.0 }
    ensures own { result.1.0.queue ≡ queue.now.id }
    ensures receives { Receives result.1.1.items result.1.0.knows }
{
    thread::join(
        rt,
        move || -> (QSeat, bool)
            requires { Puts queue.now line sender }
            ensures { Keeps queue.entry.now sender.knows.senders result.0 }
        { put_each(queue, sender, line, count) },
        move || -> (QSeat, Signals)
            requires { (receiver.queue ≡ queue.now.id) × Receives taken.items receiver.knows }
            ensures { (result.0.queue ≡ queue.entry.now.id) × Receives result.1.items result.0.knows }
        { receive(rt, queue, receiver, taken, enough) },
    )
}

// Puts so many messages, and makes a note of them. It tells whether all were put, and each in the
// sender's buffer.
fn put_and_note(queue: &SigQueue, seat: QSeat, line: Line, count: u64) -> (Note, bool)
    requires puts { Puts queue.now line seat }
    ensures note { result.0.queue ≡ queue.now.id }
{
    let (mut seat, aside) = put_each(queue, seat, line, count);
    let note = queue.note(&mut seat);
    drop(seat);
    (note, aside)
}

// One thread puts so many messages and hands over a note of them, while another fetches, until it has
// enough.
pub(crate) fn note_and_receive<R: Threads + Wait + Sync>(
    rt: &R,
    queue: &SigQueue,
    sender: QSeat,
    receiver: QSeat,
    line: Line,
    count: u64,
    taken: Signals,
    enough: usize,
) -> ((Note, bool), (QSeat, Signals))
    requires puts { Puts queue.now line sender }
    requires own { receiver.queue ≡ queue.now.id }
    requires receives { Receives taken.items receiver.knows }
    ensures note { result.0.0.queue ≡ queue.now.id }
    ensures own { result.1.0.queue ≡ queue.now.id }
    ensures receives { Receives result.1.1.items result.1.0.knows }
{
    thread::join(
        rt,
        move || -> (Note, bool)
            requires { Puts queue.now line sender }
            ensures { result.0.queue ≡ queue.entry.now.id }
        { put_and_note(queue, sender, line, count) },
        move || -> (QSeat, Signals)
            requires { (receiver.queue ≡ queue.now.id) × Receives taken.items receiver.knows }
            ensures { (result.0.queue ≡ queue.entry.now.id) × Receives result.1.items result.0.knows }
        { receive(rt, queue, receiver, taken, enough) },
    )
}

// Three threads put so many messages each while a fourth fetches, until it has enough.
pub(crate) fn put_three<R: Threads + Wait + Sync>(
    rt: &R,
    queue: &SigQueue,
    seats: (QSeat, QSeat, QSeat),
    lines: (Line, Line, Line),
    receiver: QSeat,
    count: u64,
    taken: Signals,
    enough: usize,
) -> (
    ((QSeat, bool), (QSeat, bool)),
    ((QSeat, bool), (QSeat, Signals)),
)
    requires first { Puts queue.now lines.0 seats.0 }
    requires second { Puts queue.now lines.1 seats.1 }
    requires third { Puts queue.now lines.2 seats.2 }
    requires own { receiver.queue ≡ queue.now.id }
    requires receives { Receives taken.items receiver.knows }
    ensures first { Keeps queue.now seats.0.knows.senders result.0.0.0 }
    ensures second { Keeps queue.now seats.1.knows.senders result.0.1.0 }
    ensures third { Keeps queue.now seats.2.knows.senders result.1.0.0 }
    ensures own { result.1.1.0.queue ≡ queue.now.id }
    ensures receives { Receives result.1.1.1.items result.1.1.0.knows }
{
    let (first, second, third) = seats;
    let (one, two, three) = lines;
    thread::join(
        rt,
        move || -> ((QSeat, bool), (QSeat, bool))
            requires { Puts queue.now one first × Puts queue.now two second }
            ensures { Keeps queue.entry.now first.knows.senders result.0.0 × Keeps queue.entry.now second.knows.senders result.1.0 }
        { put_two(rt, queue, first, second, one, two, count) },
        move || -> ((QSeat, bool), (QSeat, Signals))
            requires { Puts queue.now three third × (receiver.queue ≡ queue.now.id) × Receives taken.items receiver.knows }
            ensures { Keeps queue.entry.now third.knows.senders result.0.0
                × (result.1.0.queue ≡ queue.entry.now.id) × Receives result.1.1.items result.1.0.knows }
        { put_and_receive(rt, queue, third, receiver, three, count, taken, enough) },
    )
}
