ghost use Rattle.std.specs.Prelude.{◌≡◌, ◌+◌, ◌≤◌, ◌<◌, ◌++◌, [], true, length, take, if◌then◌else◌, IfOk, MatchOption};
ghost use Rattle.sig_layout.specs.Sent.{sender, of};
ghost use Rattle.sig_layout.specs.Sets.{has};
ghost use Rattle.sig_layout.specs.Openings.{IsSetup, first_of};
ghost use Rattle.sig_queue.specs.Ends.{setup_of};
ghost use Rattle.example_relay.specs.Relays.{messages, Sends, Receives, Sender};

use crate::offering::put_message;
use sig_kinds::{QueueData, Signals};
use sig_layout::{Opening, Policy, Senders};
use sig_queue::{Closed, Fetch, QSeat, SigQueue};
use sig_terms::Pid;
use std::alloc::{AllocError, Global};
use std::sync::Wait;
use std::thread;
use std::thread::Threads;

/// Who sends to whom, and with which number first.
#[derive(Clone, Copy)]
pub struct Line {
    /// The sender.
    pub from: Pid,
    /// The receiver.
    pub to: Pid,
    /// The number of the first message.
    pub first: u64,
}

/// What came of a relay.
#[derive(Drop)]
pub struct Relayed {
    /// How many messages were sent.
    pub sent: usize,
    /// What was fetched.
    pub taken: Signals,
    /// What is left.
    pub closed: Closed,
}

// Offers the message for the serial at `next`, and tells whether it was put, or `None` where memory
// is wanting.
fn send_next(
    queue: &SigQueue,
    seat: &mut QSeat,
    line: Line,
    serials: &[u64],
    next: usize,
) -> Option<bool>
    requires own { seat.old.queue ≡ queue.now.id }
    requires sender { Sender queue.now.setup line }
    requires sends { Sends queue.now.setup line.from (take next serials.now) seat.old.knows }
    requires next { next < length serials.now }
    ensures own { seat.new.queue ≡ queue.now.id }
    ensures sends { MatchOption result
        (Sends queue.now.setup line.from (take next serials.now) seat.new.knows)
        (λ put. Sends queue.now.setup line.from (if put then take (next + 1) serials.now else take next serials.now) seat.new.knows) }
{
    let number = line.first.checked_add(next as u64)?;
    put_message(queue, seat, line, number, serials[next])
}

// Puts a message for each serial, or as many as memory allows. It tells how many.
fn send(queue: &SigQueue, mut seat: QSeat, line: Line, serials: &[u64]) -> (QSeat, usize)
    requires own { seat.queue ≡ queue.now.id }
    requires sender { Sender queue.now.setup line }
    requires sends { Sends queue.now.setup line.from [] seat.knows }
    ensures own { result.0.queue ≡ queue.now.id }
    ensures sends { Sends queue.now.setup line.from (take result.1 serials.now) result.0.knows }
    ensures count { result.1 ≤ length serials.now }
{
    let mut next = 0;
    for _ in 0..u64::MAX {
        if next >= serials.len() {
            break;
        }
        match send_next(queue, &mut seat, line, serials, next) {
            Some(true) => next += 1,
            Some(false) => thread::yield_now(),
            None => break,
        }
    }
    (seat, next)
}

// One fetch, or a removal where one is due. It tells whether there was memory.
fn take_some<R: Wait>(rt: &R, queue: &SigQueue, seat: &mut QSeat, into: &mut Signals) -> bool
    requires own { seat.old.queue ≡ queue.now.id }
    requires receives { Receives into.old.items seat.old.knows }
    ensures own { seat.new.queue ≡ queue.now.id }
    ensures receives { Receives into.new.items seat.new.knows }
{
    if SigQueue::removal_due(seat) {
        return queue.remove(rt, seat).is_ok();
    }
    match queue.try_fetch(seat, into) {
        Fetch::Took { .. } | Fetch::Busy { .. } => true,
        Fetch::Memory => false,
    }
}

/// Fetches until there are so many signals, or memory is wanting.
///
/// Asks that the seat is of this queue and has the receiver's role, that nothing was put for its
/// senders, and that `into` holds what it has taken so far.
pub fn receive<R: Wait>(
    rt: &R,
    queue: &SigQueue,
    mut seat: QSeat,
    mut into: Signals,
    enough: usize,
) -> (QSeat, Signals)
    requires own { seat.queue ≡ queue.now.id }
    requires receives { Receives into.items seat.knows }
    ensures own { result.0.queue ≡ queue.now.id }
    ensures receives { Receives result.1.items result.0.knows }
{
    for _ in rt.forever() {
        if into.len() >= enough {
            break;
        }
        if !take_some(rt, queue, &mut seat, &mut into) {
            break;
        }
        thread::yield_now();
    }
    (seat, into)
}

// One thread sends while another fetches.
fn send_and_receive<R: Threads + Wait + Sync>(
    rt: &R,
    queue: &SigQueue,
    sender: QSeat,
    receiver: QSeat,
    line: Line,
    serials: &[u64],
    taken: Signals,
    enough: usize,
) -> ((QSeat, usize), (QSeat, Signals))
    requires own { (sender.queue ≡ queue.now.id) × (receiver.queue ≡ queue.now.id) }
    requires sender { Sender queue.now.setup line }
    requires sends { Sends queue.now.setup line.from [] sender.knows }
    requires receives { Receives taken.items receiver.knows }
    ensures own { (result.0.0.queue ≡ queue.now.id) × (result.1.0.queue ≡ queue.now.id) }
    ensures sends { Sends queue.now.setup line.from (take result.0.1 serials.now) result.0.0.knows }
    ensures receives { Receives result.1.1.items result.1.0.knows }
{
    thread::join(
        rt,
        move || -> (QSeat, usize)
            requires { (sender.queue ≡ queue.now.id) × Sender queue.now.setup line × Sends queue.now.setup line.from [] sender.knows }
            ensures { (result.0.queue ≡ queue.entry.now.id)
                × Sends queue.entry.now.setup line.from (take result.1 serials.entry.now) result.0.knows }
        { send(queue, sender, line, serials) },
        move || -> (QSeat, Signals)
            requires { (receiver.queue ≡ queue.now.id) × Receives taken.items receiver.knows }
            ensures { (result.0.queue ≡ queue.entry.now.id) × Receives result.1.items result.0.knows }
        { receive(rt, queue, receiver, taken, enough) },
    )
}

/// One thread sends a message for each serial while another fetches, until it has enough. What was
/// fetched, and then what is left, is what was sent, in order. The error is want of memory.
///
/// Asks of the policy, the senders and the opening what [`SigQueue::open`] asks, that `from` is one
/// of the senders, and that the receiver is below the opening's count.
pub fn relay<R: Threads + Wait + Sync>(
    rt: &R,
    alloc: Global,
    policy: Policy,
    senders: Senders,
    opening: &Opening,
    from: Pid,
    serials: &[u64],
    enough: usize,
) -> Result<Relayed, AllocError>
    requires setup { IsSetup (setup_of policy QueueData.OffHeap senders opening.now) }
    requires sender { has senders from.0 ≡ true }
    requires receiver { opening.now.receiver.0 < opening.now.count }
    ensures { IfOk result (λ r. of sender from.0 (r.taken.items ++ r.closed.rest) ≡ messages from opening.now.receiver
        (first_of (setup_of policy QueueData.OffHeap senders opening.now) from.0) (take r.sent serials.now)) }
{
    let (queue, mut seat) = SigQueue::open(alloc, policy, QueueData::OffHeap, senders, opening)?;
    let first = opening.first_of(from);
    let line = Line {
        from,
        to: opening.receiver,
        first,
    };
    let sender = queue.split(&mut seat, senders, false);
    let taken = Signals::new(alloc);
    let ((sender, sent), (mut seat, taken)) = send_and_receive(
        rt, &queue, sender, seat, line, serials, taken, enough,
    );
    queue.join(&mut seat, sender);
    let closed = queue.close(seat);
    Ok(Relayed {
        sent,
        taken,
        closed,
    })
}
