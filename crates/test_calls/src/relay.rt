//! Threads over a shared queue: small runs whose outcome is known beforehand.
ghost use Rattle.std.specs.Prelude.{◌≡◌, ◌<◌, ◌⊎◌, ℕ, true, IfOk};
ghost use Rattle.sig_layout.specs.Policies.{IsPolicy};
ghost use Rattle.sig_layout.specs.Sets.{has};
ghost use Rattle.test_calls.specs.Queues.{IsOfFour, IsFresh, HasAll};

use crate::held::hold_and_offer;
use crate::orders::{are, are_in_order, gather, has};
use crate::pids::{only, pair, trio};
use crate::putting::{note_and_receive, offered, put_three};
use crate::shared::{none_is_other, passes};
use crate::switching::switch;
use example_relay::{Line, Relayed, relay};
use sig_kinds::{QueueData, Signals};
use sig_layout::{Entry, Numbers, Opening, Policy, Senders, Via};
use sig_queue::{Fetch, QSeat, SigQueue};
use sig_terms::Pid;
use std::alloc::{AllocError, Global};
use std::sync::Wait;
use std::thread;
use std::thread::Threads;

// Four processes, the first of which receives, and each sender's numbers are from 1 on.
fn opening(alloc: Global) -> Opening
    ensures { IsOfFour result }
{
    Opening {
        receiver: Pid(0),
        count: 4,
        first: Numbers::ones(alloc, 4),
    }
}

// A queue for these processes, and its first seat.
fn opened(alloc: Global, policy: Policy, senders: Senders) -> Result<(SigQueue, QSeat), AllocError>
    requires policy { IsPolicy policy }
    requires senders { (s : ℕ) → has senders s ≡ true → s < 4 }
    ensures { IfOk result (λ r. IsFresh r.0 senders r.1) }
{
    let opening = opening(alloc);
    SigQueue::open(alloc, policy, QueueData::OffHeap, senders, &opening)
}

// The same where the receiver keeps its message queue on the heap, under `Always`.
fn opened_on_heap(alloc: Global, senders: Senders) -> Result<(SigQueue, QSeat), AllocError>
    requires { (s : ℕ) → has senders s ≡ true → s < 4 }
    ensures { IfOk result (λ r. IsFresh r.0 senders r.1) }
{
    let opening = opening(alloc);
    SigQueue::open(alloc, Policy::Always, QueueData::OnHeap, senders, &opening)
}

// One of five policies.
fn policy(number: u32) -> Policy
    ensures { IsPolicy result }
{
    match number {
        0 => Policy::Never,
        1 => Policy::Always,
        2 => Policy::Churn(1),
        3 => Policy::Churn(2),
        _ => Policy::Auto,
    }
}

// A line from this sender to the receiver of `opening`.
fn line(from: u32) -> Line
    ensures { (result.from.0 ≡ from) × (result.to.0 ≡ 0) × (result.first ≡ 1) }
{
    Line {
        from: Pid(from),
        to: Pid(0),
        first: 1,
    }
}

// The serials 0 to 99.
fn hundred_serials() -> [u64; 100] {
    let mut serials = [0; 100];
    for (place, serial) in serials.iter_mut().enumerate() {
        *serial = place as u64;
    }
    serials
}

// A hundred signals of the sender 3.
const HUNDRED: [u64; 4] = [0, 0, 0, 100];

// Whether a hundred were sent and fetched, in order.
fn has_hundred(relayed: Relayed) -> bool {
    let come = relayed.sent == 100 && are_in_order(&relayed.taken, HUNDRED);
    drop(relayed);
    come
}

// Whether one thread sends a hundred messages of the sender 3, and another fetches them in order.
fn two_threads<R: Threads + Wait + Sync>(
    rt: &R,
    alloc: Global,
    policy: Policy,
) -> Result<bool, AllocError>
    requires { IsPolicy policy }
{
    let opening = opening(alloc);
    let three = Pid(3);
    let serials = hundred_serials();
    let relayed = relay(
        rt,
        alloc,
        policy,
        only(three),
        &opening,
        three,
        &serials,
        100,
    );
    drop(opening);
    Ok(has_hundred(relayed?))
}

// A seat holds the outer turn while another offers and fetches: both are refused with its number.
fn refuses_while_held(alloc: Global, queue: SigQueue, mut seat: QSeat, senders: Senders) -> bool
    requires fresh { IsFresh queue senders seat }
    requires two { (has senders 1 ≡ true) × (has senders 2 ≡ true) }
{
    let holder = queue.split(&mut seat, only(Pid(2)), false);
    let mut into = Signals::new(alloc);
    let (holder, told) = hold_and_offer(&queue, &mut seat, holder, line(1), &mut into, 3);
    queue.join(&mut seat, holder);
    let closed = queue.close(seat);
    let put = has(&closed.journal, &[Entry::Direct { refused: true }]);
    drop(closed);
    drop(into);
    told & put
}

fn a_held_turn(alloc: Global) -> Result<bool, AllocError> {
    let senders = pair(Pid(1), Pid(2));
    let (queue, seat) = opened(alloc, Policy::Never, senders)?;
    Ok(refuses_while_held(alloc, queue, seat, senders))
}

#[test]
fn another_seat_holds_the_outer_turn(rt: HostRuntime) {
    passes(&rt, a_held_turn(rt.alloc()));
}

// Whether a signal is put into the outer list.
fn puts_outside(queue: SigQueue, mut seat: QSeat, senders: Senders) -> bool
    requires fresh { IsFresh queue senders seat }
    requires one { has senders 1 ≡ true }
{
    let (way, _) = offered(&queue, &mut seat, line(1), 1, 11);
    let closed = queue.close(seat);
    let put = has(&closed.journal, &[Entry::Direct { refused: false }]);
    drop(closed);
    put & (way == Some(Via::Outer))
}

fn a_put_on_the_heap(alloc: Global) -> Result<bool, AllocError> {
    let senders = only(Pid(1));
    let (queue, seat) = opened_on_heap(alloc, senders)?;
    Ok(puts_outside(queue, seat, senders))
}

#[test]
fn a_queue_on_the_heap_has_no_buffers(rt: HostRuntime) {
    passes(&rt, a_put_on_the_heap(rt.alloc()));
}

// The entries of one switch on, one fetch, one switch off and one on.
const SWITCHED: [Entry; 6] = [
    Entry::Direct { refused: false },
    Entry::Install,
    Entry::Fetch { moved: 2 },
    Entry::Remove,
    Entry::Direct { refused: false },
    Entry::Install,
];

// Buffers are installed by a put, emptied by a fetch, the outer list before them, and removed.
fn switches<R: Wait>(
    rt: &R,
    alloc: Global,
    queue: SigQueue,
    mut seat: QSeat,
    senders: Senders,
) -> bool
    requires fresh { IsFresh queue senders seat }
    requires two { (has senders 1 ≡ true) × (has senders 2 ≡ true) }
{
    let mut into = Signals::new(alloc);
    let done = switch(rt, &queue, &mut seat, line(1), line(2), &mut into);
    let fetched = are(&into, &[11, 13, 12]);
    let mut closed = queue.close(seat);
    gather(&mut closed.rest, &mut into);
    let left = are(&into, &[11, 13, 12, 14]) & has(&closed.journal, &SWITCHED);
    drop(closed);
    drop(into);
    done & fetched & left
}

fn a_switch<R: Wait>(rt: &R, alloc: Global) -> Result<bool, AllocError> {
    let senders = pair(Pid(1), Pid(2));
    let (queue, seat) = opened(alloc, Policy::Churn(1), senders)?;
    Ok(switches(rt, alloc, queue, seat, senders))
}

#[test]
fn one_seat_installs_and_removes(rt: HostRuntime) {
    passes(&rt, a_switch(&rt, rt.alloc()));
}

// Fetches until a fetch passes no buffer by. It tells whether one came so far.
fn fetch_all(queue: &SigQueue, seat: &mut QSeat, into: &mut Signals) -> bool
    requires own { seat.old.queue ≡ queue.now.id }
    requires role { seat.old.knows.role ≡ true }
{
    for _ in 0..u64::MAX {
        if SigQueue::removal_due(seat) {
            return false;
        }
        match queue.try_fetch(seat, into) {
            Fetch::Took { skipped: 0, .. } => return true,
            Fetch::Took { .. } | Fetch::Busy { .. } => thread::yield_now(),
            Fetch::Memory => return false,
        }
    }
    false
}

// One thread puts a hundred messages of the sender 3 into its buffer while this one fetches, and hands
// over a note. Once this one has learned it, a fetch that passes no buffer by has taken all of them.
fn learns<R: Threads + Wait + Sync>(
    rt: &R,
    alloc: Global,
    queue: SigQueue,
    mut seat: QSeat,
    senders: Senders,
) -> bool
    requires fresh { IsFresh queue senders seat }
    requires three { has senders 3 ≡ true }
{
    let sender = queue.split(&mut seat, senders, false);
    let taken = Signals::new(alloc);
    let ((note, aside), (mut seat, mut taken)) = note_and_receive(
        rt,
        &queue,
        sender,
        seat,
        line(3),
        100,
        taken,
        30,
    );
    queue.learn(&mut seat, note);
    let all = fetch_all(&queue, &mut seat, &mut taken);
    let come = are_in_order(&taken, HUNDRED);
    drop(seat);
    drop(taken);
    drop(queue);
    aside & all & come
}

fn a_note<R: Threads + Wait + Sync>(rt: &R, alloc: Global) -> Result<bool, AllocError> {
    let senders = only(Pid(3));
    let (queue, seat) = opened(alloc, Policy::Always, senders)?;
    Ok(learns(rt, alloc, queue, seat, senders))
}

#[test]
fn a_learned_note_is_taken(rt: HostRuntime) {
    passes(&rt, a_note(&rt, rt.alloc()));
}

// Three threads put twenty messages each, and a fourth fetches forty of them.
fn put_sixty<R: Threads + Wait + Sync>(
    rt: &R,
    alloc: Global,
    queue: &SigQueue,
    mut seat: QSeat,
    senders: Senders,
) -> (QSeat, Signals)
    requires fresh { IsFresh queue.now senders seat }
    requires three { (has senders 1 ≡ true) × (has senders 2 ≡ true) × (has senders 3 ≡ true) }
    requires alone { (s : ℕ) → has senders s ≡ true → (s ≡ 1) ⊎ ((s ≡ 2) ⊎ (s ≡ 3)) }
    ensures { HasAll queue.now result.0 }
{
    let first = queue.split(&mut seat, only(Pid(1)), false);
    let second = queue.split(&mut seat, only(Pid(2)), false);
    let third = queue.split(&mut seat, only(Pid(3)), false);
    let taken = Signals::new(alloc);
    let seats = (first, second, third);
    let lines = (line(1), line(2), line(3));
    let (((first, _), (second, _)), ((third, _), (mut seat, taken))) = put_three(
        rt, queue, seats, lines, seat, 20, taken, 40,
    );
    queue.join(&mut seat, first);
    queue.join(&mut seat, second);
    queue.join(&mut seat, third);
    (seat, taken)
}

// Those that come, and then those that are left, are twenty of each sender, in order.
fn sixty_come<R: Threads + Wait + Sync>(
    rt: &R,
    alloc: Global,
    queue: SigQueue,
    seat: QSeat,
    senders: Senders,
) -> bool
    requires fresh { IsFresh queue senders seat }
    requires three { (has senders 1 ≡ true) × (has senders 2 ≡ true) × (has senders 3 ≡ true) }
    requires alone { (s : ℕ) → has senders s ≡ true → (s ≡ 1) ⊎ ((s ≡ 2) ⊎ (s ≡ 3)) }
{
    let (seat, mut taken) = put_sixty(rt, alloc, &queue, seat, senders);
    let mut closed = queue.close(seat);
    gather(&mut closed.rest, &mut taken);
    let come = are_in_order(&taken, [0, 20, 20, 20]);
    drop(closed);
    drop(taken);
    come
}

fn four_threads<R: Threads + Wait + Sync>(
    rt: &R,
    alloc: Global,
    policy: Policy,
) -> Result<bool, AllocError>
    requires { IsPolicy policy }
{
    let senders = trio(Pid(1), Pid(2), Pid(3));
    let (queue, seat) = opened(alloc, policy, senders)?;
    Ok(sixty_come(rt, alloc, queue, seat, senders))
}

// The number of the first run that goes another way: two threads under each policy, and then four.
fn first_other_run<R: Threads + Wait + Sync>(
    rt: &R,
    alloc: Global,
) -> Result<Option<usize>, AllocError> {
    for number in 0..10 {
        let goes = if number < 5 {
            two_threads(rt, alloc, policy(number))?
        } else {
            four_threads(rt, alloc, policy(number - 5))?
        };
        if !goes {
            return Ok(Some(number as usize));
        }
    }
    Ok(None)
}

#[test]
fn two_and_four_threads_under_each_policy(rt: HostRuntime) {
    none_is_other(&rt, first_other_run(&rt, rt.alloc()));
}
