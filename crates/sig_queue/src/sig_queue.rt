use crate::words::Words;
use sig_layout::{Batch, Policy};
use std::alloc::Global;
use std::marker::Model;

/// One queue, which threads share. Contracts see which queue it is, and what it was opened with.
///
/// One thread puts a signal, and another fetches what there is. docs/QUEUE.md has a whole example,
/// with its threads.
///
/// ```text
/// let (queue, mut receiver) = SigQueue::open(alloc, Policy::Auto, QueueData::OffHeap, senders, &opening)?;
/// let mut sender = queue.split(&mut receiver, senders, false);
///
/// // one thread
/// match queue.offer(&mut sender, signal) {
///     Offer::Put { .. } => {}
///     // another seat held a turn, or memory is wanting: the signal is back
///     Offer::Busy { signal, .. } | Offer::Memory { signal } => later.push(signal),
/// }
///
/// // the other
/// let mut taken = Signals::new(alloc);
/// if SigQueue::removal_due(&receiver) {
///     queue.remove(rt, &mut receiver)?;
/// }
/// let fetch = queue.try_fetch(&mut receiver, &mut taken);
///
/// // at the end, one seat has all senders and the role again
/// queue.join(&mut receiver, sender);
/// let closed = queue.close(receiver);
/// ```
#[derive(Drop)]
pub struct SigQueue {
    /// The words, and the lists in slots.
    pub(crate) words: Words,
    /// When buffers are installed and removed: the policy by which the queue goes.
    pub(crate) policy: Policy,
    /// Where a removal gets the memory for new lists.
    pub(crate) alloc: Global,
    /// Room for the lists that `close` hands out, so that it wants no memory.
    pub(crate) lists: Vec<Batch>,
}

impl Model for SigQueue {
    ghost use Rattle.std.specs.Prelude.{◌≡◌, ◌≤◌, [], vec_capacity};
    ghost use Rattle.sig_layout.specs.declared.layout.TheConstants.{BUFFERS, SLOTS, WORDS};
    ghost use Rattle.sig_queue.specs.SeatWords.{key_of, table_of};
    ghost use Rattle.sig_queue.specs.Seats.{Queue};

    ghost Value = { Queue };

    ghost view = { λ q. record {
      id = table_of q.words;
      setup = key_of q.words;
    } };

    ghost invariant = { λ q. (q.lists.items ≡ []) × (BUFFERS ≤ vec_capacity q.lists)
        × ((table_of q.words).words ≡ WORDS) × ((table_of q.words).slots ≡ SLOTS)
        × ((key_of q.words).policy ≡ q.policy) };
}
