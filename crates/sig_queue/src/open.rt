//! How a queue begins.
ghost use Rattle.std.specs.Prelude.{◌≡◌, ◌≤◌, ◌+◌, ◌++◌, [], ◌∷◌, IfOk, vec_len, vec_capacity};
ghost use Rattle.sig_layout.specs.Policies.{begins_on, first_journal as first_entries};
ghost use Rattle.sig_layout.specs.Openings.{IsSetup};
ghost use Rattle.sig_layout.specs.Views.{first_seat, mode_word};
ghost use Rattle.sig_queue.specs.Tables.{first_words as words_at_first, first_outer, all_buffers};
ghost use Rattle.sig_queue.specs.SeatWords.{key_of, table_of};
ghost use Rattle.sig_queue.specs.Ends.{setup_of};

use crate::kept::Kept;
use crate::outer_box::OuterBox;
use crate::qseat::QSeat;
use crate::rule::SeatAt;
use crate::sig_queue::SigQueue;
use crate::slot::Slot;
use crate::words::Words;
use sig_kinds::QueueData;
use sig_layout::{
    BUFFERS, Batch, Entry, Journal, MODE, Opening, Outer, Pieces, Policy, SLOTS, Senders, Setup,
    WORDS,
};
use sig_lists::Pushed;
use std::alloc::{AllocError, Global};

// The word of the mode.
fn first_mode(policy: Policy) -> u64
    ensures { result ≡ mode_word (begins_on policy) }
{
    match policy {
        Policy::Always => 1,
        Policy::Never | Policy::Churn(_) | Policy::Auto => 0,
    }
}

fn first_words(policy: Policy) -> [u64; WORDS]
    ensures { result ≡ words_at_first policy }
{
    let mut words = [0u64; WORDS];
    words[MODE] = first_mode(policy);
    words
}

fn first_journal(alloc: Global, policy: Policy) -> Result<Journal, AllocError>
    ensures { IfOk result (λ j. j ≡ first_entries policy) }
{
    let mut journal = Journal::new(alloc);
    if let Policy::Always = policy {
        if let Pushed::Memory { .. } = journal.push(Entry::Install) {
            return Err(AllocError);
        }
    }
    Ok(journal)
}

fn first_box(alloc: Global, policy: Policy) -> Result<OuterBox, AllocError>
    ensures { IfOk result (λ b. b ≡ first_outer policy) }
{
    let journal = first_journal(alloc, policy)?;
    let outer = Outer {
        signals: Pieces::new(alloc),
        journal,
    };
    OuterBox::new(alloc, outer)
}

// Empty buffers come behind what is there. There is room for them.
fn add_buffers(alloc: Global, slots: &mut Vec<Slot>)
    requires { vec_len slots.old + BUFFERS ≤ vec_capacity slots.old }
    ensures { slots.new.items ≡ slots.old.items ++ all_buffers }
{
    for _ in 0..BUFFERS {
        slots.push_reserved(Slot::List(Batch::new(alloc)));
    }
}

fn first_slots(alloc: Global, policy: Policy) -> Result<Vec<Slot>, AllocError>
    ensures { IfOk result (λ v. v.items ≡ Slot.Outer (first_outer policy) ∷ all_buffers) }
{
    let outer = first_box(alloc, policy)?;
    let mut slots = Vec::new(alloc);
    slots.reserve(SLOTS)?;
    slots.push_reserved(Slot::Outer(outer));
    add_buffers(alloc, &mut slots);
    Ok(slots)
}

// Room for the lists of all buffers.
fn room_for_lists(alloc: Global) -> Result<Vec<Batch>, AllocError>
    ensures { IfOk result (λ v. (v.items ≡ []) × (BUFFERS ≤ vec_capacity v)) }
{
    let mut lists = Vec::new(alloc);
    lists.reserve(BUFFERS)?;
    Ok(lists)
}

fn setup_with(
    alloc: Global,
    policy: Policy,
    queue_data: QueueData,
    senders: Senders,
    opening: &Opening,
) -> Result<Setup, AllocError>
    ensures { IfOk result (λ z. z ≡ setup_of policy queue_data senders opening.now) }
{
    Ok(Setup {
        policy: policy.ruled(queue_data),
        given: policy,
        queue_data,
        senders,
        opening: opening.copy(alloc)?,
    })
}

// The table, and the seat that has all senders and the role.
fn first_table(alloc: Global, setup: &Setup) -> Result<(Words, SeatAt), AllocError>
    requires { IsSetup setup.now }
    ensures table { IfOk result (λ r. ((table_of r.0).words ≡ WORDS) × ((table_of r.0).slots ≡ SLOTS) × (key_of r.0 ≡ setup.now)) }
    ensures seat { IfOk result (λ r. (r.1.table_id ≡ table_of r.0) × (r.1.me ≡ (first_seat setup.now.senders, []))) }
{
    let slots = first_slots(alloc, setup.policy)?;
    let words = first_words(setup.policy);
    let made = Words::new(alloc, &words, slots, setup)?;
    Ok(made)
}

impl SigQueue {
    /// An empty queue, and the seat that has all senders and the receiver's role. Where the receiver
    /// keeps its message queue on the heap, the queue goes by `Never`, whatever policy is given. The
    /// error is want of memory.
    ///
    /// Asks that the opening has one first number for each pid below its count, and no more, that
    /// each of them is at least 1 and below 2^63, that each sender is below that count, and that
    /// the number of `Churn` is at least 1, where the message queue is kept outside the heap.
    pub fn open(
        alloc: Global,
        policy: Policy,
        queue_data: QueueData,
        senders: Senders,
        opening: &Opening,
    ) -> Result<(SigQueue, QSeat), AllocError>
        requires { IsSetup (setup_of policy queue_data senders opening.now) }
        ensures own { IfOk result (λ r. (r.1.queue ≡ r.0.id) × (r.0.setup ≡ setup_of policy queue_data senders opening.now)) }
        ensures first { IfOk result (λ r. r.1.knows ≡ first_seat senders) }
    {
        let lists = room_for_lists(alloc)?;
        let setup = setup_with(alloc, policy, queue_data, senders, opening)?;
        let (words, place) = first_table(alloc, &setup)?;
        let queue = SigQueue {
            words,
            policy: setup.policy,
            alloc,
            lists,
        };
        let kept = Kept {
            senders,
            number: senders.least(),
            role: true,
            due: false,
            refused: false,
        };
        let seat = QSeat { place, kept };
        Ok((queue, seat))
    }
}
