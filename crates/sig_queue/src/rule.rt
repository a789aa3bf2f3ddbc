use crate::slot::Slot;
use atomic_table::{Seat, Table, TableRule};
use sig_layout::{Knows, Setup};
use std::alloc::Global;

/// The rule of a queue's table: it shows a state of the core.
pub struct QueueRule;

impl TableRule<Slot, Knows, Setup> for QueueRule {
    ghost use Rattle.sig_queue.specs.Tied.{Tied};
    ghost use Rattle.sig_layout.specs.Views.{first_seat};

    ghost holds = { Tied };

    ghost first = { λ z. first_seat z.senders };
}

pub(crate) type SeatAt = Seat<Slot, Knows>;

pub(crate) type QueueTable = Table<Slot, Knows, Setup, QueueRule, Global>;
