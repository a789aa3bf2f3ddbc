//! Seats are split and joined, and notes go from seat to seat. Nothing is put or taken.
ghost use Rattle.std.specs.Prelude.{◌≡◌, ℕ, ◌++◌, true};
ghost use Rattle.sig_layout.specs.Sets.{has};
ghost use Rattle.sig_layout.specs.Views.{left_of, right_of, note_of, joined};

use crate::kept::Kept;
use crate::note::Note;
use crate::qseat::QSeat;
use crate::sig_queue::SigQueue;
use crate::words::seat_steps::{cut, merge, merge_note, tell};
use sig_layout::Senders;
use std::marker::Brand;

impl SigQueue {
    /// Gives away some of the seat's senders, and maybe its role. What was put for them goes along,
    /// and with the role what was taken, the fetches and a removal that is due. Both seats have what
    /// was told.
    ///
    /// Asks that the seat is of this queue and has all of these senders, and the receiver's role
    /// where that is to be given away.
    pub fn split(&self, seat: &mut QSeat, senders: Senders, receiver: bool) -> QSeat
        requires own { seat.old.queue ≡ self.now.id }
        requires some { (s : ℕ) → has senders s ≡ true → has seat.old.knows.senders s ≡ true }
        requires role { receiver ≡ true → seat.old.knows.role ≡ true }
        ensures own { (seat.new.queue ≡ seat.old.queue) × (result.queue ≡ seat.old.queue) }
        ensures left { seat.new.knows ≡ left_of seat.old.knows senders receiver }
        ensures right { result.knows ≡ right_of seat.old.knows senders receiver }
    {
        let place = cut::<Brand>(&self.words, &mut seat.place, senders, receiver);
        let given = Kept {
            senders,
            number: senders.least(),
            role: receiver,
            due: seat.kept.due && receiver,
            refused: false,
        };
        seat.kept.senders = seat.kept.senders.minus(senders);
        seat.kept.number = seat.kept.senders.least();
        seat.kept.role = seat.kept.role && !receiver;
        seat.kept.due = seat.kept.due && !receiver;
        QSeat { place, kept: given }
    }

    /// Gives all that the other seat has to this one.
    ///
    /// Asks that both seats are of this queue.
    pub fn join(&self, seat: &mut QSeat, other: QSeat)
        requires own { (seat.old.queue ≡ self.now.id) × (other.queue ≡ self.now.id) }
        ensures own { seat.new.queue ≡ seat.old.queue }
        ensures both { seat.new.knows ≡ joined seat.old.knows other.knows }
    {
        let QSeat { place, kept } = other;
        merge(&self.words, &mut seat.place, place);
        seat.kept.senders = seat.kept.senders.plus(kept.senders);
        seat.kept.number = seat.kept.senders.least();
        seat.kept.role = seat.kept.role || kept.role;
        seat.kept.due = seat.kept.due || kept.due;
        seat.kept.refused = seat.kept.refused || kept.refused;
    }

    /// Tells what this seat knows to have been put.
    ///
    /// Asks that the seat is of this queue.
    pub fn note(&self, seat: &mut QSeat) -> Note
        requires own { seat.old.queue ≡ self.now.id }
        ensures own { (seat.new.queue ≡ seat.old.queue) × (result.queue ≡ seat.old.queue) }
        ensures same { seat.new.knows ≡ seat.old.knows }
        ensures note { result.knows ≡ note_of seat.old.knows }
    {
        let place = tell(&self.words, &mut seat.place);
        Note { place }
    }

    /// Adds what the note tells to what this seat was told.
    ///
    /// Asks that the seat and the note are of this queue.
    pub fn learn(&self, seat: &mut QSeat, note: Note)
        requires own { (seat.old.queue ≡ self.now.id) × (note.queue ≡ self.now.id) }
        ensures own { seat.new.queue ≡ seat.old.queue }
        ensures told { seat.new.knows ≡ record seat.old.knows { told = seat.old.knows.told ++ note.knows.told } }
    {
        let Note { place } = note;
        merge_note(&self.words, &mut seat.place, place);
        seat.kept.senders = seat.kept.senders.plus(Senders::none());
        seat.kept.number = seat.kept.senders.least();
    }
}
