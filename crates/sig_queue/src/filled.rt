ghost use Rattle.std.specs.Prelude.{◌≡◌};
ghost use Rattle.sig_layout.specs.Views.{counted};

use crate::qseat::QSeat;
use crate::sig_queue::SigQueue;
use crate::words::steps::load_filled;

impl SigQueue {
    /// What one load of the word of bits gives.
    ///
    /// Asks that the seat is of this queue.
    pub fn filled(&self, seat: &mut QSeat) -> u64
        requires own { seat.old.queue ≡ self.now.id }
        ensures own { seat.new.queue ≡ seat.old.queue }
        ensures counted { seat.new.knows ≡ counted seat.old.knows result }
    {
        load_filled(&self.words, &mut seat.place)
    }
}
