use crate::held_seat::HeldSeat;
use crate::qseat::QSeat;

/// What a try to hold the outer turn gives.
#[derive(Drop)]
pub enum Hold {
    /// The seat holds it.
    Held(HeldSeat),
    /// Another seat held it, and `found` is the number of that seat plus 1.
    Busy { seat: QSeat, found: u64 },
}
