//! One function for each kind of step that makes a seat or takes one in.
ghost use Rattle.std.specs.Prelude.{◌≡◌, ℕ, [], true};
ghost use Rattle.sig_layout.specs.Sets.{has};
ghost use Rattle.sig_layout.specs.Core.{Idle};
ghost use Rattle.sig_layout.specs.Views.{left_of, right_of, note_of, joined};
ghost use Rattle.sig_queue.specs.SeatWords.{IsOf, IsSameSeat, table_of};

use super::Words;
use crate::plays::{Cut, LookOnly, Merge, Share, Tell};
use crate::rule::SeatAt;
use sig_layout::{OUTER, Senders};

// Splits a seat in two. The last two arguments are for the proof, which picks `G` by them.
pub(crate) fn cut<G: Share>(words: &Words, place: &mut SeatAt, given: Senders, role: bool) -> SeatAt
    requires table { IsOf place.old words.now }
    requires idle { Idle place.old.me.0 × (place.old.me.1 ≡ []) }
    requires picked { (G.given ≡ given) × (G.role ≡ role) }
    requires share { ((s : ℕ) → has G.given s ≡ true → has place.old.me.0.senders s ≡ true)
        × (G.role ≡ true → place.old.me.0.role ≡ true) }
    ensures same { IsSameSeat place.new place.old }
    ensures kept { place.new.me ≡ (left_of place.old.me.0 G.given G.role, []) }
    ensures given { (result.table_id ≡ place.old.table_id) × (result.me ≡ (right_of place.old.me.0 G.given G.role, [])) }
{
    words.table.shared.split_seat::<Cut<G>>(place)
}

pub(crate) fn tell(words: &Words, place: &mut SeatAt) -> SeatAt
    requires table { IsOf place.old words.now }
    ensures same { IsSameSeat place.new place.old }
    ensures still { place.new.me ≡ place.old.me }
    ensures note { (result.table_id ≡ place.old.table_id) × (result.me ≡ (note_of place.old.me.0, [])) }
{
    words.table.shared.split_seat::<Tell>(place)
}

pub(crate) fn merge(words: &Words, place: &mut SeatAt, other: SeatAt)
    requires table { IsOf place.old words.now × (other.table_id ≡ table_of words.now) }
    requires idle { Idle place.old.me.0 × (place.old.me.1 ≡ []) × Idle other.me.0 × (other.me.1 ≡ []) }
    ensures same { IsSameSeat place.new place.old }
    ensures both { place.new.me ≡ (joined place.old.me.0 other.me.0, []) }
{
    words.table.shared.join_seat::<Merge>(place, other);
}

// A load of OUTER that tells nothing. What it finds isn't given out.
fn look_only(words: &Words, place: &mut SeatAt)
    requires table { IsOf place.old words.now }
    ensures same { IsSameSeat place.new place.old }
    ensures still { place.new.me ≡ place.old.me }
{
    words.table.shared.load::<LookOnly>(place, OUTER);
}

// Takes a note in, and looks at OUTER.
pub(crate) fn merge_note(words: &Words, place: &mut SeatAt, note: SeatAt)
    requires table { IsOf place.old words.now × (note.table_id ≡ table_of words.now) }
    requires idle { Idle place.old.me.0 × (place.old.me.1 ≡ []) × Idle note.me.0 × (note.me.1 ≡ []) }
    ensures same { IsSameSeat place.new place.old }
    ensures both { place.new.me ≡ (joined place.old.me.0 note.me.0, []) }
{
    merge(words, place, note);
    look_only(words, place);
}
