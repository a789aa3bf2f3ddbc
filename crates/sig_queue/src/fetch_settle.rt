//! The end of a fetch: all that was found is taken, or all is left as it was.
ghost use Rattle.std.specs.Prelude.{◌≡◌, ℕ, ◌+◌, ◌-◌, ◌<◌, ◌≤◌, ◌++◌, [], length, true, false, Some, IfSome};
ghost use Rattle.sig_layout.specs.declared.outer.Outer.{Outer};
ghost use Rattle.sig_layout.specs.declared.knows.Knows.{Knows};
ghost use Rattle.sig_layout.specs.Views.{filled_at};
ghost use Rattle.sig_layout.specs.Outers.{emptied};
ghost use Rattle.sig_layout.specs.Summaries.{due_at, is_remove};
ghost use Rattle.sig_queue.specs.Calls.{bare, Finished, Settled};
ghost use Rattle.sig_queue.specs.Fetching.{Standing, Emptying, Leaving, all_of};
ghost use Rattle.sig_queue.specs.SeatWords.{IsOf, IsBufferOf, IsSameSeat, key_of};

use crate::fetch_find::{Caught, bring_front, next_bit};
use crate::outer_box::OuterBox;
use crate::rule::SeatAt;
use crate::words::Words;
use crate::words::buffer_steps::{leave_buffer, leave_part, put_list, take_list};
use crate::words::steps::{leave_fetch, leave_same, put_value, set_back};
use sig_kinds::Signals;
use sig_layout::{BUFFERS, Due, Policy};
use std::marker::Brand;

// Moves the list of the buffer that was taken first, and leaves its turn. `left` signals lie there
// and in the buffers that are held besides. It tells how many lie in those.
fn empty_one(
    words: &Words,
    place: &mut SeatAt,
    held: u64,
    buffer: usize,
    count: usize,
    left: usize,
    into: &mut Signals,
) -> usize
    requires table { IsBufferOf place.old words.now buffer }
    requires standing { Standing held buffer place.old.me count × (filled_at held buffer ≡ true) }
    requires emptying { (u : Knows) × Emptying u place.old.me }
    requires fetching { place.old.me.0.fetching ≡ true }
    requires left { left ≡ length (all_of place.old.me.0.parts) }
    requires room { left ≤ into.old.spare }
    ensures same { IsSameSeat place.new place.old }
    ensures standing { Standing held (buffer + 1) place.new.me (count - 1) }
    ensures emptying { (u : Knows) → Emptying u place.old.me → Emptying u place.new.me }
    ensures fetching { place.new.me.0.fetching ≡ true }
    ensures moved { into.new.items ++ all_of place.new.me.0.parts ≡ into.old.items ++ all_of place.old.me.0.parts }
    ensures left { result ≡ length (all_of place.new.me.0.parts) }
    ensures room { result ≤ into.new.spare }
{
    bring_front(place, count);
    let mut list = take_list(words, place, buffer);
    let behind = left - list.len();
    list.pour_with_room(into, behind);
    put_list(words, place, buffer, list);
    leave_part(words, place, buffer);
    behind
}

// Moves all lists by ascending number, and leaves their turns. `total` signals lie there.
fn empty_all(
    words: &Words,
    place: &mut SeatAt,
    held: u64,
    count: usize,
    total: usize,
    into: &mut Signals,
)
    requires table { IsOf place.old words.now }
    requires standing { Standing held 0 place.old.me count }
    requires emptying { Emptying place.old.me.0 place.old.me }
    requires fetching { place.old.me.0.fetching ≡ true }
    requires total { total ≡ length (all_of place.old.me.0.parts) }
    requires room { total ≤ into.old.spare }
    ensures same { IsSameSeat place.new place.old }
    ensures standing { (n : ℕ) × Standing held BUFFERS place.new.me n }
    ensures emptying { Emptying place.old.me.0 place.new.me }
    ensures moved { into.new.items ++ all_of place.new.me.0.parts ≡ into.old.items ++ all_of place.old.me.0.parts }
{
    let mut buffers = count;
    let mut left = total;
    let mut buffer = next_bit(held, 0);
    while buffer < BUFFERS {
        left = empty_one(words, place, held, buffer, buffers, left, into);
        buffers -= 1;
        buffer = next_bit(held, buffer + 1);
    }
}

// Leaves the buffer that was taken first as it was found, and sets its bit again.
fn leave_one(words: &Words, place: &mut SeatAt, held: u64, buffer: usize, count: usize)
    requires table { IsBufferOf place.old words.now buffer }
    requires standing { Standing held buffer place.old.me count × (filled_at held buffer ≡ true) }
    requires fetching { ((o : Outer) × (place.old.me.0.held ≡ Some o)) × (place.old.me.0.fetching ≡ true) }
    ensures same { IsSameSeat place.new place.old }
    ensures standing { Standing held (buffer + 1) place.new.me (count - 1) }
    ensures leaving { (u : Knows) → Leaving u place.old.me → Leaving u place.new.me }
{
    bring_front(place, count);
    leave_buffer(words, place, buffer);
    set_back::<Brand>(words, place, buffer);
}

// Leaves all buffers as they were found, and sets their bits again.
fn leave_all(words: &Words, place: &mut SeatAt, held: u64, count: usize)
    requires table { IsOf place.old words.now }
    requires standing { Standing held 0 place.old.me count }
    requires fetching { ((o : Outer) × (place.old.me.0.held ≡ Some o)) × (place.old.me.0.fetching ≡ true) }
    ensures same { IsSameSeat place.new place.old }
    ensures standing { (n : ℕ) × Standing held BUFFERS place.new.me n }
    ensures leaving { Leaving place.old.me.0 place.new.me }
{
    let mut left = count;
    let mut buffer = next_bit(held, 0);
    while buffer < BUFFERS {
        leave_one(words, place, held, buffer, left);
        left -= 1;
        buffer = next_bit(held, buffer + 1);
    }
}

/// What a fetch took.
#[derive(Drop)]
pub(crate) struct Taken {
    /// How many signals it took.
    pub(crate) count: u64,
    /// Whether a removal is due now.
    pub(crate) due: bool,
}

fn is_removal_due(outer: &OuterBox, policy: Policy) -> bool
    ensures { result ≡ is_remove (due_at policy outer.now.journal) }
{
    match outer.due(policy) {
        Due::Remove => true,
        Due::Install | Due::Nothing => false,
    }
}

// The outer list came into `into`, which has room for the lists of the buffers, `total` signals. They come
// behind it, and the outer turn is left.
fn finish(
    words: &Words,
    place: &mut SeatAt,
    found: &Caught,
    total: usize,
    outer: OuterBox,
    count: u64,
    into: &mut Signals,
    policy: Policy,
) -> Taken
    requires table { IsOf place.old words.now }
    requires policy { (key_of words.now).policy ≡ policy }
    requires standing { Standing found.now.held 0 place.old.me found.now.count }
    requires total { total ≡ length (all_of place.old.me.0.parts) }
    requires held { (o : Outer) × (place.old.me.0.held ≡ Some o) × (outer ≡ emptied o (length (all_of place.old.me.0.parts))) }
    requires fetching { (place.old.me.0.fetching ≡ true) × (place.old.me.0.removing ≡ false)
        × (place.old.me.0.switched ≡ false) × (place.old.me.0.moved ≡ 0) }
    requires role { (place.old.me.0.role ≡ true) × (place.old.me.0.due ≡ false) }
    requires room { total ≤ into.old.spare }
    ensures same { IsSameSeat place.new place.old }
    ensures bare { place.new.me.1 ≡ [] }
    ensures moved { into.new.items ≡ into.old.items ++ all_of place.old.me.0.parts }
    ensures count { result.count ≡ count }
    ensures finished { Finished (key_of words.now) place.old.me.0 result place.new.me.0 }
{
    empty_all(words, place, found.held, found.count, total, into);
    let due = is_removal_due(&outer, policy);
    put_value(words, place, outer);
    leave_fetch::<Brand>(words, place, due);
    Taken { count, due }
}

// All is left as it was found.
fn give_up(words: &Words, place: &mut SeatAt, held: u64, parts: usize, outer: OuterBox)
    requires table { IsOf place.old words.now }
    requires standing { Standing held 0 place.old.me parts }
    requires held { place.old.me.0.held ≡ Some outer }
    requires fetching { (place.old.me.0.fetching ≡ true) × (place.old.me.0.removing ≡ false) × (place.old.me.0.switched ≡ false) }
    ensures same { IsSameSeat place.new place.old }
    ensures bare { place.new.me.1 ≡ [] }
    ensures left { place.new.me.0 ≡ bare place.old.me.0 }
{
    leave_all(words, place, held, parts);
    put_value(words, place, outer);
    leave_same(words, place);
}

// All that was found is taken, or all is left where there is no room.
pub(crate) fn settle(
    words: &Words,
    place: &mut SeatAt,
    found: &Caught,
    mut outer: OuterBox,
    into: &mut Signals,
    policy: Policy,
) -> Option<Taken>
    requires table { IsOf place.old words.now }
    requires policy { (key_of words.now).policy ≡ policy }
    requires standing { Standing found.now.held 0 place.old.me found.now.count }
    requires total { IfSome found.now.total (λ t. t ≡ length (all_of place.old.me.0.parts)) }
    requires held { place.old.me.0.held ≡ Some outer }
    requires fetching { (place.old.me.0.fetching ≡ true) × (place.old.me.0.removing ≡ false)
        × (place.old.me.0.switched ≡ false) × (place.old.me.0.moved ≡ 0) }
    requires role { (place.old.me.0.role ≡ true) × (place.old.me.0.due ≡ false) }
    ensures same { IsSameSeat place.new place.old }
    ensures bare { place.new.me.1 ≡ [] }
    ensures settled { Settled (key_of words.now) into.old.items into.new.items place.old.me.0 result place.new.me.0 }
{
    let Some(total) = found.total else {
        give_up(words, place, found.held, found.count, outer);
        return None;
    };
    // Room for all comes before the first list is emptied, so that for want of memory all is as it was
    // found. The outer list comes before the buffers, since what a sender put there is older:
    // `buffers_before_the_outer_list`.
    let Ok(count) = outer.fetch(into, total as u64, total) else {
        give_up(words, place, found.held, found.count, outer);
        return None;
    };
    let taken = finish(
        words,
        place,
        found,
        total,
        outer,
        count as u64,
        into,
        policy,
    );
    Some(taken)
}
