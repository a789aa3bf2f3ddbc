//! What an event sends, with its stamp and the next numbers.

ghost use Rattle.std.specs.Prelude.{ℕ, ◌≡◌, ◌+◌, ◌<◌, ◌≤◌, ◌^◌, ◌++◌, ◌∷◌, [], length, map, slice_index};
ghost use Rattle.sig_model.specs.Bounds.{posts_to};
ghost use Rattle.sig_model.specs.Finishing.{drawn, numbers_after, numbered};
ghost use Rattle.sig_model.specs.Running.{to_itself, to_others};
ghost use Rattle.sig_process.specs.Plans.{post_of, outgoing_of};

use crate::next_numbers::NextNumbers;
use crate::plan::{Outgoing, Posts};
use sig_kinds::{Signal, Signals};
use sig_terms::Pid;

/// A signal that the process sends: to itself, or to another.
fn put(pid: Pid, signal: Signal, own: &mut Signals, outbox: &mut Signals)
    requires own { 0 < own.old.spare }
    requires outbox { 0 < outbox.old.spare }
    ensures own { own.new.items ≡ own.old.items ++ to_itself pid.0 (signal ∷ []) }
    ensures outbox { outbox.new.items ≡ outbox.old.items ++ to_others pid.0 (signal ∷ []) }
    ensures own_spare { own.old.spare ≤ own.new.spare + 1 }
    ensures outbox_spare { outbox.old.spare ≤ outbox.new.spare + 1 }
{
    if signal.to.0 == pid.0 {
        own.add(signal);
    } else {
        outbox.add(signal);
    }
}

/// Sends one of the signals of an event, with the next number for its receiver.
fn send_one(
    pid: Pid,
    stamp: u64,
    post: Outgoing,
    numbers: &mut NextNumbers,
    own: &mut Signals,
    outbox: &mut Signals,
)
    requires number { slice_index numbers.old post.to.0 < 2 ^ 63 }
    requires own { 0 < own.old.spare }
    requires outbox { 0 < outbox.old.spare }
    ensures numbers { numbers.new ≡ drawn numbers.old post.to.0 }
    ensures own { own.new.items ≡ own.old.items ++ to_itself pid.0 (numbered pid.0 stamp numbers.old (post_of post ∷ [])) }
    ensures outbox { outbox.new.items ≡ outbox.old.items ++ to_others pid.0 (numbered pid.0 stamp numbers.old (post_of post ∷ [])) }
    ensures own_spare { own.old.spare ≤ own.new.spare + 1 }
    ensures outbox_spare { outbox.old.spare ≤ outbox.new.spare + 1 }
{
    let number = numbers.draw(post.to);
    let signal = Signal {
        from: pid,
        to: post.to,
        number,
        stamp,
        kind: post.kind,
    };
    put(pid, signal, own, outbox);
}

/// Sends these signals in their order, each with the next number for its receiver. Room was made for
/// them.
fn send_each(
    pid: Pid,
    stamp: u64,
    posts: Vec<Outgoing>,
    numbers: &mut NextNumbers,
    own: &mut Signals,
    outbox: &mut Signals,
)
    requires numbers { (peer : ℕ) → slice_index numbers.old peer + posts_to peer (map post_of posts.items) < 2 ^ 63 }
    requires own { length posts.items ≤ own.old.spare }
    requires outbox { length posts.items ≤ outbox.old.spare }
    ensures numbers { numbers.new ≡ numbers_after numbers.old (map post_of posts.items) }
    ensures own { own.new.items ≡ own.old.items ++ to_itself pid.0 (numbered pid.0 stamp numbers.old (map post_of posts.items)) }
    ensures outbox { outbox.new.items ≡ outbox.old.items
        ++ to_others pid.0 (numbered pid.0 stamp numbers.old (map post_of posts.items)) }
{
    for post in posts {
        send_one(pid, stamp, post, numbers, own, outbox);
    }
}

/// Sends what an event sends, in order, each signal with the next number for its receiver. Room was
/// made for them.
pub(crate) fn send_all(
    pid: Pid,
    stamp: u64,
    posts: Posts,
    numbers: &mut NextNumbers,
    own: &mut Signals,
    outbox: &mut Signals,
)
    requires numbers { (peer : ℕ) → slice_index numbers.old peer + posts_to peer (map post_of (outgoing_of posts)) < 2 ^ 63 }
    requires own { length (outgoing_of posts) ≤ own.old.spare }
    requires outbox { length (outgoing_of posts) ≤ outbox.old.spare }
    ensures numbers { numbers.new ≡ numbers_after numbers.old (map post_of (outgoing_of posts)) }
    ensures own { own.new.items ≡ own.old.items
        ++ to_itself pid.0 (numbered pid.0 stamp numbers.old (map post_of (outgoing_of posts))) }
    ensures outbox { outbox.new.items ≡ outbox.old.items
        ++ to_others pid.0 (numbered pid.0 stamp numbers.old (map post_of (outgoing_of posts))) }
{
    match posts {
        Posts::Nothing => {}
        Posts::One(post) => send_one(pid, stamp, post, numbers, own, outbox),
        Posts::Many(posts) => send_each(pid, stamp, posts, numbers, own, outbox),
    }
}
