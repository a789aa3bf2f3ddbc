//! What the shared queue's table has in its words, slots and views, and the queue as a machine of
//! single steps. Nothing here runs in threads.
#![tactic(auto)]

mod batch;
mod decision;
mod entry;
mod growing;
mod held_buffer;
mod item;
mod journal;
mod knows;
mod laws;
mod layout;
mod numbers;
mod opening;
mod outer;
mod pieces;
mod policy;
mod run;
mod senders;
mod setup;
mod summary;
mod via;

pub use batch::Batch;
pub use decision::Due;
pub use entry::Entry;
pub use growing::Growing;
pub use held_buffer::HeldBuffer;
pub use item::Item;
pub use journal::{Journal, MOST_ENTRIES};
pub use knows::Knows;
pub use laws::{due_is_one, lawful_is_allowed, rule, the_limits_of_queues};
pub use layout::{APART, BUFFERS, FILLED, FIRST_TURN, MODE, OUTER, SLOTS, WORDS};
pub use numbers::Numbers;
pub use opening::Opening;
pub use outer::Outer;
pub use pieces::Pieces;
pub use policy::{AUTO_FEW, AUTO_RUN, AUTO_SCORE, Policy, due};
pub use senders::{PIDS, Senders};
pub use setup::Setup;
pub use via::Via;
