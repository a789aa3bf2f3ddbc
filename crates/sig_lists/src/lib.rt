//! The lists that contracts name: a sequence, seen as the list of its items.
#![tactic(auto)]

mod copying;
mod pushed;
mod same;
mod sequence;

pub use copying::{Copied, copy_all};
pub use pushed::Pushed;
pub use same::{Same, same_items};
pub use sequence::Sequence;
