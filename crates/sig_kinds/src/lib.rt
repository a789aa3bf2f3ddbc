//! Signals between processes, and the lists in which they wait. In `specs/` also the rules of
//! links, of monitors and of aliases, by which the tables of other crates go.
#![tactic(auto)]

mod alias_answer;
mod alias_mode;
mod queue_data;
mod signal;
mod signals;

pub use alias_answer::AliasAnswer;
pub use alias_mode::AliasMode;
pub use queue_data::QueueData;
pub use signal::{Kind, Signal};
pub use signals::{Push, Signals};
