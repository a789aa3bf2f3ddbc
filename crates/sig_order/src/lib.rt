//! Which event of a record happened before which, and which are concurrent.
#![tactic(auto)]

mod at;
mod counts;
mod happened;
mod one_machine;
mod searching;
mod senders;
mod span;
mod traced;

pub use at::At;
pub use happened::Happened;
pub use one_machine::a_saved_place_changes_no_choice;
pub use span::{Span, each_process_has_one_span};
pub use traced::origins_of_a_run_are_traced;
