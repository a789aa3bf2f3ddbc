//! The top call of the viewer: from the arguments and the bytes of a script with a record behind it to a
//! chart of the record, or to the events that are concurrent with one of them; or of a script alone to
//! the outcomes in which its runs may end.
#![tactic(auto)]

mod charting;
mod command;
mod concurrency;
mod due;
mod laws;
mod ordering;
mod outcome_text;
mod progress;
mod reading;
mod searching;
mod standard;
mod status;
mod telling;
mod text;
mod top;

pub use command::Command;
pub use due::one_status_is_due;
pub use laws::{
    a_list_is_told_by_its_text, a_whole_list_is_told_by_the_script,
    queued_signals_of_a_run_are_drawn,
};
pub use progress::Progress;
pub use standard::program;
pub use status::ViewStatus;
pub use top::view;
