//! Calls: a request of which at most one of the replies through its alias and the message of the end
//! of the process that was asked enters the caller's list. A text in which calls stand as lines is
//! expanded to a script.
#![tactic(auto)]

mod call_law;
mod call_line;
mod expanded;
mod expanding;
mod fault;
mod line_law;

pub use call_law::a_call_is_answered_once;
pub use expanding::expand;
pub use fault::{CallError, CallFault};
pub use line_law::the_lines_of_an_expanded_text;
