//! What the tests of several crates share: calls of a program in memory, streams that fail at chosen calls,
//! what a program is started with, the tool, and scripts with their records.
#![tactic(auto)]

mod called;
mod calls;
mod exit;
mod failing;
mod program;
mod runs;
mod setting;
mod started;
mod tool;

pub use called::{Called, Ending, streams_of};
pub use calls::{ONE_CALL, ONE_CALL_SCRIPT};
pub use exit::Exit;
pub use failing::{Work, first_other};
pub use program::Program;
pub use runs::{CLIENTS, ONE_MESSAGE, ONE_MESSAGE_RECORD, WRONG_RECORD};
pub use setting::{PLAIN, Setting, texts_of};
pub use started::{Input, Output, Started};
pub use tool::{CHECK, Tool, YES, is_checked};
