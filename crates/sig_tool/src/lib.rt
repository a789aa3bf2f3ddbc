//! The top call of the tool: from the arguments and the bytes of a script with a record behind it, or
//! of a text of calls, to what the command says of them.
#![tactic(auto)]

mod checking;
mod command;
mod due;
mod expanding;
mod given;
mod input;
mod joining;
mod linking;
mod numbers;
mod ordering;
mod origins;
mod piping;
mod replaying;
mod splitting;
mod standard;
mod status;
mod telling;
mod top;

pub use command::Command;
pub use due::one_status_is_due;
pub use given::{Given, MOST_INPUT, read_checked, the_limits_of_inputs};
pub use joining::a_record_is_cut_from_its_script;
pub use numbers::{event_named, number_in};
pub use origins::origins_of;
pub use piping::an_expanded_script_is_read_back;
pub use standard::program;
pub use status::ToolStatus;
pub use top::tool;
