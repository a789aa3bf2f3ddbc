//! The reader of scripts: what each line says, and the script that a text spells.
#![tactic(auto)]

mod draft;
mod form;
mod guards;
mod guess;
mod keyword;
mod reader;
mod same_names;

pub use guards::MOST_TESTS;
pub use reader::{MOST_BYTES, ScriptError, read_header, read_script, the_limits_of_scripts};
