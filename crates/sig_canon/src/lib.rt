//! The canonical text of scripts, which is read back as the same script; and the generated script.
#![tactic(auto)]

mod expression_text;
mod generating;
mod guard_text;
mod instruction_text;
mod laws;
mod pattern_text;
mod printing;
mod putting;

pub use generating::{MOST_CALLS, generate};
pub use laws::{
    a_printed_script_is_read_back, names_of_scripts_are_name_tokens,
    the_limits_of_generated_scripts,
};
pub use printing::print_script;
