//! The law that holds the two programs together: what `sigrun` wrote, `sigtool check` says yes to.
//!
//! Nothing here runs. The function is a theorem: its contract is what was proved, and its body is empty.
#![tactic(auto)]

mod law;

pub use law::check_says_yes_to_what_run_wrote;
