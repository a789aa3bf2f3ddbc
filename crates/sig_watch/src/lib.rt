//! The monitors and the aliases of a process.
#![tactic(auto)]

mod arrivals;
mod tables;
mod watch;

pub use sig_kinds::AliasAnswer;
pub use watch::Watch;
