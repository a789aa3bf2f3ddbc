//! One process that runs: it executes its instructions and handles the signals that come to it.
#![tactic(auto)]

mod changing;
mod committing;
mod comparing;
mod copying;
mod crew;
mod ending;
mod executing;
mod handling;
mod history;
mod idle;
mod keeping;
mod looking;
mod next_numbers;
mod parts;
mod peers;
mod plan;
mod planning;
mod portrait;
mod posting;
mod process;
mod progress;
mod queues;
mod reacting;
mod receiving;
mod telling;
mod values;
mod waiting;

pub use crew::Crew;
pub use executing::Exec;
pub use parts::Parts;
pub use portrait::Portrait;
pub use process::Process;
