//! Workers, which run the processes of a crew.
#![tactic(auto)]

mod arriving;
mod bells;
mod closing;
mod columns;
mod cutting;
mod fetching;
mod first;
mod joining;
mod one_worker;
mod opening;
mod part;
mod putting;
mod rounds;
mod shared;
mod side_by_side;
mod stepping;
mod visiting;
mod working;

pub use one_worker::run_one;
pub use rounds::{round, run_rounds};
