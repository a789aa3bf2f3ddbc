//! The links of a process.
#![tactic(auto)]

mod links;
mod tables;

pub use links::Links;
