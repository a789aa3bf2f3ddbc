//! What the processes of a script execute: instructions, labels, processes and scripts.
#![tactic(auto)]

mod instruction;
mod label;
mod process;
mod script;
mod version;

pub use instruction::{After, Instr, Instrs, Receiving, VERBS, Verb};
pub use label::{Label, Labels};
pub use process::{Proc, Procs};
pub use script::{
    DEFAULT_TURNS, MOST_PROCESSES, MOST_TURNS, Script, most_processes, the_limits_of_programs,
};
pub use version::Version;
