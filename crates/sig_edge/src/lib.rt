//! The edge of a program that reads a script: its arguments, what was read and written, as contracts
//! see it, and what is told on the stream for errors when the program can't go on.
#![tactic(auto)]

mod called;
mod digits;
mod telling;

pub use called::{arguments, why_no_arguments};
pub use digits::are_digits;
pub use telling::{
    Untold, tell_line, tell_memory, tell_number, tell_piece, tell_pieces, tell_read_fault,
    tell_refusal, tell_write_fault,
};
