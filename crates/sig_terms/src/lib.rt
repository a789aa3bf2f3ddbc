//! Terms of Erlang and their texts.
#![tactic(auto)]

mod atom;
mod atoms;
pub mod bytes;
mod hashing;
mod name;
mod naming;
mod nested;
mod nodes;
pub mod numbers;
mod pid;
mod pieces;
mod reading;
mod reference;
mod refusal;
mod term;
mod tokens;

pub use atom::Atom;
pub use name::Name;
pub use pid::Pid;
pub use reading::{
    Front, READ_DEPTH, READ_NODES, read, read_front, texts_tell_terms_apart, the_limits_of_terms,
};
pub use reference::Ref;
pub use refusal::ReadTerm;
pub use sig_lists::Pushed;
pub use term::{Term, Terms, copy_terms, same_is_equality, same_terms};
