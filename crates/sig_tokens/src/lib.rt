//! The lines of a script cut into tokens, and what stands at the front of tokens: numbers, names,
//! expressions and patterns.
#![tactic(auto)]

mod drafted;
mod expressions;
mod fault;
mod known;
mod label_table;
mod line;
mod names;
mod number;
mod patterns;
mod phrases;
mod proc_table;
mod skipping;
mod token;

pub use drafted::{DraftProc, DraftScript};
pub use fault::{FaultKind, Stop};
pub use known::Known;
pub use label_table::LabelTable;
pub use line::{Line, check_cut, cut_line, first_line, read_tokens, text_of};
pub use names::{name_of, take_target, take_variable, take_word};
pub use number::{read_count, read_int, spells_one, spells_two};
pub use phrases::{Phrase, atom_of, take_phrase};
pub use proc_table::ProcTable;
pub use skipping::expression_end;
pub use token::{Cut, Sign, Token, TokenKind, Tokens, is_blank_byte};
