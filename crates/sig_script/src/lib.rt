//! Scripts: their reader, their canonical text, and the generated script, with what a script is made
//! of.
#![tactic(auto)]

pub use sig_canon::{
    MOST_CALLS, a_printed_script_is_read_back, generate, names_of_scripts_are_name_tokens,
    print_script, the_limits_of_generated_scripts,
};
pub use sig_program::{
    After, DEFAULT_TURNS, Instr, Instrs, Label, Labels, MOST_PROCESSES, MOST_TURNS, Proc, Procs,
    Script, Version, the_limits_of_programs,
};
pub use sig_reader::{MOST_BYTES, ScriptError, read_header, read_script, the_limits_of_scripts};
pub use sig_tokens::{Cut, FaultKind, Sign, Token, TokenKind, Tokens, cut_line, expression_end};
