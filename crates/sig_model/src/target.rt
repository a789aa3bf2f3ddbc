use sig_terms::{Pid, Ref};

/// To what a message is sent. (Erlang Reference Manual, Expressions, Send; Processes, Process
/// Aliases.)
#[derive(Clone, Copy, PartialEq, Eq)]
pub enum Target {
    /// A process.
    Process(Pid),
    /// An alias, and so the process that made it.
    Alias(Ref),
}
