use sig_terms::Pid;

/// What becomes of a message through an alias. (Erlang Reference Manual, Processes, Process
/// Aliases; module `erlang`, `monitor/3` and `alias/1`.)
#[derive(Clone, Copy, PartialEq, Eq)]
pub enum AliasAnswer {
    /// The alias isn't active: the message is dropped.
    Dropped,
    /// The alias is active: the message is kept.
    Kept {
        /// The process to which a demonitor signal is to be sent, where a monitor ends.
        tell: Option<Pid>,
    },
}
