/// When an alias ends. (Erlang Reference Manual, Processes, Process Aliases; module `erlang`,
/// `monitor/3` and `alias/1`.)
#[derive(Clone, Copy, PartialEq, Eq)]
pub enum AliasMode {
    /// When it is deactivated by `unalias`.
    Explicit,
    /// Besides, with the first message through it.
    Reply,
    /// Besides, with the monitor of the same reference.
    Demonitor,
    /// Besides, with that monitor or with the first message through it, which ends the monitor too.
    ReplyDemonitor,
}
