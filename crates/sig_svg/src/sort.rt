/// A kind of signal, as a chart tells it. (Erlang Reference Manual, Processes, Signals.)
#[derive(Clone, Copy, PartialEq, Eq)]
pub enum Sort {
    /// A message.
    Message,
    /// A message through an alias.
    Alias,
    /// A link signal.
    Link,
    /// An unlink signal.
    Unlink,
    /// The acknowledgement of an unlink signal.
    Ack,
    /// A monitor signal.
    Monitor,
    /// A demonitor signal.
    Demonitor,
    /// An exit signal.
    Exit,
    /// A down: the end of a process that was monitored.
    Down,
    /// An exit signal or a down, which had no effect: neither its sender's event nor its receiver's
    /// tells which it was.
    ExitOrDown,
}
