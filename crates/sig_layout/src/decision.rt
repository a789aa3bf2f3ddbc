/// What is to be done with a queue's buffers.
#[derive(Clone, Copy, PartialEq, Eq)]
pub enum Due {
    /// They stay as they are.
    Nothing,
    /// They are to be installed.
    Install,
    /// They are to be removed.
    Remove,
}
