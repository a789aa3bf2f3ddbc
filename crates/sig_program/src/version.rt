/// A version of the language of scripts, which is this project's own.
#[derive(Clone, Copy, PartialEq, Eq)]
pub enum Version {
    /// The first line is `sigscript 1`.
    One,
    /// The first line is `sigscript 2`. A clause may have a guard, and a process may
    /// tell where it keeps its messages.
    Two,
}
