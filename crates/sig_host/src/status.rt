ghost use Rattle.std.specs.Prelude.{◌≡◌};
ghost use Rattle.sig_host.specs.Told.{number_of};

use sig_script::FaultKind;

/// How a run ended.
#[derive(Clone, Copy, Debug, PartialEq, Eq)]
pub enum Status {
    /// The record's text was written whole.
    Done,
    /// The bytes that were read are no script, or are too many for one: then it is line 0.
    BadScript { line: u64, kind: FaultKind },
    /// The command doesn't take the arguments, or a value isn't in its range.
    Usage,
    /// A read failed.
    ReadFault,
    /// A write to `out` failed.
    WriteFault,
    /// There was no memory to go on.
    Memory,
}

impl Status {
    /// The number with which the program ends.
    pub fn number(self) -> u8
        ensures { result ≡ number_of self }
    {
        match self {
            Status::Done => 0,
            Status::BadScript { line: _, kind: _ } => 1,
            Status::Usage => 2,
            Status::ReadFault => 3,
            Status::WriteFault => 4,
            Status::Memory => 5,
        }
    }
}
