use std::alloc::AllocError;
use std::fmt;

/// Why a case doesn't hold.
#[derive(Clone, Copy, PartialEq, Eq)]
pub(crate) enum Fault {
    /// This part, or a line of it, can't be read.
    Part,
    /// The status is another one, or isn't 0 and no part asks for it.
    Status,
    /// What was printed isn't as the part says, or something was printed and no part asks for it.
    Output,
    /// Something else was told, or something was told and no part asks for it.
    Errors,
    /// Some of the input was read.
    Read,
    /// Memory is wanting.
    Memory,
}

impl fmt::Display for Fault {
    fn fmt<W: fmt::Write>(&self, f: &mut fmt::Formatter<W>) -> fmt::Result {
        let text = match self {
            Fault::Part => "this part can't be read",
            Fault::Status => "another status",
            Fault::Output => "another output",
            Fault::Errors => "other errors",
            Fault::Read => "input was read",
            Fault::Memory => "memory is wanting",
        };
        f.write_str(text)
    }
}

impl From<AllocError> for Fault {
    fn from(_: AllocError) -> Fault {
        Fault::Memory
    }
}
