use crate::started::{Input, Output, Started};

/// How a program is started, and the code with which it exits.
#[derive(Clone, Copy)]
pub struct Exit<'t> {
    /// The command line: the program's name and its arguments, with a blank before each.
    pub line: &'t [u8],
    /// What it reads.
    pub input: Input<'t>,
    /// What it writes to.
    pub output: Output,
    /// What it tells its errors.
    pub errors: Output,
    /// Its exit code.
    pub code: u8,
}

impl<'t> Exit<'t> {
    /// The runtime of a program that is started so; all but the command line is that of `rt`.
    pub fn runtime<R>(&self, rt: &'t R) -> Started<'t, R> {
        Started {
            rt,
            line: self.line,
        }
    }
}
