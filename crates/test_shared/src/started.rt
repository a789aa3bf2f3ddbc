//! What a test gives a program in place of the system: a command line, what it reads and what it writes to.

use std::env::FillError;
use std::io;
use std::io::{ErrorKind, IsTerminal, Read, Write};
use std::rt::Env;
use std::sync::Wait;
use std::thread::Threads;
use std::time::{Clock, Duration};

/// A runtime whose arguments are those of a command line. It has no environment variables.
#[derive(Drop)]
pub struct Started<'t, R> {
    /// The runtime of the test.
    pub(crate) rt: &'t R,
    /// The arguments, with a blank between two.
    pub(crate) line: &'t [u8],
}

impl<R> Env for Started<'_, R> {
    fn arg(&self, i: usize, buf: &mut [u8]) -> Result<usize, FillError> {
        let mut arguments = self.line.split(|byte| *byte == b' ');
        let argument = arguments.nth(i).ok_or(FillError::NotPresent)?;
        let place = buf.get_mut(..argument.len()).ok_or(FillError::TooLong)?;
        place.copy_from_slice(argument);
        Ok(argument.len())
    }

    fn var(&self, _name: &str, _buf: &mut [u8]) -> Result<usize, FillError> {
        Err(FillError::NotPresent)
    }

    fn var_at(&self, _i: usize, _buf: &mut [u8]) -> Result<usize, FillError> {
        Err(FillError::NotPresent)
    }
}

impl<R: Alloc> Alloc for Started<'_, R> {
    type A = R::A;

    fn alloc(&self) -> R::A {
        self.rt.alloc()
    }
}

impl<R: Clock> Clock for Started<'_, R> {
    fn monotonic(&self) -> io::Result<Duration> {
        self.rt.monotonic()
    }

    fn since_1970(&self) -> io::Result<Duration> {
        self.rt.since_1970()
    }
}

impl<R: Threads> Threads for Started<'_, R> {}

impl<R: Wait> Wait for Started<'_, R> {}

/// What a program reads.
#[derive(Clone, Copy)]
pub enum Input<'t> {
    /// A text, and another one behind it.
    Texts(&'t [u8], &'t [u8]),
    /// Bytes without end.
    Endless,
    /// Nothing: each read fails.
    Broken,
}

impl Read for Input<'_> {
    fn read(&mut self, buf: &mut [u8]) -> io::Result<usize> {
        match self {
            Input::Texts(front, back) if front.is_empty() => back.read(buf),
            Input::Texts(front, _) => front.read(buf),
            Input::Endless => io::repeat(b'\n').read(buf),
            Input::Broken => Err(io::Error::from(ErrorKind::BrokenPipe)),
        }
    }
}

/// What a program writes to. It is no terminal.
#[derive(Clone, Copy)]
pub enum Output {
    /// It takes all.
    Open,
    /// Each write fails.
    Broken,
}

impl Write for Output {
    fn write(&mut self, buf: &[u8]) -> io::Result<usize> {
        match self {
            Output::Open => Ok(buf.len()),
            Output::Broken => Err(io::Error::from(ErrorKind::BrokenPipe)),
        }
    }

    fn flush(&mut self) -> io::Result<()> {
        Ok(())
    }
}

impl IsTerminal for Output {
    fn is_terminal(&self) -> bool {
        false
    }
}
