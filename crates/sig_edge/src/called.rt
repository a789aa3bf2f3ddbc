//! How the program was called.

ghost use Rattle.sig_edge.specs.Ends.{IsWhy};

use std::alloc::Global;
use std::io::ErrorKind;
use std::rt::Env;
use std::{env, io};

/// The arguments after the program's name. The error is want of memory, or that one of them is no
/// text.
pub fn arguments<R: Env + Alloc<A = Global>>(rt: &R) -> io::Result<Vec<String>> {
    let mut arguments = Vec::new(rt.alloc());
    for (i, argument) in env::args(rt)?.enumerate() {
        if i > 0 {
            arguments.push(argument)?;
        }
    }
    Ok(arguments)
}

/// What tells why the arguments can't be had: the first of these for want of memory, and else the other.
pub fn why_no_arguments<S: Copy>(fault: io::Error, memory: S, usage: S) -> S
    ensures { IsWhy memory usage fault result }
{
    match fault.kind() {
        ErrorKind::OutOfMemory => memory,
        _ => usage,
    }
}
