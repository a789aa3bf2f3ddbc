//! Runs a script of processes from standard input, or with `--generate N` one that it makes, with one
//! worker or several, and prints the record of the run.
#![tactic(auto)]

use sig_host::program;
use std::process::ExitCode;

fn main(rt: HostRuntime) -> ExitCode {
    program(&rt, rt.stdin(), rt.stdout(), rt.stderr())
}
