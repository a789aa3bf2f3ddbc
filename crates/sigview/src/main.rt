//! Draws a record as a chart (`chart`), or says which events of other processes neither happened before
//! an event nor after it (`concurrent`), of a script and a record behind it on standard input; or lists
//! the outcomes in which the runs of a script alone may end (`outcomes`).
#![tactic(auto)]

use sig_view::program;
use std::process::ExitCode;

fn main(rt: HostRuntime) -> ExitCode {
    program(&rt, rt.stdin(), rt.stdout(), rt.stderr())
}
