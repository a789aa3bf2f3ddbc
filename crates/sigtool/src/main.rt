//! Says of a script and a record behind it, on standard input, whether the record is that of a settled
//! run of the script (`check`); where it is, prints the record as it is made again (`replay`), which
//! processes are linked at its end (`links`), or whether one event happened before another (`before`).
//! Of a text of calls it prints the script that it spells (`expand`).
#![tactic(auto)]

use sig_tool::program;
use std::process::ExitCode;

fn main(rt: HostRuntime) -> ExitCode {
    program(&rt, rt.stdin(), rt.stdout(), rt.stderr())
}
