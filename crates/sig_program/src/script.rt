ghost use Rattle.std.specs.Prelude.{◌≡◌, ◌≤◌, length, slice_get, option_copied};
ghost use Rattle.sig_program.specs.declared.script.TheConstants.{DEFAULT_TURNS, MOST_TURNS};
ghost use Rattle.sig_program.specs.Scripts.{most_processes, IsScriptWithin};

use crate::process::{Proc, Procs};
use crate::version::Version;
use std::marker::Model;

/// The most processes of a script, whatever its version.
pub const MOST_PROCESSES: usize = 256;

/// The most instructions that a script may let each of its processes execute.
pub const MOST_TURNS: u32 = 20000;

/// The instructions that each process may execute where the script doesn't say how many.
pub const DEFAULT_TURNS: u32 = 1000;

/// The most processes of a script of this version: 64 in version 1, and [`MOST_PROCESSES`] in
/// version 2. (The language of scripts is this project's own.)
pub fn most_processes(version: Version) -> usize
    ensures { result ≡ most_processes version }
{
    match version {
        Version::One => 64,
        Version::Two => MOST_PROCESSES,
    }
}

/// A script: at most as many processes as its version allows, by [`most_processes`], each of which
/// executes at most `turns` instructions, and these are at most [`MOST_TURNS`]. Each pid in it is below the count of
/// processes.
#[derive(Drop)]
pub struct Script {
    /// The version of the language in which it was written.
    pub version: Version,
    /// How many instructions each process may execute.
    pub turns: u32,
    /// The processes. The pid of each is its place among them, from 0.
    pub procs: Procs,
}

impl Model for Script {
    ghost use Rattle.std.specs.Coded.{codes};
    ghost use Rattle.sig_patterns.specs.contracts.expression.Expr as expr;
    ghost use Rattle.sig_patterns.specs.contracts.pattern.Pattern as pattern;
    ghost use Rattle.sig_program.specs.Scripts.{Program, IsScriptWithin};

    ghost Value = { Program };

    ghost coded = { Prim.hlevel (codes, expr.the_row.coded, pattern.the_row.coded) };

    ghost view = { λ s. record { version = s.version; turns = s.turns; procs = s.procs } };

    ghost invariant = { λ s. IsScriptWithin (record { version = s.version; turns = s.turns; procs = s.procs }) };
}

impl Script {
    /// How many processes there are.
    #[tactic(auto, using(crate::proofs::ProcessCounts::few_procs))]
    pub fn count(&self) -> u32
        ensures count { result ≡ length self.now.procs }
        ensures few { length self.now.procs ≤ MOST_PROCESSES }
        ensures sound { IsScriptWithin self.now }
    {
        self.procs.len() as u32
    }

    /// How many instructions each process may execute.
    pub fn turns(&self) -> u32
        ensures turns { result ≡ self.now.turns }
        ensures few { self.now.turns ≤ MOST_TURNS }
    {
        self.turns
    }

    /// The process of this pid. `None` exactly where the pid isn't below the count.
    pub fn proc(&self, pid: u32) -> Option<&Proc>
        ensures { option_copied result ≡ slice_get self.now.procs pid }
    {
        self.procs.get(pid as usize)
    }
}

/// The limits in numbers: [`MOST_TURNS`] is 20,000, and [`DEFAULT_TURNS`] is 1,000.
pub fn the_limits_of_programs()
    ensures most { MOST_TURNS ≡ 20000 }
    ensures default { DEFAULT_TURNS ≡ 1000 }
{}
