ghost use Rattle.std.specs.Prelude.{◌≡◌, ◌<◌, ◌≤◌, Some, All, IfOk, MatchOption, slice_get, length};
ghost use Rattle.std.specs.Borrow.{sem};
ghost use Rattle.sig_process.specs.Lending.{LendsProcess};
ghost use Rattle.sig_process.specs.Standing.{runnings_of};
ghost use Rattle.sig_model.specs.Running.{opened};
ghost use Rattle.sig_model.specs.OneWorker.{opened_crew, IsClear};
ghost use Rattle.sig_model.specs.Keeping.{IsPlaced};
ghost use Rattle.sig_model.specs.CrewLaw.{IsLawfulCrew};

use crate::process::Process;
use sig_program::Script;
use sig_terms::Pid;
use std::alloc::{AllocError, Global};
use std::marker::Model;

/// The processes of a script, by pid.
#[derive(Drop)]
pub struct Crew {
    /// The process at place p, from 0, has the pid p.
    pub procs: Vec<Process>,
}

impl Model for Crew {
    ghost use Rattle.std.specs.Coded.{codes};
    ghost use Rattle.std.specs.FinMap as map;
    ghost use Rattle.std.specs.Prelude.{List};
    ghost use Rattle.sig_terms.specs.contracts.term.Term as term;
    ghost use Rattle.sig_patterns.specs.contracts.expression.Expr as expr;
    ghost use Rattle.sig_patterns.specs.contracts.pattern.Pattern as pattern;
    ghost use Rattle.sig_process.specs.Standing.{Standing};

    ghost Value = { List Standing };

    ghost coded = { Prim.hlevel (codes, term.the_row.coded, expr.the_row.coded, pattern.the_row.coded, map.code) };

    ghost view = { λ c. c.procs.items };
}

impl Crew {
    /// The processes of the script, each as the script opens it, with no saved place. The error is
    /// want of memory.
    pub fn open(alloc: Global, script: &Script) -> Result<Crew, AllocError>
        ensures opened { IfOk result (λ c. runnings_of c ≡ opened_crew script.now) }
        ensures saved { IfOk result (All (λ p. p.saved ≡ 0)) }
        ensures clear { IfOk result (λ c. IsClear (runnings_of c)) }
        ensures placed { IfOk result (λ c. IsPlaced (runnings_of c)) }
        ensures lawful { IfOk result (λ c. IsLawfulCrew script.now (runnings_of c)) }
    {
        let mut procs = Vec::new(alloc);
        for pid in 0..script.count() {
            let process = Process::open(alloc, script, Pid(pid))?;
            procs.push(process)?;
        }
        Ok(Crew { procs })
    }

    /// The same processes, to which the parts of the script are moved. The error is want of memory.
    pub fn start(alloc: Global, script: Script) -> Result<Crew, AllocError>
        ensures opened { IfOk result (λ c. runnings_of c ≡ opened_crew script) }
        ensures saved { IfOk result (All (λ p. p.saved ≡ 0)) }
        ensures clear { IfOk result (λ c. IsClear (runnings_of c)) }
        ensures placed { IfOk result (λ c. IsPlaced (runnings_of c)) }
        ensures lawful { IfOk result (λ c. IsLawfulCrew script (runnings_of c)) }
    {
        let count = script.count();
        let turns = script.turns();
        let mut procs = Vec::new(alloc);
        for proc in script.procs.into_vec() {
            let pid = Pid(procs.len() as u32);
            let process = Process::start(alloc, pid, count, turns, proc)?;
            procs.push(process)?;
        }
        Ok(Crew { procs })
    }

    /// The process of this pid, to be read. `None` exactly where there is none.
    pub fn get(&self, pid: Pid) -> Option<&Process>
        ensures { MatchOption result (length self.now ≤ pid.0) (λ p. slice_get self.now pid.0 ≡ Some p.now) }
    {
        self.procs.get(pid.0 as usize)
    }

    /// The process of this pid. `None` exactly where there is none.
    pub fn get_mut(&mut self, pid: Pid) -> Option<&mut Process>
        ensures* lends { sem 𝓛 (LendsProcess self.entry pid.0 result) }
        ensures process { MatchOption result (length self.old ≤ pid.0) (λ p. slice_get self.old pid.0 ≡ Some p.now) }
    {
        self.procs.get_mut(pid.0 as usize)
    }
}
