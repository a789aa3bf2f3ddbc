ghost use Rattle.std.specs.Prelude.{◌≡◌, true, IfOk};
ghost use Rattle.sig_terms.specs.Words.{is_atom};
ghost use Rattle.sig_model.specs.Bodies.{ending};
ghost use Rattle.sig_process.specs.Plans.{after_obeying, body_of, executed_body};
ghost use Rattle.sig_process.specs.Progressing.{state_of};

use crate::changing::Change;
use crate::copying::with_copy;
use crate::plan::{Binding, Execution, InboxChange, Plan, Posts};
use crate::progress::Progress;
use sig_model::Outcome;
use sig_terms::{Pid, Term};
use std::alloc::AllocError;
use std::mem::drop;

impl Progress {
    /// The process ends with the reason, and tells it all those who are told at its end. (Erlang
    /// Reference Manual, Processes, Process Termination.)
    pub(crate) fn ending(&self, obeyed: Option<Pid>, reason: Term) -> Result<Plan, AllocError>
        ensures { IfOk result (λ plan. ending (after_obeying (state_of self.now) obeyed) reason ≡ body_of (state_of self.now) plan) }
    {
        let (reason, told) = with_copy(self.alloc, reason)?;
        match self.told_at_end(obeyed, &reason) {
            Ok(posts) => Ok(Plan {
                obeyed,
                change: Change::End { reason },
                outcome: Outcome::Ended { reason: told },
                posts: Posts::Many(posts),
            }),
            Err(fault) => {
                drop(reason);
                drop(told);
                Err(fault)
            }
        }
    }

    /// The process ends with the reason at its next instruction, and stays there.
    #[tactic(auto, using(crate::proofs::PlanLemmas::ends_there))]
    pub(crate) fn exiting(&self, reason: Term) -> Result<Execution, AllocError>
        ensures { IfOk result (λ x. ending (state_of self.now) reason ≡ executed_body (state_of self.now) x) }
    {
        let plan = self.ending(None, reason)?;
        Ok(Execution {
            binding: Binding::Nothing,
            inbox: InboxChange::Nothing,
            place: self.counts.place,
            plan,
        })
    }

    /// The same with the atom of these bytes.
    pub(crate) fn exiting_with(&self, bytes: &[u8]) -> Result<Execution, AllocError>
        requires { is_atom bytes.now ≡ true }
        ensures { IfOk result (λ x. ending (state_of self.now) (Term.Atom bytes.now) ≡ executed_body (state_of self.now) x) }
    {
        let reason = Term::plain_atom(self.alloc, bytes)?;
        self.exiting(reason)
    }
}
