ghost use Rattle.std.specs.Prelude.{◌≡◌, ◌+◌, ◌<◌, length, IfSome};
ghost use Rattle.sig_patterns.specs.Scanning.{first_clause, tested};

use crate::accepting::accepts;
use crate::clause::Clause;
use crate::env::Env;
use sig_base::Steps;
use sig_terms::Term;
use std::sync::ledger::Ledger;

/// The first of the clauses that takes the message, from 0. `None` exactly where none does. Counts
/// one step for each clause up to and with the one that it answers, or for each of them where it
/// answers none. (Erlang Reference Manual, Expressions, Receive.)
pub fn first_match<L: Ledger>(
    clauses: &[Clause],
    env: &Env,
    message: &Term,
    steps: &mut Steps<L>,
) -> Option<usize>
    ensures first { result ≡ first_clause clauses.now env.now message.now }
    ensures within { IfSome result (λ at. at < length clauses.now) }
    ensures ticks { steps.new ≡ steps.old + tested clauses.now result }
{
    let mut at = 0;
    while at < clauses.len() {
        if accepts(&clauses[at], env, message, steps) {
            return Some(at);
        }
        at += 1;
    }
    None
}
