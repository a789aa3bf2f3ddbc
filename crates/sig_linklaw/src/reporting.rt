//! The report of links.

ghost use Rattle.std.specs.Prelude.{◌≡◌, ◌≢◌, ◌<◌, ◌↔◌, ◌++◌, ℕ, Some, true, slice_get, All, IfOk, OnOk};
ghost use Rattle.std.specs.List.{Contains, AllPairs};
ghost use Rattle.sig_program.specs.Scripts.{Program};
ghost use Rattle.sig_model.specs.PrintedState.{is_waiting};
ghost use Rattle.sig_model.specs.Running.{Running};
ghost use Rattle.sig_process.specs.Standing.{runnings_of};
ghost use Rattle.sig_linklaw.specs.LinkLaw.{AreOfOneMind};
ghost use Rattle.sig_linklaw.specs.LinkReport.{HasComeToRest, pair, are_linked, pairs_of, linked_pairs, IsLinked, HasLowFirst, IsLower};

use crate::pair::{Pair, Pairs};
use sig_process::{Crew, Process};
use std::alloc::{AllocError, Global};

/// Whether the first has the lower pid, both wait, and the first has the other as an active peer.
fn are_linked(one: &Process, other: &Process) -> bool
    ensures { result ≡ are_linked one.now.running other.now.running }
{
    one.pid().0 < other.pid().0
        && one.is_waiting()
        && other.is_waiting()
        && one.linked_to(other.pid())
}

/// Adds the pairs of this process and one of those. The error is want of memory.
fn add_pairs(one: &Process, others: &[Process], pairs: &mut Pairs) -> Result<(), AllocError>
    ensures { OnOk result (pairs.new ≡ pairs.old ++ pairs_of one.now.running (runnings_of others.now)) }
{
    for other in others {
        if are_linked(one, other) {
            pairs.add(Pair {
                low: one.pid(),
                high: other.pid(),
            })?;
        }
    }
    Ok(())
}

/// The pairs of these. The error is want of memory.
fn all_pairs(alloc: Global, procs: &[Process]) -> Result<Pairs, AllocError>
    ensures { IfOk result (λ r. r ≡ linked_pairs (runnings_of procs.now)) }
{
    let mut pairs = Pairs::new(alloc);
    for one in procs {
        add_pairs(one, procs, &mut pairs)?;
    }
    Ok(pairs)
}

/// The pairs of waiting processes with a link between them, each once, in ascending order by the
/// lower pid and then by the other, and nothing else (`low`, `ascending`). A pair is listed exactly
/// where the process with the lower pid has the other as an active peer (`first`), and exactly where
/// the other has that one (`second`). No two waiting processes await an id of each other (`law`). Of a
/// process that has ended, or is cut or late, nothing is listed. (Erlang Reference Manual, Processes,
/// Links.) The error is want of memory.
///
/// Asks that the crew is a lawful one of some script, that nothing lies in an outbox, and that it has
/// come to rest, as a crew has at the end of a run.
pub fn report(alloc: Global, crew: &Crew) -> Result<Pairs, AllocError>
    requires rest { (script : Program) × HasComeToRest script (runnings_of crew.now) }
    ensures pairs { IfOk result (λ r. r ≡ linked_pairs (runnings_of crew.now)) }
    ensures law { (p q : ℕ) (r t : Running) → p ≢ q → slice_get (runnings_of crew.now) p ≡ Some r →
        slice_get (runnings_of crew.now) q ≡ Some t → is_waiting r ≡ true → is_waiting t ≡ true →
        AreOfOneMind p q r.state.tables.links t.state.tables.links }
    ensures first { IfOk result (λ r. (p q : ℕ) → p < q → Contains r (pair p q) ↔ IsLinked (runnings_of crew.now) p q) }
    ensures second { IfOk result (λ r. (p q : ℕ) → p < q → Contains r (pair p q) ↔ IsLinked (runnings_of crew.now) q p) }
    ensures low { IfOk result (All HasLowFirst) }
    ensures ascending { IfOk result (AllPairs IsLower) }
{
    let pairs = all_pairs(alloc, crew.procs.as_slice())?;
    Ok(pairs)
}
