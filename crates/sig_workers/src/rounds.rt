ghost use Rattle.std.specs.Prelude.{◌≡◌, ◌≤◌, ◌*◌, max, min, IfOk};
ghost use Rattle.sig_program.specs.Scripts.{Program, IsScriptWithin};
ghost use Rattle.sig_model.specs.CrewLaw.{IsLawfulCrew};
ghost use Rattle.sig_model.specs.OneWorker.{IsClear};
ghost use Rattle.sig_model.specs.Still.{IsStillCrew};
ghost use Rattle.sig_process.specs.Standing.{runnings_of};
ghost use Rattle.sig_layout.specs.Policies.{IsPolicy};
ghost use Rattle.sig_workers.specs.Rounds.{IsRound, IsRounds, HasSettled};
ghost use Rattle.sig_workers.specs.declared.rounds.TheConstants.{LONGEST_QUOTA};

use crate::bells::Bells;
use crate::closing::close_all;
use crate::cutting::{keep_base, make_parts};
use crate::joining::join_all;
use crate::opening::open_all;
use crate::part::{Part, Worked};
use crate::side_by_side::work_all;
use sig_base::Gate;
use sig_layout::Policy;
use sig_process::Crew;
use sig_queue::Receipts;
use std::alloc::{AllocError, Global};
use std::sync::Wait;
use std::thread::Threads;

/// The quota of [`run_rounds`] doubles from round to round, up to so many events.
const LONGEST_QUOTA: u32 = 1_000_000;

/// The quota of the next round: twice as much, at most [`LONGEST_QUOTA`], but no less than before.
fn doubled(quota: u32) -> u32
    ensures { result ≡ max quota (min (2 * quota) LONGEST_QUOTA) }
{
    if quota < LONGEST_QUOTA / 2 {
        quota * 2
    } else {
        quota.max(LONGEST_QUOTA)
    }
}

/// A round of a crew by several workers, over shared queues: one queue for each process, opened
/// with this policy and the crew's next numbers. The workers run side by side, each over its part
/// of the processes, until it has passed over them without an event, however often it tries again,
/// or has made at least `quota` events. Then the queues are closed, and what each has left waits for its receiver. Gives the
/// crew, the receipt of each queue, by pid, and whether there was an event. Each process that could
/// do something has an event more, and one without an event more has a saved place no earlier than
/// before. How many workers there are, and how many events a round has beyond these, no clause says. The
/// error is want of memory.
///
/// Asks that the crew is lawful, as [`Crew::start`] opens it for a script and as the workers leave
/// it; that its outboxes are empty; that there are 1 to 16 workers; and that the quota is at least
/// 1, and so is the number of `Churn`.
pub fn round<R: Threads + Wait + Sync, G: Gate>(
    rt: &R,
    alloc: Global,
    crew: Crew,
    workers: u32,
    quota: u32,
    policy: Policy,
    gate: &G,
) -> Result<(Crew, Receipts, bool), AllocError>
    requires lawful { (script : Program) × IsScriptWithin script × IsLawfulCrew script (runnings_of crew) }
    requires clear { IsClear (runnings_of crew) }
    requires workers { (1 ≤ workers) × (workers ≤ 16) }
    requires quota { 1 ≤ quota }
    requires policy { IsPolicy policy }
    ensures { (script : Program) → IsLawfulCrew script (runnings_of crew) → IfOk result (λ r. IsRound script policy crew r.0 r.1 r.2) }
{
    let procs = crew.procs;
    let (queues, seats) = open_all(alloc, policy, procs.as_slice())?;
    let bells = Bells::new(alloc, procs.len())?;
    let base = keep_base(&procs);
    let parts = make_parts(alloc, queues.as_slice(), seats, procs, workers)?;
    let done = work_all(rt, alloc, queues.as_slice(), &bells, gate, quota, parts)?;
    let Worked { part, moved } = join_all(queues.as_slice(), &base, done)?;
    let Part {
        worker: _,
        first: _,
        mut procs,
        seats,
        base: _,
    } = part;
    let receipts = close_all(alloc, queues, seats, &mut procs)?;
    Ok((Crew { procs }, receipts, moved))
}

/// Rounds until one has no event. The quota is that of the first round; that of each later one is
/// twice that of the round before, up to 1,000,000, and never below what was given. So long runs have
/// few rounds. Gives the crew, which has settled and of which no process can do anything, and for each
/// process the receipt of all that was put for it, by pid. Each round but the last raises the sum of
/// the processes' stamps, and no stamp is above 2^62: so this code makes finitely many, which is proved of it
/// and said by no clause, as those say only what holds if the call returns. As of [`round`], no clause speaks
/// of the workers or of the quota. The error is want of memory.
///
/// Asks what [`round`] asks.
pub fn run_rounds<R: Threads + Wait + Sync, G: Gate>(
    rt: &R,
    alloc: Global,
    crew: Crew,
    workers: u32,
    quota: u32,
    policy: Policy,
    gate: &G,
) -> Result<(Crew, Receipts), AllocError>
    requires lawful { (script : Program) × IsScriptWithin script × IsLawfulCrew script (runnings_of crew) }
    requires clear { IsClear (runnings_of crew) }
    requires workers { (1 ≤ workers) × (workers ≤ 16) }
    requires quota { 1 ≤ quota }
    requires policy { IsPolicy policy }
    ensures rounds { (script : Program) → IsLawfulCrew script (runnings_of crew) →
        IfOk result (λ r. IsRounds script policy (runnings_of crew) (runnings_of r.0) r.1) }
    ensures settled { (script : Program) → IsLawfulCrew script (runnings_of crew) →
        IfOk result (λ r. HasSettled script (runnings_of r.0)) }
    ensures still { IfOk result (λ r. IsStillCrew (runnings_of r.0)) }
{
    let (mut now, mut receipts, mut moved) = round(rt, alloc, crew, workers, quota, policy, gate)?;
    let mut longer = quota;
    while moved {
        longer = doubled(longer);
        let (later, more, again) = round(rt, alloc, now, workers, longer, policy, gate)?;
        receipts.follow(more);
        now = later;
        moved = again;
    }
    Ok((now, receipts))
}
