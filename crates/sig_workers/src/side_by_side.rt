//! Workers in threads.
ghost use Rattle.std.specs.Prelude.{◌≡◌, ◌≤◌, All, IfOk, vec_len};
ghost use Rattle.sig_workers.specs.Parts.{IsPart, HasWorked, HaveWorked};

use crate::bells::Bells;
use crate::part::{Part, Worked};
use crate::shared::Shared;
use crate::working::work;
use sig_base::Gate;
use sig_queue::SigQueue;
use std::alloc::{AllocError, Global};
use std::sync::Wait;
use std::thread;
use std::thread::Threads;

/// The work of all parts, side by side, each in a thread of its own where one can be made. The
/// results stand in the order of the parts. The error is want of memory.
pub(crate) fn work_all<R: Threads + Wait + Sync, G: Gate>(
    rt: &R,
    alloc: Global,
    queues: &[SigQueue],
    bells: &Bells,
    gate: &G,
    quota: u32,
    parts: Vec<Part>,
) -> Result<Vec<Result<Worked, AllocError>>, AllocError>
    requires quota { 1 ≤ quota }
    requires parts { All (IsPart queues.now) parts.items }
    ensures len { IfOk result (λ done. vec_len done ≡ vec_len parts) }
    ensures each { IfOk result (λ done. HaveWorked queues.now parts.items done.items) }
{
    let one = |part: Part| -> Result<Worked, AllocError>
        requires { (1 ≤ quota) × IsPart queues.now part }
        ensures { IfOk result (HasWorked queues.entry.now part) }
    {
        let shared = Shared {
            rt,
            queues,
            bells,
            gate,
        };
        work(&shared, alloc, quota, part)
    };
    thread::map_vec(rt, parts, &one)
}
