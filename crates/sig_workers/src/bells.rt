//! Bells beside the queues of a round.
use std::alloc::{AllocError, Global};
use std::sync::atomic::{AtomicBool, Ordering};

/// A bell for each process of a crew, which workers share. It is rung after each put into the queue of
/// the process, and hushed before a fetch from it. So where it is quiet nothing was put since a fetch
/// took all, or it comes meanwhile, and then the bell rings soon. No contract speaks of it: what a
/// fetch leaves out is fetched later, or handed over when the queues are closed.
#[derive(Drop)]
pub(crate) struct Bells {
    bells: Vec<AtomicBool>,
}

impl Bells {
    /// So many bells, all quiet: the queues of a round begin empty. The error is want of memory.
    pub(crate) fn new(alloc: Global, count: usize) -> Result<Bells, AllocError> {
        let mut bells = Vec::new(alloc);
        for _at in 0..count {
            bells.push(AtomicBool::new(false))?;
        }
        Ok(Bells { bells })
    }

    /// Rings, where it doesn't ring yet.
    pub(crate) fn ring(&self, pid: u32) {
        if let Some(bell) = self.bells.get(pid as usize)
            && !bell.load(Ordering::SeqCst)
        {
            bell.store(true, Ordering::SeqCst);
        }
    }

    /// Rings where the flag says so.
    pub(crate) fn ring_if(&self, pid: u32, flag: bool) {
        if flag {
            self.ring(pid);
        }
    }

    /// Whether it rings. Where there is no bell it does.
    pub(crate) fn rings(&self, pid: u32) -> bool {
        match self.bells.get(pid as usize) {
            Some(bell) => bell.load(Ordering::SeqCst),
            None => true,
        }
    }

    /// It is quiet then.
    pub(crate) fn hush(&self, pid: u32) {
        if let Some(bell) = self.bells.get(pid as usize) {
            bell.store(false, Ordering::SeqCst);
        }
    }
}
