use crate::bells::Bells;
use sig_queue::SigQueue;

/// What the workers of a round share.
#[derive(Drop)]
pub(crate) struct Shared<'a, R, G> {
    /// By which a sender and a fetch may wait.
    pub(crate) rt: &'a R,
    /// The queue of each process of the crew, by pid.
    pub(crate) queues: &'a [SigQueue],
    /// A bell beside each queue.
    pub(crate) bells: &'a Bells,
    /// Whom each put, each handling and each execution is told.
    pub(crate) gate: &'a G,
}
