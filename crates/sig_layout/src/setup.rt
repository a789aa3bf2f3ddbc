use crate::opening::Opening;
use crate::policy::Policy;
use crate::senders::Senders;
use sig_kinds::QueueData;

/// All that a queue is opened with. It stays the same for as long as the queue is there.
#[derive(Drop)]
pub struct Setup {
    /// When buffers are installed and removed: by the policy that was given, or never, where the
    /// messages are kept on the heap ([`Policy::ruled`]).
    pub policy: Policy,
    /// The policy that was given.
    pub given: Policy,
    /// Where the receiver keeps its message queue.
    pub queue_data: QueueData,
    /// Those whose signals it takes.
    pub senders: Senders,
    /// What its signals have in common.
    pub opening: Opening,
}
