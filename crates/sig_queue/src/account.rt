use sig_kinds::QueueData;
use sig_layout::{Item, Numbers, Policy, Senders};
use sig_lists::Sequence;
use sig_terms::Pid;

/// What a receipt says. No value of it is made.
pub struct Account {
    /// The process to which the signals go.
    pub receiver: Pid,
    /// Those who put.
    pub senders: Senders,
    /// The policy that was given to the queue.
    pub policy: Policy,
    /// Where the receiver keeps its message queue.
    pub queue_data: QueueData,
    /// At each place, from 0, the number of the first signal of the sender with that pid.
    pub first: Numbers,
    /// What was put, each signal with its way.
    pub put: Sequence<Item>,
}
