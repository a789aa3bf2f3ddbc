ghost use Rattle.std.specs.Prelude.{◌≡◌};
ghost use Rattle.sig_layout.specs.Policies.{IsDue, ruled};
ghost use Rattle.sig_layout.specs.Summaries.{due_at};

use crate::decision::Due;
use crate::journal::Journal;
use sig_kinds::QueueData;

/// Under `Auto` buffers are installed where the score of direct puts comes to this.
pub const AUTO_SCORE: u64 = 64;

/// Under `Auto` they are removed after so many fetches in a row that moved little.
pub const AUTO_RUN: u64 = 16;

/// A fetch moved little where it moved fewer signals than this out of buffers.
pub const AUTO_FEW: u64 = 4;

/// When buffers are installed and when they are removed. (The policies are this project's own.
/// Erlang's runtime too installs buffers where senders contend, and removes them where they have
/// little use: its notes on parallel signal sending.)
#[derive(Clone, Copy, PartialEq, Eq)]
pub enum Policy {
    /// There are no buffers.
    Never,
    /// From the start on, for ever.
    Always,
    /// Installed after so many direct puts, removed after so many fetches, and so on. It is at
    /// least 1.
    Churn(u32),
    /// Installed where more direct puts than not find the queue held, removed where buffers have
    /// little use.
    Auto,
}

impl Policy {
    /// The policy by which a queue goes whose receiver keeps its message queue so: this one outside
    /// the heap, and `Never` on the heap.
    pub fn ruled(self, queue_data: QueueData) -> Policy
        ensures { result ≡ ruled self queue_data }
    {
        match queue_data {
            QueueData::OnHeap => Policy::Never,
            QueueData::OffHeap => self,
        }
    }
}

/// What the policy makes due after this journal of a queue whose receiver keeps its message queue so,
/// in constant time. On the heap it is nothing.
pub fn due(policy: Policy, queue_data: QueueData, journal: &Journal) -> Due
    ensures table { IsDue (ruled policy queue_data) journal.now result }
    ensures on_heap { queue_data ≡ QueueData.OnHeap → result ≡ Due.Nothing }
    ensures same { result ≡ due_at (ruled policy queue_data) journal.now }
{
    journal.due(policy.ruled(queue_data))
}
