/// Where a process keeps its message queue. (Module `erlang`, `process_flag/2`,
/// `message_queue_data`.)
#[derive(Clone, Copy, PartialEq, Eq)]
pub enum QueueData {
    /// On its heap. The queue has no buffers.
    OnHeap,
    /// Outside its heap. The queue may have buffers, in which several senders put at once. (The
    /// runtime's notes on parallel signal sending.)
    OffHeap,
}
