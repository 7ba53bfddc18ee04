//! The blocks of a stream's queue.
use aio_word::WaitRef;

/// How a block is to be had.
#[derive(Clone, Copy)]
pub enum Want {
    /// By a read of the stream's own, which was started or is pending.
    Read,
    /// From the pool, where it was when it was asked for.
    Look,
    /// By an I/O of anyone that was in progress when it was asked for.
    Join(WaitRef),
}

/// A block, the caller's data, and how it is to be had.
#[derive(Clone, Copy)]
pub struct QueuedBlock<P: Copy> {
    pub block: u32,
    pub per_buffer_data: P,
    pub want: Want,
}
