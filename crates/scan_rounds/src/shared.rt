//! What all actors of a scan share.
use aio_callback::ReadIo;
use aio_handle::Table;
use buf_pool::Pool;
use method_worker::SubmitQueue;
use page_check::World;

/// The table of handles, the pool and the submission queue.
#[derive(Drop)]
pub(crate) struct SharedState<W: World> {
    pub(crate) table: Table<ReadIo, W>,
    pub(crate) pool: Pool<W>,
    pub(crate) queue: SubmitQueue<W>,
}
