//! A scan: backends and workers over one table.
ghost use Rattle.std.specs.Prelude.{◌≡◌, length};

use crate::backend::Backend;
use crate::shared::SharedState;
use crate::worker::Worker;
use aio_callback::ReadIo;
use aio_disk::Disk;
use aio_handle::Actor;
use page_check::{PageRules, World};
use scan_settings::PageText;
use std::alloc::Global;
use std::snapshot::Snapshot;

/// Backends and workers over one table of handles, one pool and one submission queue.
#[derive(Drop)]
pub struct Scan<W: World, D: Disk> {
    pub(crate) shared: SharedState<W>,
    // In the order of the actors' numbers.
    pub(crate) backends: Vec<Backend<W, D>>,
    pub(crate) workers: Vec<Worker<W, D>>,
    // Where a run takes the memory of its shares.
    pub(crate) alloc: Global,
    // The least room of the backends.
    pub(crate) room: u64,
    // How many jobs have ended in Unread.
    pub(crate) unread: u64,
    // How pages are read.
    pub(crate) rules: PageRules,
    // What is written of a page.
    pub(crate) page_text: PageText,
    // The disks as they were when the scan was opened, those of the backends first.
    pub(crate) opened: Snapshot<Vec<D>>,
    // Empty, with room for all actors and all disks.
    pub(crate) actors: Vec<Actor<ReadIo, W>>,
    pub(crate) disks: Vec<D>,
}

/// A scan whose settings are `MethodKind::Ring`. It has no workers: each backend executes I/Os by a
/// ring over its disk, its own and those that others have pushed, in groups.
pub type RingScan<W, D> = Scan<W, D>;

impl<W: World, D: Disk> Scan<W, D> {
    /// The least room of its backends: how many more lives each of their handles can have.
    pub fn room(&self) -> u64
        ensures { result ≡ self.now.room }
    {
        self.room
    }

    /// How many backends it has: one round takes at most so many jobs.
    pub fn backend_count(&self) -> usize
        ensures { result ≡ length self.now.backends.items }
    {
        self.backends.len()
    }

    /// How many jobs and maps so far have ended in Unread. At 2^64 - 1 the count stays. A run that
    /// a fault ends may have listed jobs behind the fault: those that came back from their threads
    /// count too.
    pub fn unread(&self) -> u64
        ensures { result ≡ self.now.unread }
    {
        self.unread
    }
}
