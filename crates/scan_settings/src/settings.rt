//! How a scan reads.
ghost use Rattle.std.specs.Prelude.{◌≡◌};
ghost use Rattle.scan_settings.specs.Settings.{AreValidScanSettings, needs_of_method};
ghost use Rattle.scan_settings.specs.Settings.{page_rules, required_disks, rings_of_settings};
ghost use Rattle.scan_settings.specs.Settings.{seats_of_settings, workers_of_settings};

use crate::page_text::PageText;
use page_check::{DamagedPages, PageRules};

/// Who executes I/O (`io_method`).
#[derive(Clone, Copy, Debug, PartialEq, Eq)]
pub enum MethodKind {
    /// Each backend its own, at once.
    Sync,
    /// The workers.
    Worker,
    /// Each backend by a ring of its own, in groups: its own and those of the other backends.
    Ring,
}

/// What a scan by a method has besides its handles and its pool.
#[derive(Clone, Copy)]
pub(crate) struct MethodNeeds {
    /// A seat of the queue for each backend.
    pub(crate) queue: bool,
    /// Workers at the queue.
    pub(crate) workers: bool,
    /// A ring for each backend.
    pub(crate) rings: bool,
}

impl MethodKind {
    /// What a scan has by this method.
    pub(crate) fn needs(self) -> MethodNeeds
        ensures { result ≡ needs_of_method self }
    {
        let (queue, workers, rings) = match self {
            MethodKind::Sync => (false, false, false),
            MethodKind::Worker => (true, true, false),
            MethodKind::Ring => (true, false, true),
        };
        MethodNeeds {
            queue,
            workers,
            rings,
        }
    }
}

/// How a scan reads.
#[derive(Clone, Copy, Debug, PartialEq, Eq)]
pub struct ScanSettings {
    pub method: MethodKind,
    /// 1 to 32 (`io_workers`); they are made with `MethodKind::Worker` alone.
    pub workers: u32,
    /// 1 to 16.
    pub backends: u32,
    /// The most blocks of one I/O, 1 to 128 (`io_combine_limit`).
    pub combine: u32,
    /// The most I/Os of a stream under way, 1 to 256 (`effective_io_concurrency`).
    pub concurrency: u32,
    /// The handles of a backend, 1 to 64 (`io_max_concurrency`).
    pub handles: u32,
    /// The frames of the pool, 16 to 16384 (`shared_buffers`).
    pub buffers: u32,
    /// Whether I/Os are submitted together.
    pub batch: bool,
    /// Whether streams look far ahead from the first block on (`READ_STREAM_FULL`).
    pub full: bool,
    /// The segment size in blocks (`RELSEG_SIZE`), at least 1: no read crosses a multiple of it.
    pub segment: u32,
    /// Whether page checksums are verified (`data_checksums`).
    pub checksums: bool,
    /// What becomes of pages that are not valid. Of each that is zeroed there is a warning.
    pub damaged: DamagedPages,
    /// What is written of a page.
    pub page_text: PageText,
}

impl ScanSettings {
    /// How the pages of a scan are read.
    pub fn page_rules(&self) -> PageRules
        ensures { result ≡ page_rules self.now }
    {
        PageRules {
            checksums: self.checksums,
            damaged: self.damaged,
        }
    }

    /// How many workers a scan has.
    pub fn worker_count(&self) -> u32
        ensures { result ≡ workers_of_settings self.now }
    {
        let needs = self.method.needs();
        if needs.queue && needs.workers {
            self.workers
        } else {
            0
        }
    }

    /// How many seats of the queue its backends and workers have.
    pub fn seat_count(&self) -> u32
        requires { AreValidScanSettings self.now }
        ensures { result ≡ seats_of_settings self.now }
    {
        if self.method.needs().queue {
            self.backends + self.worker_count()
        } else {
            0
        }
    }

    /// How many rings it has. Each has a seat of its own.
    pub fn ring_count(&self) -> u32
        ensures { result ≡ rings_of_settings self.now }
    {
        if self.method.needs().rings {
            self.backends
        } else {
            0
        }
    }

    /// How many disks it has: one for each backend and each worker.
    pub fn disk_count(&self) -> usize
        ensures { result ≡ required_disks self.now }
    {
        self.backends as usize + self.worker_count() as usize
    }
}
