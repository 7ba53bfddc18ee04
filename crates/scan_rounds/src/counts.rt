//! What a round counts: the lives that are left, and the jobs that ended in Unread.
ghost use Rattle.std.specs.Prelude.{◌≡◌, ◌≤◌, length};
ghost use Rattle.aio_disk.specs.Counts.{count_plus};
ghost use Rattle.scan_jobs.specs.Jobs.{unread_job_count, unread_ending_count};
ghost use Rattle.scan_rounds.specs.Rounds.{IsLeastRoom};

use crate::backend::Backend;
use aio_disk::Disk;
use page_check::World;
use scan_jobs::{Ending, Job};

/// What a scan counts over its rounds.
#[derive(Clone, Copy)]
pub(crate) struct Counts {
    /// The least room of the backends.
    pub(crate) room: u64,
    /// How many jobs have ended in Unread.
    pub(crate) unread: u64,
}

/// The count with one more where this is Unread.
pub(crate) fn count_one(count: u64, ending: Ending) -> u64
    ensures { result ≡ count_plus (unread_ending_count ending) count }
{
    match ending {
        Ending::Unread(_) => count.saturating_add(1),
        _ => count,
    }
}

// The count with one more for each job that ended in Unread.
pub(crate) fn count_unread(mut count: u64, jobs: &[Job]) -> u64
    ensures { result ≡ count_plus (unread_job_count jobs.now) count }
{
    for job in jobs {
        count = count_one(count, job.ending);
    }
    count
}

// The least room of these backends.
pub(crate) fn least_room<W: World, D: Disk>(backends: &[Backend<W, D>]) -> u64
    requires some { 1 ≤ length backends.now }
    ensures least { IsLeastRoom backends.now result }
{
    let mut least = u64::MAX;
    for backend in backends {
        least = least.min(backend.disk_actor.actor.room());
    }
    least
}
