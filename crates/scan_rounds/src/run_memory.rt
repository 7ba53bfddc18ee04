//! The memory of a run.
ghost use Rattle.std.specs.Prelude.{◌≡◌, ◌≤◌, length, IfOk};
ghost use Rattle.std.specs.List.{All};
ghost use Rattle.scan_rounds.specs.Exchanges.{AreClientsOf};
ghost use Rattle.scan_rounds.specs.RunLeads.{AreIdle, IsRunMemory};

use crate::share::{RunTerms, ShareClient, ShareHandoff};
use aio_disk::Disk;
use handoff::Handoff;
use page_check::World;
use scan_jobs::Job;
use std::alloc::{AllocError, Global};

/// How many jobs of 64 blocks are in a share at most. To give a share to a thread that sleeps, and
/// to wait for it, takes some 50 microseconds, and a job some 200; the text of each is kept until it
/// is written.
const SHARE_JOBS: usize = 8;

/// How many places for jobs a share has, with so many backends and workers. One thread alone waits
/// for nobody, and one text at a time stays in its cache.
pub(crate) fn share_places(backends: usize, workers: usize) -> usize
    ensures { 1 ≤ result }
{
    if backends == 1 && workers == 0 {
        1
    } else {
        SHARE_JOBS
    }
}

/// All memory that a run takes, but for the texts of jobs.
#[derive(Drop)]
pub(crate) struct RunMemory<W: World, D: Disk> {
    /// One for each backend.
    pub(crate) handoffs: Vec<ShareHandoff<W, D>>,
    pub(crate) clients: Vec<ShareClient<W, D>>,
    /// A list of jobs for each backend, of as many places each.
    pub(crate) lists: Vec<Vec<Job>>,
    /// A further list, for the jobs that were taken back last.
    pub(crate) spare: Vec<Job>,
    pub(crate) places: usize,
}

// So many jobs that ask for nothing.
fn open_jobs(alloc: Global, count: usize) -> Result<Vec<Job>, AllocError>
    ensures { IfOk result (λ j. length j.items ≡ count) }
{
    let mut jobs = Vec::with_capacity(alloc, count)?;
    for _ in 0..count {
        jobs.push_reserved(Job::new(alloc));
    }
    Ok(jobs)
}

// So many lists of so many jobs.
fn open_lists(alloc: Global, count: usize, places: usize) -> Result<Vec<Vec<Job>>, AllocError>
    ensures count { IfOk result (λ l. length l.items ≡ count) }
    ensures places { IfOk result (λ l. All (λ j. length j.items ≡ places) l.items) }
{
    let mut lists = Vec::with_capacity(alloc, count)?;
    for _ in 0..count {
        lists.push_reserved(open_jobs(alloc, places)?);
    }
    Ok(lists)
}

impl<W: World, D: Disk> RunMemory<W, D> {
    /// The memory of a run of so many backends under these terms, whose shares have at most so many
    /// jobs.
    pub(crate) fn open(
        alloc: Global,
        terms: &RunTerms<W>,
        count: usize,
        places: usize,
    ) -> Result<RunMemory<W, D>, AllocError>
        requires { 1 ≤ places }
        ensures { IfOk result (IsRunMemory terms.now count) }
    {
        let mut handoffs = Vec::with_capacity(alloc, count)?;
        let mut clients = Vec::with_capacity(alloc, count)?;
        for _ in 0..count {
            let (handoff, client) = Handoff::open(alloc, terms)?;
            handoffs.push_reserved(handoff);
            clients.push_reserved(client);
        }
        Ok(RunMemory {
            handoffs,
            clients,
            lists: open_lists(alloc, count, places)?,
            spare: open_jobs(alloc, places)?,
            places,
        })
    }
}
