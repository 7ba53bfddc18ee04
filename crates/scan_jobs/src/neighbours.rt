//! Jobs that one stream can read.
ghost use Rattle.std.specs.Prelude.{◌≡◌, ◌≤◌, ◌+◌, ◌*◌, ◌^◌, ℕ, None, length, take};
ghost use Rattle.std.specs.List.{All};
ghost use Rattle.heap_scan.specs.Job.{job_entries};
ghost use Rattle.scan_jobs.specs.StreamBlocks.{IsStreamOfJobs};
ghost use Rattle.scan_jobs.specs.Jobs.{IsNewJob, entries_of_jobs};

use crate::job::Job;
use crate::map_filter::MapFilter;
use crate::source::Blocks;

/// How many blocks a stream reads at most. The jobs of a share ask for 512 at most.
const STREAM_BLOCKS: u32 = 4096;

// How many of these jobs ask for the blocks of the relation from this one on, one job after the
// other, and for how many blocks, within so many.
fn following(jobs: &[Job], relation: u32, next: u64, room: u32) -> (usize, u32)
    requires fresh { (relations : ℕ) × All (IsNewJob relations) jobs.now }
    requires next { next ≤ 2 ^ 32 }
    ensures many { result.0 ≤ length jobs.now }
    ensures entries { job_entries relation next result.1 ≡ entries_of_jobs None (take result.0
        jobs.now) }
    ensures few { (result.1 ≤ 64 * result.0) × (result.1 ≤ room) }
    ensures within { next + result.1 ≤ 2 ^ 32 }
{
    let Some((job, later)) = jobs.split_first() else {
        return (0, 0);
    };
    if job.relation != relation || job.first as u64 != next || job.count > room {
        return (0, 0);
    }
    let behind = next + job.count as u64;
    let (many, blocks) = following(later, relation, behind, room - job.count);
    (many + 1, blocks + job.count)
}

/// How many of these jobs, from the first on, one stream reads, and which blocks it is to give.
///
/// They ask for neighbouring blocks of one relation. Where blocks are left out, it is one job.
pub fn neighbouring_jobs<'m>(jobs: &[Job], by_map: Option<MapFilter<'m>>) -> (usize, Blocks<'m>)
    requires some { 1 ≤ length jobs.now }
    requires fresh { (relations : ℕ) × All (IsNewJob relations) jobs.now }
    ensures many { (1 ≤ result.0) × (result.0 ≤ length jobs.now) }
    ensures by_map { result.1.by_map ≡ by_map.entry }
    ensures stream { IsStreamOfJobs result.1 (take result.0 jobs.now) }
{
    let Some((job, later)) = jobs.split_first() else {
        unreachable!()
    };
    let (many, count) = match by_map {
        Some(_) => (0, 0),
        None => {
            let behind = job.first as u64 + job.count as u64;
            following(later, job.relation, behind, STREAM_BLOCKS - job.count)
        }
    };
    let blocks = Blocks {
        relation: job.relation,
        first: job.first,
        count: count + job.count,
        by_map,
    };
    (many + 1, blocks)
}
