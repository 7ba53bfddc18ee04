//! What is listed, and whether it is what was wanted.
use crate::helpers::files::{lines, pages_shelf};
use crate::helpers::rounds::{Blocks, JobResult, ScanResult, scan_over};
use scan_rounds::{Ending, ScanSettings};
use std::alloc::Global;
use std::process::Abort;
use std::sync::Wait;
use std::test::Fail;
use std::thread::Threads;

/// The first block of a job, how many pages are listed, and how it ended.
pub(crate) type ExpectedJob = (u32, u32, Ending);

// Compares what became of a job.
fn check_job<R: Abort + AllocGlobal>(
    rt: &R,
    name: &str,
    job: &JobResult,
    wanted: ExpectedJob,
) -> Result<(), Fail> {
    let text = lines(rt.alloc(), wanted.0, wanted.1)?;
    assert_eq!(rt; job.text.as_slice(), text.as_slice(), "{name}");
    assert_eq!(rt; job.ending, wanted.2, "{name}");
    Ok(())
}

/// Compares what became of all jobs.
pub(crate) fn check_jobs<R: Abort + AllocGlobal>(
    rt: &R,
    name: &str,
    jobs: &[JobResult],
    wanted: &[ExpectedJob],
) -> Result<(), Fail> {
    assert_eq!(rt; jobs.len(), wanted.len(), "{name}");
    for (job, wanted) in jobs.iter().zip(wanted) {
        check_job(rt, name, job, *wanted)?;
    }
    Ok(())
}

/// Compares how many jobs ended in Unread, how many I/Os there were, and how many of them were the
/// workers'.
pub(crate) fn check_counts<R: Abort>(
    rt: &R,
    name: &str,
    outcome: &ScanResult,
    wanted: (u64, u128, u128),
) {
    let counts = (outcome.unread, outcome.incarnations, outcome.by_workers);
    assert_eq!(rt; counts, wanted, "{name}");
    let by_backends = wanted.1.saturating_sub(wanted.2);
    assert_eq!(rt; outcome.by_backends, by_backends, "{name}");
}

/// The jobs of each round.
pub(crate) fn rounds_of(alloc: Global, rounds: &[&[Blocks]]) -> Result<Vec<Vec<Blocks>>, Fail> {
    let mut all = Vec::new(alloc);
    for round in rounds {
        all.push(Vec::from_slice(alloc, round)?)?;
    }
    Ok(all)
}

/// Lists these rounds of a file of so many pages, of which one may be bad, where these reads fail.
pub(crate) fn scan_pages<R: Abort + AllocGlobal + Threads + Wait + Sync>(
    rt: &R,
    settings: &ScanSettings,
    (blocks, bad): (u32, Option<u32>),
    fail_reads: &[(u32, u64)],
    rounds: &[&[Blocks]],
) -> Result<ScanResult, Fail> {
    let rounds = rounds_of(rt.alloc(), rounds)?;
    let mut shelf = pages_shelf(rt.alloc(), blocks, bad, fail_reads)?;
    scan_over(rt, settings, &mut shelf, rounds.as_slice())
}
