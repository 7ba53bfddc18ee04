//! Rounds of jobs over disks of a shelf in memory.
ghost use Rattle.std.specs.Prelude.{◌≡◌, ◌*◌, ◌^◌, ◌<◌, length, map, IfOk, IfSome};
ghost use Rattle.std.specs.Prelude.{string_bytes};
ghost use Rattle.std.specs.List.{All};
ghost use Rattle.aio_disk.specs.Shelf.{shelf_told};
ghost use Rattle.scan_jobs.specs.Jobs.{IsNewJob};
ghost use Rattle.scan_settings.specs.Settings.{AreValidScanSettings};
ghost use Rattle.scan_rounds.specs.Scans.{IsScan};

use crate::helpers::opening::{is_in_range, open_disks, open_scan};
use aio_disk::{Disk, Shelf};
use heap_scan::PageSums;
use page_check::World;
use scan_rounds::{Ending, Job, Scan, ScanSettings};
use std::alloc::Global;
use std::marker::Brand;
use std::process::Abort;
use std::sync::Wait;
use std::test::Fail;
use std::thread::Threads;

/// Some blocks of relation 0: the first, and how many.
pub(crate) type Blocks = (u32, u32);

/// What became of a job.
#[derive(Drop)]
pub(crate) struct JobResult {
    pub text: Vec<u8>,
    pub warnings: Vec<u8>,
    pub tally: PageSums,
    pub ending: Ending,
}

/// What became of all jobs, and the numbers of the end.
#[derive(Drop)]
pub(crate) struct ScanResult {
    pub jobs: Vec<JobResult>,
    /// The room before the first round and behind the last.
    pub rooms: (u64, u64),
    pub unread: u64,
    pub incarnations: u128,
    pub by_workers: u128,
    pub by_backends: u128,
}

// A job for the blocks, where they are some that a job may have.
fn job_for(alloc: Global, blocks: Blocks) -> Option<Job>
    ensures { IfSome result (IsNewJob 1) }
{
    let (first, count) = blocks;
    if count < 1 || count > 64 || first > 1000 {
        return None;
    }
    let mut job = Job::new(alloc);
    job.ask(0, first, count);
    Some(job)
}

// Jobs for these blocks.
fn jobs_for(alloc: Global, round: &[Blocks]) -> Result<Vec<Job>, Fail>
    ensures fresh { IfOk result (λ jobs. All (IsNewJob 1) jobs.items) }
    ensures count { IfOk result (λ jobs. length jobs.items ≡ length round.now) }
{
    let mut jobs = Vec::new(alloc);
    for blocks in round {
        jobs.push(job_for(alloc, *blocks).ok_or("no job")?)?;
    }
    Ok(jobs)
}

// One round, and what became of its jobs.
fn list_round<W: World + Send + Sync, D: Disk, R: Threads + Wait + Sync>(
    rt: &R,
    alloc: Global,
    scan: &mut Scan<W, D>,
    round: &[Blocks],
    all: &mut Vec<JobResult>,
) -> Result<(), Fail>
    requires scan { IsScan D.Disk W.World scan.old }
    requires one { W.relations ≡ 1 }
    ensures scan { IsScan D.Disk W.World scan.new }
{
    let mut jobs = jobs_for(alloc, round)?;
    if jobs.is_empty() || jobs.len() > scan.backend_count() || scan.room() < 64 {
        return Err(Fail::from("no round"));
    }
    scan.round(rt, jobs.as_mut_slice());
    for job in jobs {
        let Job {
            text,
            warnings,
            tally,
            ending,
            ..
        } = job;
        all.push(JobResult {
            text,
            warnings,
            tally,
            ending,
        })?;
    }
    Ok(())
}

// All rounds, one after the other.
fn list_rounds<W: World + Send + Sync, D: Disk, R: Threads + Wait + Sync>(
    rt: &R,
    alloc: Global,
    scan: &mut Scan<W, D>,
    rounds: &[Vec<Blocks>],
    all: &mut Vec<JobResult>,
) -> Result<(), Fail>
    requires scan { IsScan D.Disk W.World scan.old }
    requires one { W.relations ≡ 1 }
    ensures scan { IsScan D.Disk W.World scan.new }
{
    for round in rounds {
        list_round(rt, alloc, scan, round.as_slice(), all)?;
    }
    Ok(())
}

// A scan over disks of the shelf, from its opening to its end.
fn scan_shelf<W: World + Send + Sync, S: Shelf, R: Threads + Wait + Sync>(
    rt: &R,
    alloc: Global,
    settings: &ScanSettings,
    shelf: &mut S,
    names: &[String],
    start: Option<u64>,
    rounds: &[Vec<Blocks>],
) -> Result<ScanResult, Fail>
    requires settings { AreValidScanSettings settings.now }
    requires told { shelf_told (S.told shelf.old) (map string_bytes names.now) ≡ W.told }
    requires one { (W.relations ≡ length names.now) × (length names.now ≡ 1) }
    requires handles { settings.now.backends * settings.now.handles ≡ W.handles }
    requires start { IfSome start (λ s. s < 2 ^ 58) }
{
    let disks = open_disks(alloc, shelf, names, settings.disk_count())?;
    let settings = ScanSettings {
        segment: disks[0].segment(),
        ..*settings
    };
    let mut scan = open_scan::<W, S::Disk>(alloc, &settings, disks, start)?;
    let before = scan.room();
    let mut jobs = Vec::new(alloc);
    let listed = list_rounds(rt, alloc, &mut scan, rounds, &mut jobs);
    let rooms = (before, scan.room());
    let unread = scan.unread();
    let (totals, disks) = scan.finish();
    for disk in disks {
        shelf.take_back(disk);
    }
    listed?;
    Ok(ScanResult {
        jobs,
        rooms,
        unread,
        incarnations: totals.incarnations(),
        by_workers: totals.by_runners(),
        by_backends: totals.by_backends(),
    })
}

// The same, where the shelf fixes what all objects of the scan agree on.
fn scan_from<S: Shelf, R: Abort + AllocGlobal + Threads + Wait + Sync>(
    rt: &R,
    settings: &ScanSettings,
    shelf: &mut S,
    start: Option<u64>,
    rounds: &[Vec<Blocks>],
) -> Result<ScanResult, Fail>
    requires { IfSome start (λ s. s < 2 ^ 58) }
{
    let alloc = rt.alloc();
    assert!(rt; is_in_range(settings));
    let names = vec![in alloc; String::from_str(alloc, "f")?]?;
    scan_shelf::<Brand, S, R>(rt, alloc, settings, shelf, names.as_slice(), start, rounds)
}

/// A scan of the file `f` in these rounds.
pub(crate) fn scan_over<S: Shelf, R: Abort + AllocGlobal + Threads + Wait + Sync>(
    rt: &R,
    settings: &ScanSettings,
    shelf: &mut S,
    rounds: &[Vec<Blocks>],
) -> Result<ScanResult, Fail> {
    scan_from(rt, settings, shelf, None, rounds)
}

/// The same, with the generations of its handles from `start` on.
pub(crate) fn scan_at<S: Shelf, R: Abort + AllocGlobal + Threads + Wait + Sync>(
    rt: &R,
    settings: &ScanSettings,
    shelf: &mut S,
    start: u64,
    rounds: &[Vec<Blocks>],
) -> Result<ScanResult, Fail>
    requires { start < 2 ^ 58 }
{
    scan_from(rt, settings, shelf, Some(start), rounds)
}
