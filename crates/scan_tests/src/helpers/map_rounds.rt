//! Rounds by a visibility map, over disks of a shelf in memory.
ghost use Rattle.std.specs.Prelude.{◌≡◌, ◌≤◌, ◌*◌, length, map, string_bytes};
ghost use Rattle.std.specs.List.{All};
ghost use Rattle.aio_disk.specs.Shelf.{shelf_told};
ghost use Rattle.scan_jobs.specs.Jobs.{IsNewJob};
ghost use Rattle.scan_settings.specs.Settings.{AreValidScanSettings};
ghost use Rattle.scan_rounds.specs.Scans.{IsScan};

use crate::helpers::opening::{is_in_range, open_disks, open_scan};
use crate::helpers::rounds::{Blocks, JobResult};
use aio_disk::{Disk, Shelf};
use page_check::World;
use scan_rounds::{Ending, Job, Scan, ScanSettings};
use std::alloc::Global;
use std::marker::Brand;
use std::process::Abort;
use std::sync::Wait;
use std::test::Fail;
use std::thread::Threads;
use vis_map::{Skip, VisMap};

/// What a scan by a map is asked for.
#[derive(Clone, Copy)]
pub(crate) struct MapScanRequest {
    /// For how many pages the map is opened, at most 65.
    pub pages: u32,
    /// The blocks that each round lists.
    pub blocks: Blocks,
}

/// What became of the map, and of the job of each round.
#[derive(Drop)]
pub(crate) struct MapScanResult {
    pub ending: Ending,
    pub warnings: Vec<u8>,
    /// How many jobs had ended in Unread before the first round.
    pub unread: u64,
    pub jobs: Vec<JobResult>,
    pub incarnations: u128,
}

// One round: by the map, where something is to be left out.
fn round_by_map<W: World + Send + Sync, D: Disk, R: Threads + Wait + Sync>(
    rt: &R,
    scan: &mut Scan<W, D>,
    map: &VisMap,
    skip: Option<Skip>,
    jobs: &mut [Job],
)
    requires scan { IsScan D.Disk W.World scan.old }
    requires few { (1 ≤ length jobs.old) × (length jobs.old ≤ length scan.old.backends.items) }
    requires fresh { All (IsNewJob W.relations) jobs.old }
    requires room { 64 ≤ scan.old.room }
    ensures scan { IsScan D.Disk W.World scan.new }
{
    match skip {
        Some(skip) => scan.round_filtered(rt, jobs, map, skip),
        None => scan.round(rt, jobs),
    }
}

// One round of a job for these blocks.
fn list_round<W: World + Send + Sync, D: Disk, R: Threads + Wait + Sync>(
    rt: &R,
    alloc: Global,
    scan: &mut Scan<W, D>,
    map: &VisMap,
    blocks: Blocks,
    skip: Option<Skip>,
) -> Result<JobResult, Fail>
    requires scan { IsScan D.Disk W.World scan.old }
    requires two { W.relations ≡ 2 }
    ensures scan { IsScan D.Disk W.World scan.new }
{
    let (first, count) = blocks;
    if count < 1 || count > 64 || first > 100000 || scan.room() < 64 || scan.backend_count() < 1 {
        return Err(Fail::from("no round"));
    }
    let mut job = Job::new(alloc);
    job.ask(0, first, count);
    let mut jobs = vec![in alloc; job]?;
    round_by_map(rt, scan, map, skip, jobs.as_mut_slice());
    let Job {
        text,
        warnings,
        tally,
        ending,
        ..
    } = jobs.pop().ok_or("no job")?;
    Ok(JobResult {
        text,
        warnings,
        tally,
        ending,
    })
}

// All rounds, one after the other.
fn list_rounds<W: World + Send + Sync, D: Disk, R: Threads + Wait + Sync>(
    rt: &R,
    alloc: Global,
    scan: &mut Scan<W, D>,
    map: &VisMap,
    blocks: Blocks,
    rounds: &[Option<Skip>],
) -> Result<Vec<JobResult>, Fail>
    requires scan { IsScan D.Disk W.World scan.old }
    requires two { W.relations ≡ 2 }
    ensures scan { IsScan D.Disk W.World scan.new }
{
    let mut all = Vec::new(alloc);
    for skip in rounds {
        all.push(list_round(rt, alloc, scan, map, blocks, *skip)?)?;
    }
    Ok(all)
}

// Reads the map, and lists the blocks by it.
fn read_and_list<W: World + Send + Sync, D: Disk, R: Threads + Wait + Sync>(
    rt: &R,
    alloc: Global,
    scan: &mut Scan<W, D>,
    asked: MapScanRequest,
    rounds: &[Option<Skip>],
) -> Result<MapScanResult, Fail>
    requires scan { IsScan D.Disk W.World scan.old }
    requires two { W.relations ≡ 2 }
    ensures scan { IsScan D.Disk W.World scan.new }
{
    if asked.pages > 65 || scan.room() < 65 {
        return Err(Fail::from("no map"));
    }
    let mut map = VisMap::open(alloc, asked.pages)?;
    let mut warnings = Vec::new(alloc);
    let ending = scan.map(rt, 1, &mut map, &mut warnings);
    let unread = scan.unread();
    let jobs = list_rounds(rt, alloc, scan, &map, asked.blocks, rounds)?;
    Ok(MapScanResult {
        ending,
        warnings,
        unread,
        jobs,
        incarnations: 0,
    })
}

// A scan over disks of the shelf, from its opening to its end.
fn scan_shelf<W: World + Send + Sync, S: Shelf, R: Threads + Wait + Sync>(
    rt: &R,
    alloc: Global,
    settings: &ScanSettings,
    shelf: &mut S,
    names: &[String],
    asked: MapScanRequest,
    rounds: &[Option<Skip>],
) -> Result<MapScanResult, Fail>
    requires settings { AreValidScanSettings settings.now }
    requires told { shelf_told (S.told shelf.old) (map string_bytes names.now) ≡ W.told }
    requires two { (W.relations ≡ length names.now) × (length names.now ≡ 2) }
    requires handles { settings.now.backends * settings.now.handles ≡ W.handles }
{
    let disks = open_disks(alloc, shelf, names, settings.disk_count())?;
    let settings = ScanSettings {
        segment: disks[0].segment(),
        ..*settings
    };
    let mut scan = open_scan::<W, S::Disk>(alloc, &settings, disks, None)?;
    let listed = read_and_list(rt, alloc, &mut scan, asked, rounds);
    let (totals, disks) = scan.finish();
    for disk in disks {
        shelf.take_back(disk);
    }
    let mut outcome = listed?;
    outcome.incarnations = totals.incarnations();
    Ok(outcome)
}

/// A scan of the file `f` by the map in the file `m`: a round for each of these, without what is
/// to be left out.
pub(crate) fn scan_by_map<S: Shelf, R: Abort + AllocGlobal + Threads + Wait + Sync>(
    rt: &R,
    settings: &ScanSettings,
    shelf: &mut S,
    asked: MapScanRequest,
    rounds: &[Option<Skip>],
) -> Result<MapScanResult, Fail> {
    let alloc = rt.alloc();
    assert!(rt; is_in_range(settings));
    let names = vec![in alloc;
        String::from_str(alloc, "f")?,
        String::from_str(alloc, "m")?,
    ]?;
    scan_shelf::<Brand, S, R>(rt, alloc, settings, shelf, names.as_slice(), asked, rounds)
}
