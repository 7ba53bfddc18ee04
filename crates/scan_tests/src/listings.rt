//! What jobs list where nothing fails.
use crate::helpers::checks::{check_jobs, rounds_of, scan_pages};
use crate::helpers::files::{lines, pages_shelf};
use crate::helpers::opening::{USUAL, one_handle};
use crate::helpers::rounds::{Blocks, JobResult, ScanResult, scan_at, scan_over};
use heap_scan::PageSums;
use page_fixtures::files::{STEADY, one_file, shelf_of};
use page_fixtures::pages::{EMPTY, Parts, ZEROS, bytes_of};
use scan_rounds::{Ending, MethodKind, ScanSettings};
use std::alloc::Global;
use std::process::Abort;
use std::sync::Wait;
use std::test::Fail;
use std::thread::Threads;

#[test]
fn two_jobs_by_each_method(rt: HostRuntime) -> Result<(), Fail> {
    let wanted = [(0, 64, Ending::Pages), (64, 36, Ending::Pages)];
    // At most so many I/Os are the workers'.
    for (name, method, by_workers) in [
        ("sync", MethodKind::Sync, 0u128),
        ("worker", MethodKind::Worker, 14),
        ("ring", MethodKind::Ring, 0),
    ] {
        let settings = ScanSettings { method, ..USUAL };
        let outcome = scan_pages(&rt, &settings, (100, None), &[], &[&[(0, 64), (64, 36)]])?;
        check_jobs(&rt, name, outcome.jobs.as_slice(), &wanted)?;
        assert_eq!(&rt; (outcome.unread, outcome.incarnations), (0, 14), "{name}");
        assert!(&rt; outcome.by_workers <= by_workers, "{name}");
        let by_all = outcome.by_workers.saturating_add(outcome.by_backends);
        assert_eq!(&rt; by_all, 14, "{name}");
    }
    Ok(())
}

// All texts, one behind the other.
fn joined(alloc: Global, jobs: &[JobResult]) -> Result<Vec<u8>, Fail> {
    let mut text = Vec::new(alloc);
    for job in jobs {
        text.extend_from_slice(job.text.as_slice())?;
    }
    Ok(text)
}

// Jobs of up to 64 blocks from block 0 on.
fn jobs_of(alloc: Global, blocks: u32) -> Result<Vec<Blocks>, Fail> {
    let mut jobs = Vec::new(alloc);
    for job in 0..blocks.div_ceil(64) {
        let first = job.saturating_mul(64);
        jobs.push((first, blocks.saturating_sub(first).min(64)))?;
    }
    Ok(jobs)
}

// The same in rounds of so many.
fn rounds_of_each(alloc: Global, blocks: u32, each: usize) -> Result<Vec<Vec<Blocks>>, Fail> {
    let mut rounds = Vec::new(alloc);
    for round in jobs_of(alloc, blocks)?.as_slice().chunks(each.max(1)) {
        rounds.push(Vec::from_slice(alloc, round)?)?;
    }
    Ok(rounds)
}

// Lists so many pages in rounds of one job a backend, and compares all text with their lines.
fn check_listing<R: Abort + AllocGlobal + Threads + Wait + Sync>(
    rt: &R,
    name: &str,
    settings: &ScanSettings,
    blocks: u32,
) -> Result<ScanResult, Fail> {
    let rounds = rounds_of_each(rt.alloc(), blocks, settings.backends as usize)?;
    let mut shelf = pages_shelf(rt.alloc(), blocks, None, &[])?;
    let outcome = scan_over(rt, settings, &mut shelf, rounds.as_slice())?;
    let text = joined(rt.alloc(), outcome.jobs.as_slice())?;
    let wanted = lines(rt.alloc(), 0, blocks)?;
    assert_eq!(rt; text.as_slice(), wanted.as_slice(), "{name}");
    assert_eq!(rt; outcome.unread, 0, "{name}");
    Ok(outcome)
}

/// The settings, how many blocks, and the least and the most I/Os, and the most of workers.
type Row = (ScanSettings, u32, (u128, u128), u128);

const ONE_BY_ONE: Row = (
    ScanSettings {
        workers: 1,
        handles: 64,
        concurrency: 64,
        combine: 1,
        ..USUAL
    },
    512,
    (512, 512),
    512,
);

const ALL_ACTORS: Row = (
    ScanSettings {
        workers: 32,
        backends: 16,
        buffers: 16,
        ..USUAL
    },
    1024,
    (64, 1024),
    1024,
);

const RINGS: Row = (
    ScanSettings {
        method: MethodKind::Ring,
        backends: 16,
        combine: 3,
        buffers: 16,
        ..USUAL
    },
    1024,
    (342, 1024),
    0,
);

// Compares the text, and how many I/Os there were.
fn check_row<R: Abort + AllocGlobal + Threads + Wait + Sync>(
    rt: &R,
    name: &str,
    row: Row,
) -> Result<(), Fail> {
    let (settings, blocks, (least, most), by_workers) = row;
    let outcome = check_listing(rt, name, &settings, blocks)?;
    let count = outcome.incarnations;
    assert!(rt; least <= count && count <= most, "{name}");
    assert!(rt; outcome.by_workers <= by_workers, "{name}");
    Ok(())
}

#[test]
fn pages_one_by_one_by_64_handles(rt: HostRuntime) -> Result<(), Fail> {
    check_row(&rt, "one by one", ONE_BY_ONE)
}

#[test]
fn all_actors_over_sixteen_frames(rt: HostRuntime) -> Result<(), Fail> {
    check_row(&rt, "all actors", ALL_ACTORS)
}

#[test]
fn rings_over_sixteen_frames(rt: HostRuntime) -> Result<(), Fail> {
    check_row(&rt, "rings", RINGS)
}

// Lists 130 pages 25 times under each of these settings.
fn check_sizes<R: Abort + AllocGlobal + Threads + Wait + Sync>(
    rt: &R,
    name: &str,
    method: MethodKind,
    batch: bool,
) -> Result<(), Fail> {
    for (backends, handles, combine) in [(1, 1, 1), (2, 16, 16), (3, 4, 5)] {
        let settings = ScanSettings {
            method,
            batch,
            backends,
            handles,
            combine,
            full: batch,
            ..USUAL
        };
        for _ in 0..25 {
            check_listing(rt, name, &settings, 130)?;
        }
    }
    Ok(())
}

#[test]
fn the_same_text_by_sync(rt: HostRuntime) -> Result<(), Fail> {
    check_sizes(&rt, "sync", MethodKind::Sync, false)
}

#[test]
fn the_same_text_by_sync_in_batches(rt: HostRuntime) -> Result<(), Fail> {
    check_sizes(&rt, "sync, in batches", MethodKind::Sync, true)
}

#[test]
fn the_same_text_by_workers(rt: HostRuntime) -> Result<(), Fail> {
    check_sizes(&rt, "worker", MethodKind::Worker, false)
}

#[test]
fn the_same_text_by_workers_in_batches(rt: HostRuntime) -> Result<(), Fail> {
    check_sizes(&rt, "worker, in batches", MethodKind::Worker, true)
}

// Compares the sums of the jobs.
fn check_tallies<R: Abort>(rt: &R, jobs: &[JobResult], wanted: &[PageSums]) {
    assert_eq!(rt; jobs.len(), wanted.len());
    for (job, sums) in jobs.iter().zip(wanted) {
        assert_eq!(rt; job.tally, *sums);
    }
}

/// A page with three line pointers: lower 36, upper and special 8192.
const THREE_ITEMS: Parts<'static> = &[(12, &[36, 0, 0, 32, 0, 32, 4, 32])];

// The second job ends behind block 4.
#[test]
fn jobs_count_their_pages(rt: HostRuntime) -> Result<(), Fail> {
    let pages = bytes_of(rt.alloc(), &[EMPTY, ZEROS, THREE_ITEMS, ZEROS, THREE_ITEMS])?;
    let rounds = rounds_of(rt.alloc(), &[&[(0, 4), (2, 64)]])?;
    let mut shelf = shelf_of(rt.alloc(), one_file(rt.alloc(), "f", pages)?, STEADY)?;
    let outcome = scan_over(&rt, &USUAL, &mut shelf, rounds.as_slice())?;
    let first = PageSums {
        pages: 4,
        zero: 2,
        items: 3,
        faults: 0,
    };
    let second = PageSums {
        pages: 3,
        zero: 1,
        items: 6,
        faults: 0,
    };
    check_tallies(&rt, outcome.jobs.as_slice(), &[first, second]);
    Ok(())
}

// One handle of 64 lives more: a block each.
#[test]
fn a_scan_at_the_last_generations(rt: HostRuntime) -> Result<(), Fail> {
    let rounds = rounds_of(rt.alloc(), &[&[(0, 64)]])?;
    let mut shelf = pages_shelf(rt.alloc(), 64, None, &[])?;
    let settings = one_handle(MethodKind::Sync);
    let start = (1u64 << 58) - 65;
    let outcome = scan_at(&rt, &settings, &mut shelf, start, rounds.as_slice())?;
    let wanted = [(0, 64, Ending::Pages)];
    check_jobs(&rt, "64 blocks", outcome.jobs.as_slice(), &wanted)?;
    assert_eq!(&rt; outcome.incarnations, 64);
    assert_eq!(&rt; outcome.rooms, (64, 0));
    Ok(())
}
