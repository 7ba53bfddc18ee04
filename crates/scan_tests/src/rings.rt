//! Scans by rings.
use crate::helpers::checks::{check_jobs, rounds_of};
use crate::helpers::files::{first_blocks_read, pages_shelf};
use crate::helpers::opening::USUAL;
use crate::helpers::rounds::{Blocks, ScanResult, scan_over};
use scan_rounds::{Ending, MethodKind, ScanSettings};
use std::alloc::Global;
use std::process::Abort;
use std::sync::Wait;
use std::test::Fail;
use std::thread::Threads;

// Lists these rounds of a file of 100 pages: what became of the jobs, and the reads from this block
// on.
fn list_rounds<R: Abort + AllocGlobal + Threads + Wait + Sync>(
    rt: &R,
    settings: &ScanSettings,
    rounds: &[&[Blocks]],
    from: u32,
) -> Result<(ScanResult, Vec<u32>), Fail> {
    let rounds = rounds_of(rt.alloc(), rounds)?;
    let mut shelf = pages_shelf(rt.alloc(), 100, None, &[])?;
    let outcome = scan_over(rt, settings, &mut shelf, rounds.as_slice())?;
    Ok((outcome, first_blocks_read(rt.alloc(), &shelf, from)?))
}

// The blocks in the order of the reads of a backend without a ring, which lists the same rounds.
fn blocks_in_turn<R: Abort + AllocGlobal + Threads + Wait + Sync>(
    rt: &R,
    ring: &ScanSettings,
    rounds: &[&[Blocks]],
    from: u32,
) -> Result<Vec<u32>, Fail> {
    let sync = ScanSettings {
        method: MethodKind::Sync,
        ..*ring
    };
    let (_, blocks) = list_rounds(rt, &sync, rounds, from)?;
    Ok(blocks)
}

// One handle: at most one read is in the ring, so that any order gives the same log.
#[test]
fn one_backend_reads_by_a_ring_as_without(rt: HostRuntime) -> Result<(), Fail> {
    let settings = ScanSettings {
        method: MethodKind::Ring,
        backends: 1,
        handles: 1,
        ..USUAL
    };
    let wanted = blocks_in_turn(&rt, &settings, &[&[(10, 50)]], 0)?;
    let (outcome, blocks) = list_rounds(&rt, &settings, &[&[(10, 50)]], 0)?;
    check_jobs(
        &rt,
        "ring",
        outcome.jobs.as_slice(),
        &[(10, 50, Ending::Pages)],
    )?;
    assert_eq!(&rt; blocks.as_slice(), wanted.as_slice());
    Ok(())
}

// Several reads are in the ring together, and it takes others before the oldest: in the second
// round too, for which the backend has its ring again.
#[test]
fn a_ring_reads_in_its_own_order(rt: HostRuntime) -> Result<(), Fail> {
    let settings = ScanSettings {
        method: MethodKind::Ring,
        backends: 1,
        combine: 1,
        full: true,
        ..USUAL
    };
    let in_turn = blocks_in_turn(&rt, &settings, &[&[(20, 20)], &[(60, 40)]], 60)?;
    let (outcome, mut blocks) = list_rounds(&rt, &settings, &[&[(20, 20)], &[(60, 40)]], 60)?;
    let wanted = [(20, 20, Ending::Pages), (60, 40, Ending::Pages)];
    check_jobs(&rt, "ring", outcome.jobs.as_slice(), &wanted)?;
    assert!(&rt; blocks.as_slice() != in_turn.as_slice());
    blocks.sort()?;
    assert_eq!(&rt; blocks.as_slice(), in_turn.as_slice());
    Ok(())
}
