//! Reads that wait for each other at disks of one shelf.
use crate::helpers::checks::{check_jobs, rounds_of};
use crate::helpers::opening::USUAL;
use crate::helpers::rounds::{Blocks, scan_over};
use blocking_disk::{BlockingShelf, ReadBarrier};
use scan_rounds::{Ending, MethodKind, ScanSettings};
use std::test::Fail;

// One thread alone would wait at block 1 until that read fails; so would a backend whose
// second round finds the queue closed, or no seat of its own any more.
#[test]
fn a_worker_reads_at_the_same_time_as_another_actor(rt: HostRuntime) -> Result<(), Fail> {
    let settings = ScanSettings {
        workers: 2,
        backends: 1,
        combine: 1,
        ..USUAL
    };
    let mut shelf = BlockingShelf::new(rt.alloc(), 4)?;
    let rounds = rounds_of(rt.alloc(), &[&[(3, 1)], &[(0, 3)]])?;
    let outcome = scan_over(&rt, &settings, &mut shelf, rounds.as_slice())?;
    let wanted = [(3, 1, Ending::Pages), (0, 3, Ending::Pages)];
    check_jobs(&rt, "two rounds", outcome.jobs.as_slice(), &wanted)?;
    assert_eq!(&rt; outcome.unread, 0);
    assert!(&rt; outcome.by_workers >= 1 && outcome.by_backends >= 1);
    Ok(())
}

/// From which block of 256 on reads wait until how many of them are under way, and the rounds.
#[derive(Clone, Copy)]
struct Row {
    name: &'static str,
    settings: ScanSettings,
    from: u32,
    reads: u32,
    rounds: &'static [&'static [Blocks]],
}

// Each backend reads the first block of its job by itself.
const FOUR: ScanSettings = ScanSettings {
    method: MethodKind::Sync,
    backends: 4,
    ..USUAL
};

// A backend hands the blocks 3 to 5 of a job to the workers at once, and rests where one of them
// reads for it.
const THREE: ScanSettings = ScanSettings {
    workers: 3,
    backends: 1,
    combine: 1,
    ..USUAL
};

const ROWS: [Row; 4] = [
    Row {
        name: "four backends",
        settings: FOUR,
        from: 0,
        reads: 4,
        rounds: &[&[(0, 8), (64, 8), (128, 8), (192, 8)]],
    },
    Row {
        name: "four backends in a second round",
        settings: FOUR,
        from: 64,
        reads: 4,
        rounds: &[&[(0, 8)], &[(64, 8), (128, 8), (192, 8), (200, 8)]],
    },
    Row {
        name: "three workers",
        settings: THREE,
        from: 3,
        reads: 3,
        rounds: &[&[(0, 8)]],
    },
    Row {
        name: "three workers in a third round",
        settings: THREE,
        from: 131,
        reads: 3,
        rounds: &[&[(0, 8)], &[(64, 8)], &[(128, 8)]],
    },
];

#[test]
fn as_many_reads_at_the_same_time_as_actors(rt: HostRuntime) -> Result<(), Fail> {
    let alloc = rt.alloc();
    for row in ROWS {
        let barrier = ReadBarrier {
            from: row.from,
            after: 256,
            reads: row.reads,
            turns: 1 << 24,
        };
        let mut shelf = BlockingShelf::with_barrier(alloc, 256, barrier)?;
        let rounds = rounds_of(alloc, row.rounds)?;
        let outcome = scan_over(&rt, &row.settings, &mut shelf, rounds.as_slice())?;
        let mut wanted = Vec::new(alloc);
        for round in row.rounds {
            for (first, count) in *round {
                wanted.push((*first, *count, Ending::Pages))?;
            }
        }
        check_jobs(&rt, row.name, outcome.jobs.as_slice(), wanted.as_slice())?;
    }
    Ok(())
}
