//! Reads that wait for each other at disks of one shelf.
use aioscan_cmd::Report;
use aioscan_fixtures::runs::{TestOutcome, run_shelf};
use blocking_disk::{BlockingShelf, ReadBarrier};
use fault_injection::MemSink;
use std::alloc::Global;
use std::process::Abort;
use std::sync::Wait;
use std::test::Fail;
use std::thread::Threads;

// The lines of so many relations of so many empty pages each.
fn lines_of(alloc: Global, relations: u32, blocks: u32) -> Result<String, Fail> {
    let mut text = String::new(alloc);
    for relation in 0..relations {
        for block in 0..blocks {
            writeln!(
                text,
                "page {relation} {block} lower 24 upper 8192 special 8192 items 0"
            )?;
        }
    }
    Ok(text)
}

// Runs over the shelf, and compares what is shown.
fn expect<R: Abort + AllocGlobal + Threads + Wait + Sync>(
    rt: &R,
    name: &str,
    mut shelf: BlockingShelf,
    line: &str,
    wanted: TestOutcome<'_>,
) -> Result<Report, Fail> {
    let alloc = rt.alloc();
    let mut out = MemSink::make(alloc, Vec::new(alloc));
    let mut err = MemSink::make(alloc, Vec::new(alloc));
    let report = run_shelf(rt, &mut shelf, line, &mut out, &mut err)?;
    assert_eq!(rt; err.bytes(), wanted.1.as_bytes(), "{name}");
    assert_eq!(rt; out.bytes(), wanted.0.as_bytes(), "{name}");
    assert_eq!(rt; report.status, wanted.2, "{name}");
    Ok(report)
}

// One thread alone would wait at block 1 until that read fails.
#[test]
fn a_worker_reads_at_the_same_time_as_another_actor(rt: HostRuntime) -> Result<(), Fail> {
    let shelf = BlockingShelf::new(rt.alloc(), 3)?;
    let line = "--workers 2 --backends 1 --combine 1 f";
    let text = lines_of(rt.alloc(), 1, 3)?;
    let report = expect(&rt, line, shelf, line, (text.as_str(), "", 0))?;
    assert!(&rt; report.by_workers >= 1 && report.by_backends >= 1);
    Ok(())
}

/// How many relations of how many blocks there are, from which block of each on its reads wait until
/// how many are under way, and how many reads workers make at least.
#[derive(Clone, Copy)]
struct Row {
    name: &'static str,
    line: &'static str,
    size: (u32, u32),
    from: u32,
    reads: u32,
    by_workers: u128,
}

// A backend reads the first block of a job by itself. Behind it the distance is 2, 4, 8, 16, so
// that blocks 1 and 2, 3 to 5, 6 to 10 and 11 to 19 are handed to the workers at once. A backend
// for which a worker reads makes no read, so only workers are counted where there are some. No run
// has more than 64 reads for workers: the queue is never full of what a backend has read already.
// Of the reads of a relation that are under way together its backend makes one at most.
const ROWS: [Row; 9] = [
    Row {
        name: "three workers",
        line: "--workers 3 --backends 1 --combine 1 f",
        size: (1, 16),
        from: 3,
        reads: 3,
        by_workers: 2,
    },
    Row {
        name: "nine workers",
        line: "--workers 9 --backends 1 --combine 1 --concurrency 32 --handles 32 f",
        size: (1, 32),
        from: 11,
        reads: 9,
        by_workers: 8,
    },
    // One backend lists a job after the other, here each of another relation.
    Row {
        name: "three workers for each of eight jobs",
        line: "--workers 3 --backends 1 --combine 1 a b c d e f g h",
        size: (8, 6),
        from: 3,
        reads: 3,
        by_workers: 16,
    },
    // In the second round each backend has a second job, for which it needs its seat of the queue.
    Row {
        name: "two backends that hand their second jobs' reads to six workers",
        line: "--workers 6 --backends 2 --combine 1 a b c d e f",
        size: (6, 6),
        from: 3,
        reads: 3,
        by_workers: 12,
    },
    Row {
        name: "two backends",
        line: "--method sync --backends 2 f",
        size: (1, 1024),
        from: 0,
        reads: 2,
        by_workers: 0,
    },
    // With four backends the first two rounds of shares have four jobs each.
    Row {
        name: "four backends",
        line: "--method sync --backends 4 f",
        size: (1, 1024),
        from: 0,
        reads: 4,
        by_workers: 0,
    },
    Row {
        name: "four backends in the second round",
        line: "--method sync --backends 4 f",
        size: (1, 1024),
        from: 256,
        reads: 4,
        by_workers: 0,
    },
    Row {
        name: "four backends beside a worker",
        line: "--workers 1 --backends 4 f",
        size: (1, 1024),
        from: 0,
        reads: 4,
        by_workers: 0,
    },
    Row {
        name: "sixteen backends",
        line: "--method sync --backends 16 f",
        size: (1, 1024),
        from: 0,
        reads: 16,
        by_workers: 0,
    },
];

#[test]
fn as_many_reads_at_the_same_time_as_actors(rt: HostRuntime) -> Result<(), Fail> {
    let alloc = rt.alloc();
    for row in ROWS {
        let (relations, blocks) = row.size;
        let barrier = ReadBarrier {
            from: row.from,
            after: blocks,
            reads: row.reads,
            turns: 1 << 24,
        };
        let shelf = BlockingShelf::with_barrier(alloc, blocks, barrier)?;
        let text = lines_of(alloc, relations, blocks)?;
        let report = expect(&rt, row.name, shelf, row.line, (text.as_str(), "", 0))?;
        assert!(&rt; report.by_workers >= row.by_workers, "{}", row.name);
    }
    Ok(())
}

// The line, from which block of 64 on reads wait until how many are under way, and what is said. A
// worker and a backend are two, and two backends read a relation each.
const TOO_FEW: [(&str, u32, u32, &str); 3] = [
    ("--method sync --backends 1 a", 0, 2, "unread page 0 0\n"),
    ("--method sync --backends 2 a b", 0, 2, "unread page 0 0\n"),
    (
        "--workers 1 --backends 1 --combine 1 a",
        3,
        3,
        "unread page 0 3\n",
    ),
];

#[test]
fn fewer_actors_than_reads_that_wait(rt: HostRuntime) -> Result<(), Fail> {
    let alloc = rt.alloc();
    for (line, from, reads, said) in TOO_FEW {
        let barrier = ReadBarrier {
            from,
            after: 64,
            reads,
            turns: 1 << 14,
        };
        let shelf = BlockingShelf::with_barrier(alloc, 64, barrier)?;
        let text = lines_of(alloc, 1, from)?;
        expect(&rt, line, shelf, line, (text.as_str(), said, 3))?;
    }
    Ok(())
}
