//! Reads that fail or are short, and what is listed before them.
use aioscan_cmd::Outcome;
use aioscan_fixtures::runs::{FinishedRun, run_over};
use page_fixtures::files::{Faults, STEADY};
use row_fixtures::files::empty_file;
use row_fixtures::listings::empty_lines;
use std::test::Fail;

/// The reads that fail, and how much the first reads give at most.
type Fails = (&'static [(u32, u64)], &'static [u32]);

const SCRIPTS: [Fails; 6] = [
    (&[(0, 1)], &[]),
    (&[(0, 2)], &[]),
    (&[(0, 3)], &[]),
    (&[(0, 4)], &[]),
    (&[], &[1, 2, 2]),
    (&[(0, 3)], &[1, 1]),
];

// Whether eight pages are listed, or those before the one that could not be read.
fn is_listed_so_far<R: AllocGlobal>(rt: &R, done: &FinishedRun) -> Result<bool, Fail> {
    let listed = match done.report.outcome {
        Outcome::Done => 8,
        Outcome::Unread(0, block) => block,
        _ => return Ok(false),
    };
    let text = empty_lines(rt.alloc(), 0, listed)?;
    Ok(listed <= 8 && done.out.bytes() == text.as_str().as_bytes())
}

#[test]
fn reads_beside_workers_that_fail(rt: HostRuntime) -> Result<(), Fail> {
    for (reads, shorts) in SCRIPTS {
        let faults = Faults {
            reads,
            shorts,
            ..STEADY
        };
        for turn in 0..100 {
            let done = run_over(&rt, empty_file(rt.alloc(), 8)?, faults, "f")?;
            assert!(rt;
                is_listed_so_far(&rt, &done)?,
                "{reads:?} {shorts:?}, turn {turn}"
            );
        }
    }
    Ok(())
}
