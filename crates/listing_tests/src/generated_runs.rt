//! Generated pages.
use aioscan_fixtures::runs::{TestOutcome, check_outcome, check_over, run};
use page_fixtures::files::{STEADY, one_file};
use row_fixtures::files::empty_file;
use std::process::Abort;
use std::sync::Wait;
use std::test::Fail;
use std::thread::Threads;

// A run over generated pages, beside a shelf that has a file of one page, which is not read.
fn check_generated<R: Abort + AllocGlobal + Threads + Wait + Sync>(
    rt: &R,
    line: &str,
    wanted: TestOutcome<'_>,
) -> Result<(), Fail> {
    let done = check_over(rt, empty_file(rt.alloc(), 1)?, STEADY, line, wanted)?;
    assert_eq!(rt; done.shelf.log().len(), 0, "{line}");
    Ok(())
}

const ROWS: [(&str, &str); 10] = [
    ("--make 1", "pages 1 new 0 items 0\n"),
    ("--make 5", "pages 5 new 0 items 10\n"),
    ("--make 7", "pages 7 new 1 items 10\n"),
    ("--make 10", "pages 10 new 1 items 19\n"),
    ("--make 4096", "pages 4096 new 585 items 7020\n"),
    ("--make=10 --method sync", "pages 10 new 1 items 19\n"),
    ("--make 10 --method ring", "pages 10 new 1 items 19\n"),
    (
        "--make 10 --backends 5 --workers 1",
        "pages 10 new 1 items 19\n",
    ),
    (
        "--make 10 --combine 1 --buffers 16 --batch",
        "pages 10 new 1 items 19\n",
    ),
    ("--full --handles 1 --make 10", "pages 10 new 1 items 19\n"),
];

#[test]
fn sums_of_generated_pages(rt: HostRuntime) -> Result<(), Fail> {
    for (line, wanted) in ROWS {
        check_generated(&rt, line, (wanted, "", 0))?;
    }
    Ok(())
}

#[test]
fn totals_of_generated_pages(rt: HostRuntime) -> Result<(), Fail> {
    let totals = "incarnations 4 workers 0 backends 4\n";
    let wanted = ("pages 10 new 1 items 19\n", totals, 0);
    check_generated(&rt, "--make 10 --method sync --backends 1 --stats", wanted)
}

#[test]
fn totals_where_the_output_fails(rt: HostRuntime) -> Result<(), Fail> {
    let line = "--make 10 --method sync --backends 1 --stats";
    let files = one_file(rt.alloc(), "f", Vec::new(rt.alloc()))?;
    let done = run(&rt, files, STEADY, line, (&[(1, 0)], &[]))?;
    let said = "cannot write\nincarnations 4 workers 0 backends 4\n";
    check_outcome(line, &done, ("", said, 4))
}
