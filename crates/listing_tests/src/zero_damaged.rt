//! Invalid pages that are listed as zeros, with a warning each.
use crate::random_requests::{check_damaged_files, check_requests};
use aioscan_cmd::Line;
use aioscan_fixtures::rows::check_rows;
use aioscan_fixtures::runs::{check_outcome, check_over, run};
use page_check::DamagedPages;
use page_fixtures::files::{STEADY, one_file};
use row_fixtures::files::pages_file;
use row_fixtures::listings::listing_of;
use std::test::Fail;

const ROWS: [&str; 5] = [
    "zeros in place of an invalid page | f:12EFE | --zero-damaged --from 10 --to 13 f | \
     0/10-11 0/12=new 0/13 | zeroed page 0 12 | 0",
    "the same by one read | f:12EFE | \
     --zero-damaged --method sync --backends 1 --full --from 10 --to 13 f | \
     0/10-11 0/12=new 0/13 | zeroed page 0 12 | 0 | 0/10+4=4",
    "without the flag it ends the run | f:12EFE | --from 10 --to 13 f | 0/10-11 | \
     invalid page 0 12 | 1",
    "a zeroed page stays in no frame and is read each time | f:12EFE | \
     --zero-damaged --method sync --backends 1 --stats --from 12 --to 12 f f | \
     0/12=new 0/12=new | zeroed page 0 12; zeroed page 0 12; totals 2 | 0",
    "a page of zeros is no warning | f:Z | --zero-damaged f | 0/0=new | | 0",
];

#[test]
fn zeros_and_warnings(rt: HostRuntime) -> Result<(), Fail> {
    check_rows(&rt, "", &ROWS)
}

#[test]
fn generated_pages_have_no_warning(rt: HostRuntime) -> Result<(), Fail> {
    let wanted = ("pages 10 new 1 items 19\n", "", 0);
    let no_file = Vec::new(rt.alloc());
    let done = check_over(&rt, no_file, STEADY, "--zero-damaged --make 10", wanted)?;
    assert_eq!(rt; done.report.line, Line::Whole);
    Ok(())
}

#[test]
fn an_error_stream_that_fails_at_the_first_warning(rt: HostRuntime) -> Result<(), Fail> {
    let alloc = rt.alloc();
    let files = one_file(alloc, "f", pages_file(alloc, "DE")?)?;
    let line = "--zero-damaged --method sync --backends 1 --stats f f";
    let done = run(&rt, files, STEADY, line, (&[], &[(1, 5)]))?;
    let text = listing_of(alloc, "0/0=new 0/1 0/0=new 0/1")?;
    check_outcome(line, &done, (text.as_str(), "zeroe", 0))?;
    assert_eq!(&rt; done.report.line, Line::Cut);
    Ok(())
}

#[test]
fn random_requests_with_zeros(rt: HostRuntime) -> Result<(), Fail> {
    check_requests(&rt, 20261201, (DamagedPages::Zero, false))
}

#[test]
fn random_damaged_files_by_both_methods(rt: HostRuntime) -> Result<(), Fail> {
    check_damaged_files(&rt, 20261202, (DamagedPages::Zero, false))
}
