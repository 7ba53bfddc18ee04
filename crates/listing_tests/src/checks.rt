//! The faults of pages, and the sums behind them.
use crate::random_requests::{check_damaged_files, check_requests};
use crate::tuples::ONE_TUPLE;
use aioscan_fixtures::rows::check_rows;
use aioscan_fixtures::runs::check_over;
use page_check::DamagedPages;
use page_fixtures::files::STEADY;
use page_fixtures::pages::{EMPTY, Parts, bytes_of};
use std::test::Fail;

const ROWS: [&str; 7] = [
    "no fault | f:2EZE | f | : pages 4 new 1 faults 0 | | 0",
    "no page | f: | f | : pages 0 new 0 faults 0 | | 0",
    "no block is asked for | f:D | --from 1 --to 0 f | : pages 0 new 0 faults 0 | | 0",
    "a header | f:12EFE | --from 10 --to 13 f | \
     : fault 0 12 header flags 8 lower 24 upper 8192 special 8192; \
     pages 4 new 0 faults 1 | | 1",
    "the same by one read | f:12EFE | --method sync --backends 1 --full --from 10 --to 13 f | \
     : fault 0 12 header flags 8 lower 24 upper 8192 special 8192; \
     pages 4 new 0 faults 1 | | 1 | 0/10+4=4",
    "files in the order of the words, each time | f:DE g:ZF | f g f | \
     : fault 0 0 header flags 0 lower 0 upper 0 special 0; \
     fault 1 1 header flags 8 lower 24 upper 8192 special 8192; \
     fault 0 0 header flags 0 lower 0 upper 0 special 0; \
     pages 6 new 1 faults 3 | | 1",
    "the totals stand on the error stream | f:FE | --stats --method sync --backends 1 f | \
     : fault 0 0 header flags 8 lower 24 upper 8192 special 8192; \
     pages 2 new 0 faults 1 | totals 2 | 1",
];

#[test]
fn faults_and_sums(rt: HostRuntime) -> Result<(), Fail> {
    check_rows(&rt, "--check", &ROWS)
}

// An empty page has the checksum 25954 as block 2, and one with flag 8 has 46020 as block 0.
const CHECKSUMS: [&str; 5] = [
    "another checksum | f:E@25952,E@25951,E@25951 | --checksums f | \
     : fault 0 2 checksum 25951 expected 25954; pages 3 new 0 faults 1 | | 1",
    "it does not count | f:E@25952,E@25951,E@25951 | f | : pages 3 new 0 faults 0 | | 0",
    "a page of zeros has none | f:Z | --checksums f | : pages 1 new 1 faults 0 | | 0",
    "a header with its checksum | f:F@46020 | --checksums f | \
     : fault 0 0 header flags 8 lower 24 upper 8192 special 8192; \
     pages 1 new 0 faults 1 | | 1",
    "a header with another | f:F@1 | --checksums f | \
     : fault 0 0 header flags 8 lower 24 upper 8192 special 8192; \
     fault 0 0 checksum 1 expected 46020; pages 1 new 0 faults 2 | | 1",
];

#[test]
fn faults_of_checksums(rt: HostRuntime) -> Result<(), Fail> {
    check_rows(&rt, "--check", &CHECKSUMS)
}

// Runs that end before the last block have no sums.
const WITHOUT_SUMS: [&str; 7] = [
    "a block that is not there | f:FE | --to 2 f | \
     : fault 0 0 header flags 8 lower 24 upper 8192 special 8192 | no page 0 2 | 6",
    "the same without a fault | f:2E | --to 2 f | | no page 0 2 | 6",
    "a read that fails | f:FEE read=2 | f | \
     : fault 0 0 header flags 8 lower 24 upper 8192 special 8192 | unread page 0 1 | 3",
    "a file that is missing | f:E | g | | cannot open | 3",
    "faults that cannot be written | f:FE out=1 | f | | cannot write | 4",
    "sums that cannot be written | f:FE out=2 | f | \
     : fault 0 0 header flags 8 lower 24 upper 8192 special 8192 | cannot write | 4",
    "the same without a fault | f:2E out=1 | f | | cannot write | 4",
];

#[test]
fn runs_without_sums(rt: HostRuntime) -> Result<(), Fail> {
    check_rows(&rt, "--check --method sync --backends 1", &WITHOUT_SUMS)
}

// An empty page whose LSN is 4030201/8070605.
const WITH_LSN: Parts<'static> = &[
    (0, &[1, 2, 3, 4, 5, 6, 7, 8]),
    (12, &[24, 0, 0, 32, 0, 32, 4, 32]),
];

/// A file, more words, the lines of its faults, and the sums.
type Row = (
    &'static [Parts<'static>],
    &'static str,
    &'static str,
    &'static str,
);

const OPTIONS: [Row; 8] = [
    (&[WITH_LSN], "", "", "pages 1 new 0 faults 0\n"),
    (
        &[WITH_LSN],
        "--end-lsn 4030201/8070605",
        "",
        "pages 1 new 0 faults 0\n",
    ),
    (
        &[WITH_LSN],
        "--end-lsn 4030201/8070604",
        "fault 0 0 lsn 4030201/8070605\n",
        "pages 1 new 0 faults 1\n",
    ),
    (
        &[WITH_LSN],
        "--end-lsn 4030200/FFFFFFFF",
        "fault 0 0 lsn 4030201/8070605\n",
        "pages 1 new 0 faults 1\n",
    ),
    (&[ONE_TUPLE], "", "", "pages 1 new 0 faults 0\n"),
    (
        &[ONE_TUPLE],
        "--next-xid 701",
        "",
        "pages 1 new 0 faults 0\n",
    ),
    (
        &[ONE_TUPLE],
        "--next-xid 700",
        "fault 0 0 item 1 xmin 700\n",
        "pages 1 new 0 faults 1\n",
    ),
    (
        &[EMPTY, ONE_TUPLE],
        "",
        "fault 0 1 misplaced 0\n",
        "pages 2 new 0 faults 1\n",
    ),
];

#[test]
fn options_of_a_check(rt: HostRuntime) -> Result<(), Fail> {
    let alloc = rt.alloc();
    for (pages, words, faults, sums) in OPTIONS {
        for method in ["worker", "ring", "sync"] {
            let line = format!(in alloc; "--check --method {method} {words} f")?;
            let text = format!(in alloc; "{faults}{sums}")?;
            let status = if faults.is_empty() { 0 } else { 1 };
            let wanted = (text.as_str(), "", status);
            let _ = check_over(&rt, bytes_of(alloc, pages)?, STEADY, line.as_str(), wanted)?;
        }
    }
    Ok(())
}

#[test]
fn random_requests_for_faults(rt: HostRuntime) -> Result<(), Fail> {
    check_requests(&rt, 20261205, (DamagedPages::Give, true))
}

#[test]
fn random_damaged_files_are_checked(rt: HostRuntime) -> Result<(), Fail> {
    check_damaged_files(&rt, 20261206, (DamagedPages::Give, true))
}
