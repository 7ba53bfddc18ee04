//! Damaged pages that are listed as such.
use crate::random_requests::{check_damaged_files, check_requests};
use aioscan_fixtures::rows::check_rows;
use page_check::DamagedPages;
use std::test::Fail;

const ROWS: [&str; 11] = [
    "a damaged page | f:12EFE | --from 10 --to 13 f | 0/10-11 0/12=F 0/13 | | 1",
    "the same by one read | f:12EFE | \
     --method sync --backends 1 --full --from 10 --to 13 f | \
     0/10-11 0/12=F 0/13 | | 1 | 0/10+4=4",
    "no page is damaged | f:2EZ | f | 0/0-1 0/2=new | | 0",
    "all pages are damaged | f:200D | f | 0/0-199=D | | 1",
    "a damaged page stays in no frame and is read each time | f:12EFE | \
     --method sync --backends 1 --stats --from 12 --to 12 f f | \
     0/12=F 0/12=F | totals 2 | 1",
    "two files | f:ED g:FE | f g | 0/0 0/1=D 1/0=F 1/1 | | 1",
    "with tuples | f:FE | --tuples f | \
     : page 0 0 damaged flags 8 lower 24 upper 8192 special 8192; \
     page 0 1 lower 24 upper 8192 special 8192 items 0; chains 0 longest 0 | | 1",
    "another checksum | f:E@25952,E@25951,E@25951 | --checksums f | 0/0-1 0/2=E | | 1",
    "the same by its header | f:E@25952,E@25951,E@25951 | f | 0/0-2 | | 0",
    "a block that is not there | f:EDE | --to 3 f | 0/0 0/1=D 0/2 | no page 0 3 | 6",
    "a read that fails | f:DEE read=2 | --method sync --backends 1 f | 0/0=D | \
     unread page 0 1 | 3",
];

#[test]
fn damaged_pages_are_shown(rt: HostRuntime) -> Result<(), Fail> {
    check_rows(&rt, "--show-damaged", &ROWS)
}

#[test]
fn random_requests_that_show_them(rt: HostRuntime) -> Result<(), Fail> {
    check_requests(&rt, 20261203, (DamagedPages::Give, false))
}

#[test]
fn random_damaged_files_that_are_shown(rt: HostRuntime) -> Result<(), Fail> {
    check_damaged_files(&rt, 20261204, (DamagedPages::Give, false))
}
