//! Whole runs by a visibility map: each method, damaged pages, tuples, and what fails.
use aioscan_cmd::Line;
use aioscan_fixtures::rows::check_rows;
use aioscan_fixtures::runs::{check_outcome, run};
use page_fixtures::files::STEADY;
use page_fixtures::pages::{Parts, bytes_of};
use row_fixtures::files::{pages_file, two_files};
use row_fixtures::listings::listing_of;
use std::process::Abort;
use std::sync::Wait;
use std::test::Fail;
use std::thread::Threads;

/// The header of an empty page, from lower on.
pub(crate) const HEADER: &[u8] = &[24, 0, 0, 32, 0, 32, 4, 32];

// Marks blocks 64 to 127 as visible, and block 130.
const JOB_MARKED: Parts<'static> = &[
    (12, HEADER),
    (
        40,
        &[
            0x55, 0x55, 0x55, 0x55, 0x55, 0x55, 0x55, 0x55, 0x55, 0x55, 0x55, 0x55, 0x55, 0x55,
            0x55, 0x55, 0x10,
        ],
    ),
];

// The map that PostgreSQL 15 wrote of a relation of 345 pages with checksums, of which it told that
// all but these four are visible and frozen.
const OF_A_SERVER: Parts<'static> = &[
    (4, &[0x58, 0xc3, 0xab, 1, 0xfa, 0x87]),
    (12, HEADER),
    (24, &[0xff; 86]),
    (24, &[0xfc]),
    (45, &[0xcf]),
    (67, &[0xfc]),
    (88, &[0xcf]),
    (110, &[3]),
];

// A page `M` of a map marks blocks 0, 1 and 3 as visible, and 4 as visible and frozen.
const ROWS: [&str; 8] = [
    "visible by default | f:8E m:M | f | 0/2 0/5-7 | | 0",
    "visible | f:8E m:M | --skip visible f | 0/2 0/5-7 | | 0",
    "frozen | f:8E m:M | --skip frozen f | 0/0-3 0/5-7 | | 0",
    "a map without pages | f:8E m: | f | 0/0-7 | | 0",
    "an invalid map | f:8E m:F | f | | invalid page 1 0 | 1",
    "an invalid map as zeros | f:8E m:F | --zero-damaged f | 0/0-7 | zeroed page 1 0 | 0",
    "the damage of a marked block is not seen | f:EDEEDDE m:M | f | 0/2 | invalid page 0 5 | 1",
    "damaged pages and a damaged map | f:EDEEDDE m:D | --zero-damaged f | \
     0/0 0/1=new 0/2-3 0/4=new 0/5=new 0/6 | \
     zeroed page 1 0; zeroed page 0 1; zeroed page 0 4; zeroed page 0 5 | 0",
];

const METHODS: [&str; 3] = [
    "--method sync --backends 2 --map m",
    "--method worker --backends 2 --map m",
    "--method ring --backends 2 --map m",
];

#[test]
fn the_same_by_each_method(rt: HostRuntime) -> Result<(), Fail> {
    for words in METHODS {
        check_rows(&rt, words, &ROWS)?;
    }
    Ok(())
}

// Runs by each method over such a file and this map, and compares all that is shown.
fn expect<R: Abort + AllocGlobal + Threads + Wait + Sync>(
    rt: &R,
    (file, map): (&str, Parts<'_>),
    words: &str,
    text: &str,
) -> Result<(), Fail> {
    let alloc = rt.alloc();
    for method in METHODS {
        let (file, map) = (pages_file(alloc, file)?, bytes_of(alloc, &[map])?);
        let line = format!(in alloc; "{method} {words} f")?;
        let files = two_files(alloc, ("f", file), ("m", map))?;
        let done = run(rt, files, STEADY, line.as_str(), (&[], &[]))?;
        check_outcome(line.as_str(), &done, (text, "", 0))?;
    }
    Ok(())
}

#[test]
fn a_job_whose_blocks_are_all_left_out(rt: HostRuntime) -> Result<(), Fail> {
    let text = listing_of(rt.alloc(), "0/0-63 0/128-129 0/131-199")?;
    expect(&rt, ("200E", JOB_MARKED), "", text.as_str())
}

#[test]
fn the_map_of_a_server(rt: HostRuntime) -> Result<(), Fail> {
    let text = listing_of(rt.alloc(), "0/0 0/86 0/172 0/258")?;
    for words in ["", "--skip frozen"] {
        expect(&rt, ("345E", OF_A_SERVER), words, text.as_str())?;
    }
    Ok(())
}

#[test]
fn tuples_by_a_map(rt: HostRuntime) -> Result<(), Fail> {
    let text = "page 0 2 lower 24 upper 8192 special 8192 items 0\n\
         chains 0 longest 0\n\
         page 0 5 new\n";
    let marked: Parts<'_> = &[(12, HEADER), (24, &[0x45, 3])];
    expect(&rt, ("5EZ", marked), "--tuples", text)
}

#[test]
fn a_map_that_cannot_be_read(rt: HostRuntime) -> Result<(), Fail> {
    let rows = [
        "sync | f:8E m:M read=1 | --method sync --backends 1 --map m f | | \
         unread page 1 0; totals 1 | 3",
        "ring | f:8E m:M read=1 | --method ring --backends 1 --map m f | | \
         unread page 1 0; totals 1 | 3",
        "a map that is missing | f:8E | --map m f | | cannot open | 3",
    ];
    check_rows(&rt, "--stats", &rows)
}

#[test]
fn an_error_stream_that_fails_at_the_warning_of_a_map(rt: HostRuntime) -> Result<(), Fail> {
    let alloc = rt.alloc();
    let (file, map) = (pages_file(alloc, "ED")?, pages_file(alloc, "D")?);
    let files = two_files(alloc, ("f", file), ("m", map))?;
    let line = "--zero-damaged --method sync --backends 1 --stats --map m f";
    let done = run(&rt, files, STEADY, line, (&[], &[(1, 5)]))?;
    let text = listing_of(alloc, "0/0 0/1=new")?;
    check_outcome(line, &done, (text.as_str(), "zeroe", 0))?;
    assert_eq!(&rt; done.report.line, Line::Cut);
    Ok(())
}
