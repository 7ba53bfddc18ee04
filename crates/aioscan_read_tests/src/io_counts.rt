//! How many I/Os a run counts, by workers and by backends.
use aioscan_fixtures::rows::check_row;
use aioscan_fixtures::runs::{check_outcome, run_over};
use page_fixtures::files::STEADY;
use page_fixtures::pages::{Parts, bytes_of};
use std::alloc::Global;
use std::process::Abort;
use std::sync::Wait;
use std::test::Fail;
use std::thread::Threads;

#[test]
fn a_third_read_that_fails(rt: HostRuntime) -> Result<(), Fail> {
    for row in [
        "sync | f:5E read=3 | --method sync f | 0/0-1 | unread page 0 2; totals 3 | 3",
        "ring | f:5E read=3 | --method ring f | 0/0-1 | unread page 0 2; totals 3 | 3",
    ] {
        let words = "--backends 1 --combine 1 --handles 1 --stats";
        let report = check_row(&rt, words, row)?.report;
        let counts = (report.incarnations, report.by_workers, report.by_backends);
        assert_eq!(rt; counts, (3, 0, 3), "{row}");
    }
    Ok(())
}

#[test]
fn an_incarnation_for_each_of_512_blocks(rt: HostRuntime) -> Result<(), Fail> {
    let words = "--workers 1 --backends 2 --handles 64 --concurrency 64 --combine 1";
    let done = check_row(&rt, words, "512 blocks | f:512E | f | 0/0-511 | | 0")?;
    assert_eq!(rt; done.report.incarnations, 512);
    Ok(())
}

// Appends the page that a server with checksums writes for a block below 255, and its text.
fn push_server_page(
    alloc: Global,
    file: &mut Vec<u8>,
    text: &mut String,
    block: u32,
) -> Result<(), Fail> {
    let checksum = (block % 255 + 1) as u8;
    let page: Parts<'_> = &[
        (0, &[1, 2, 3, 4, 5, 6, 7, 8, checksum, 0, 4, 0]),
        (12, &[36, 0, 0x88, 0x1f, 0, 32, 4, 32]),
        (
            24,
            &[
                0xd8, 0x9f, 0x50, 0, 0xb0, 0x9f, 0x50, 0, 0x88, 0x9f, 0x50, 0,
            ],
        ),
    ];
    file.extend_from_slice(bytes_of(alloc, &[page])?.as_slice())?;
    writeln!(
        text,
        "page 0 {block} lower 36 upper 8072 special 8192 items 3"
    )?;
    writeln!(text, "item 1 normal 8152 40")?;
    writeln!(text, "item 2 normal 8112 40")?;
    writeln!(text, "item 3 normal 8072 40")?;
    Ok(())
}

// Runs over one file by 28 I/Os, at most so many of them by workers, and compares what is shown.
fn check_28<R: Abort + AllocGlobal + Threads + Wait + Sync>(
    rt: &R,
    file: Vec<u8>,
    line: &str,
    text: &str,
    by_workers: u128,
) -> Result<(), Fail> {
    let done = run_over(rt, file, STEADY, line)?;
    let (workers, backends) = (done.report.by_workers, done.report.by_backends);
    let totals = format!(in rt.alloc(); "incarnations 28 workers {workers} backends {backends}\n")?;
    check_outcome(line, &done, (text, totals.as_str(), 0))?;
    assert_eq!(rt; workers.saturating_add(backends), 28, "{line}");
    assert!(rt; workers <= by_workers, "{line}");
    Ok(())
}

#[test]
fn pages_of_a_server_with_checksums(rt: HostRuntime) -> Result<(), Fail> {
    let alloc = rt.alloc();
    let (mut file, mut text) = (Vec::new(alloc), String::new(alloc));
    for block in 0..200 {
        push_server_page(alloc, &mut file, &mut text, block)?;
    }
    for (line, by_workers) in [
        ("--stats f", u128::MAX),
        ("--method sync --backends 1 --stats f", 0),
        ("--method ring --stats f", 0),
    ] {
        check_28(&rt, file.clone()?, line, text.as_str(), by_workers)?;
    }
    Ok(())
}
