//! The same bytes by all settings.
use crate::random_requests::pick;
use aioscan_fixtures::runs::{FinishedRun, run_over};
use page_fixtures::files::STEADY;
use page_fixtures::pages::{DAMAGED, EMPTY, Parts, ZEROS, bytes_of};
use std::alloc::Global;
use std::process::Abort;
use std::sync::Wait;
use std::test::Fail;
use std::thread::Threads;

// One of a few values of an option, or no word for it.
fn push_value(
    line: &mut String,
    state: &mut u64,
    option: &str,
    values: [&str; 3],
) -> Result<(), Fail> {
    if let Some(value) = values.get(pick(state, 4) as usize) {
        write!(line, " --{option} {value}")?;
    }
    Ok(())
}

/// The words of some settings.
pub(crate) fn random_settings(alloc: Global, state: &mut u64) -> Result<String, Fail> {
    let mut line = String::new(alloc);
    push_value(&mut line, state, "method", ["sync", "ring", "worker"])?;
    push_value(&mut line, state, "workers", ["1", "2", "4"])?;
    push_value(&mut line, state, "backends", ["1", "3", "4"])?;
    push_value(&mut line, state, "combine", ["1", "2", "5"])?;
    push_value(&mut line, state, "concurrency", ["1", "2", "256"])?;
    push_value(&mut line, state, "handles", ["1", "2", "3"])?;
    push_value(&mut line, state, "buffers", ["16", "17", "40"])?;
    if pick(state, 2) == 0 {
        line.push_str(" --batch")?;
    }
    if pick(state, 2) == 0 {
        line.push_str(" --full")?;
    }
    Ok(line)
}

// A file of 80 pages, the last of them damaged.
fn mixed_file(alloc: Global) -> Result<Vec<u8>, Fail> {
    let mut pages: Vec<Parts<'_>> = Vec::new(alloc);
    for block in 0..79u32 {
        pages.push(if block % 7 == 3 { ZEROS } else { EMPTY })?;
    }
    pages.push(DAMAGED)?;
    Ok(bytes_of(alloc, pages.as_slice())?)
}

// Runs over a file, and compares all that is written with that of the first run.
fn check_same<R: Abort + AllocGlobal + Threads + Wait + Sync>(
    rt: &R,
    file: Vec<u8>,
    line: &str,
    first: &FinishedRun,
) -> Result<(), Fail> {
    let done = run_over(rt, file, STEADY, line)?;
    assert_eq!(rt; done.out.bytes(), first.out.bytes(), "{line}");
    assert_eq!(rt; done.err.bytes(), first.err.bytes(), "{line}");
    assert_eq!(rt; done.report.outcome, first.report.outcome, "{line}");
    Ok(())
}

// Runs 200 times under each of these settings, and compares all that is written.
fn check_settings<R: Abort + AllocGlobal + Threads + Wait + Sync>(
    rt: &R,
    settings: &[&str],
) -> Result<(), Fail> {
    let file = mixed_file(rt.alloc())?;
    let first = run_over(rt, file.clone()?, STEADY, "--method sync --backends 1 f")?;
    assert_eq!(rt; first.report.status, 1);
    for line in settings {
        for _ in 0..200 {
            check_same(rt, file.clone()?, line, &first)?;
        }
    }
    Ok(())
}

#[test]
fn methods_200_times(rt: HostRuntime) -> Result<(), Fail> {
    let settings = [
        "f",
        "--method sync --backends 1 f",
        "--method sync --backends 5 --handles 2 f",
        "--workers 1 --backends 1 f",
    ];
    check_settings(&rt, &settings)
}

#[test]
fn sizes_200_times(rt: HostRuntime) -> Result<(), Fail> {
    let settings = [
        "--workers 8 --backends 3 --handles 3 f",
        "--workers 2 --backends 4 --combine 1 f",
        "--combine 40 --handles 2 --full f",
        "--handles 1 --concurrency 1 f",
    ];
    check_settings(&rt, &settings)
}

#[test]
fn batches_and_frames_200_times(rt: HostRuntime) -> Result<(), Fail> {
    let settings = [
        "--handles 64 --concurrency 256 --combine 1 f",
        "--buffers 16 --backends 2 f",
        "--batch --full f",
        "--batch --combine 3 --handles 5 --backends 5 --workers 5 f",
    ];
    check_settings(&rt, &settings)
}
