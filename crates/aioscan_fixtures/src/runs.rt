//! Runs of the top call over files in memory, what they show and what they read.
use aio_disk::{Shelf, Sink};
use aioscan_cmd::{Report, aioscan};
use command_fixtures::words_of;
use fault_injection::{MemShelf, MemSink};
use page_fixtures::files::{Faults, Files, one_file, segmented_shelf};
use std::alloc::{AllocError, Global};
use std::str;
use std::sync::Wait;
use std::test::Fail;
use std::thread::Threads;

/// What a run over files in memory has left.
#[derive(Drop)]
pub struct FinishedRun {
    pub report: Report,
    pub out: MemSink,
    pub err: MemSink,
    pub shelf: MemShelf,
}

/// The output, what is said on the error stream, and the status.
pub type TestOutcome<'a> = (&'a str, &'a str, u8);

// Fails where a stream's bytes are another text, and names the row.
fn check_text(name: &str, stream: &str, bytes: &[u8], wanted: &str) -> Result<(), Fail> {
    if bytes == wanted.as_bytes() {
        return Ok(());
    }
    let text = str::from_utf8(bytes);
    Err(Fail::new(format_args!("{name}: {stream} {text:?}, wanted {wanted:?}")))
}

/// Fails where a run shows something else than wanted, and names the row.
pub fn check_outcome(name: &str, done: &FinishedRun, wanted: TestOutcome<'_>) -> Result<(), Fail> {
    let (output, said, status) = wanted;
    check_text(name, "output", done.out.bytes(), output)?;
    check_text(name, "error stream", done.err.bytes(), said)?;
    if done.report.status == status {
        return Ok(());
    }
    let shown = done.report.status;
    Err(Fail::new(format_args!("{name}: status {shown}, wanted {status}")))
}

// A sink that fails at these writes.
fn sink_of(alloc: Global, cuts: &[(u64, u64)]) -> Result<MemSink, AllocError> {
    Ok(MemSink::make(alloc, Vec::from_slice(alloc, cuts)?))
}

/// A run of these words over any shelf, with any output.
pub fn run_shelf<S: Shelf, O: Sink, R: AllocGlobal + Threads + Wait + Sync>(
    rt: &R,
    shelf: &mut S,
    line: &str,
    out: &mut O,
    err: &mut MemSink,
) -> Result<Report, AllocError> {
    let alloc = rt.alloc();
    let words = words_of(alloc, line)?;
    Ok(aioscan(rt, alloc, words.as_slice(), shelf, out, err))
}

/// A run over files in memory, whose sinks fail at these writes.
pub fn run<R: AllocGlobal + Threads + Wait + Sync>(
    rt: &R,
    files: Files,
    faults: Faults<'_>,
    line: &str,
    cuts: (&[(u64, u64)], &[(u64, u64)]),
) -> Result<FinishedRun, Fail> {
    run_segmented(rt, files, 131072, faults, line, cuts)
}

/// The same over files that are segments of this size, from 1 to 131072 blocks.
pub fn run_segmented<R: AllocGlobal + Threads + Wait + Sync>(
    rt: &R,
    files: Files,
    segment: u32,
    faults: Faults<'_>,
    line: &str,
    cuts: (&[(u64, u64)], &[(u64, u64)]),
) -> Result<FinishedRun, Fail> {
    let alloc = rt.alloc();
    let mut shelf = segmented_shelf(alloc, files, segment, faults)?;
    let mut out = sink_of(alloc, cuts.0)?;
    let mut err = sink_of(alloc, cuts.1)?;
    let report = run_shelf(rt, &mut shelf, line, &mut out, &mut err)?;
    Ok(FinishedRun {
        report,
        out,
        err,
        shelf,
    })
}

/// A run over the one file `f`.
pub fn run_over<R: AllocGlobal + Threads + Wait + Sync>(
    rt: &R,
    file: Vec<u8>,
    faults: Faults<'_>,
    line: &str,
) -> Result<FinishedRun, Fail> {
    let files = one_file(rt.alloc(), "f", file)?;
    run(rt, files, faults, line, (&[], &[]))
}

/// Runs over the one file `f`, and compares what is shown.
pub fn check_over<R: AllocGlobal + Threads + Wait + Sync>(
    rt: &R,
    file: Vec<u8>,
    faults: Faults<'_>,
    line: &str,
    wanted: TestOutcome<'_>,
) -> Result<FinishedRun, Fail> {
    let done = run_over(rt, file, faults, line)?;
    check_outcome(line, &done, wanted)?;
    Ok(done)
}
