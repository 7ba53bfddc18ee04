//! Rows of runs, each a line of text: which files there are, the words, and what is to come.
//!
//! A row has these fields, with bars between them. The last one may be left out.
//!
//! | Field | Words |
//! |---|---|
//! | its name | |
//! | the files | `f:3ED` is a file `f` of three pages `E` and a page `D` |
//! | and checksums | `f:E@25952,2E@own` gives the first page this checksum, and the others that of the block which they are in their file |
//! | and faults | `open=2`, `length=1`, `read=3`: this call fails, of the first disk; `short=1`: its next read gives one page at most; `out=2`: this write of the output fails; `segment=4` |
//! | the words of the line | |
//! | the listing | `0/2` and `0/3-9` are empty pages of relation 0, `0/5=new` is a page of zeros, `0/5=F` a damaged page `F`; or lines behind a colon, with semicolons between them |
//! | what is said | lines, with semicolons between them; `totals 4` are those of four I/Os by backends |
//! | the status | |
//! | the reads | `1/3+4=2`: of relation 1, from block 3 on, four pages were asked for, and two came; or `none` |
use crate::runs::{FinishedRun, check_outcome, run_segmented};
use aioscan_cmd::Line;
use page_fixtures::files::Faults;
use row_fixtures::listings::{check_reads, listing_of, said_of};
use row_fixtures::scenes::{Scene, scene_of};
use std::sync::Wait;
use std::test::Fail;
use std::thread::Threads;

// Runs a line over a scene.
fn run_scene<R: AllocGlobal + Threads + Wait + Sync>(
    rt: &R,
    scene: Scene,
    line: &str,
) -> Result<FinishedRun, Fail> {
    let Scene {
        files,
        segment,
        opens,
        lengths,
        reads,
        shorts,
        cuts,
    } = scene;
    let faults = Faults {
        opens: opens.as_slice(),
        lengths: lengths.as_slice(),
        reads: reads.as_slice(),
        shorts: shorts.as_slice(),
    };
    let cuts = (cuts.as_slice(), [].as_slice());
    run_segmented(rt, files, segment, faults, line, cuts)
}

/// Makes the run of a row, with more words before those of its line. Fails where something else comes
/// than it says, and names the row.
pub fn check_row<R: AllocGlobal + Threads + Wait + Sync>(
    rt: &R,
    words: &str,
    row: &str,
) -> Result<FinishedRun, Fail> {
    let alloc = rt.alloc();
    let mut fields = row.split('|');
    let name = fields.next().unwrap_or("").trim();
    let files = fields.next().unwrap_or("");
    let line = fields.next().unwrap_or("");
    let listed = fields.next().unwrap_or("");
    let said = fields.next().unwrap_or("");
    let status = fields.next().unwrap_or("").trim();
    let reads = fields.next().unwrap_or("");
    let line = format!(in alloc; "{words} {line}")?;
    let done = run_scene(rt, scene_of(alloc, files)?, line.as_str())?;
    let (text, said) = (listing_of(alloc, listed)?, said_of(alloc, said)?);
    let status = status.parse().ok().ok_or(row)?;
    check_outcome(name, &done, (text.as_str(), said.as_str(), status))?;
    if done.report.line != Line::Whole {
        return Err(Fail::new(format_args!("{name}: {:?} was said", done.report.line)));
    }
    if !reads.is_empty() {
        check_reads(alloc, name, done.shelf.log(), reads)?;
    }
    Ok(done)
}

/// The same for each row of a table.
pub fn check_rows<R: AllocGlobal + Threads + Wait + Sync>(
    rt: &R,
    words: &str,
    rows: &[&str],
) -> Result<(), Fail> {
    for row in rows {
        let _ = check_row(rt, words, row)?;
    }
    Ok(())
}
