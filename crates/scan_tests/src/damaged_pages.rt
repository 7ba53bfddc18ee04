//! Pages that are not valid: refused, given as zeros, or given as they are.
use crate::helpers::checks::scan_pages;
use crate::helpers::opening::{METHODS, USUAL};
use crate::helpers::rounds::{Blocks, JobResult};
use page_check::DamagedPages;
use page_faults::CheckOptions;
use scan_rounds::{Ending, MethodKind, PageText, ScanSettings};
use std::process::Abort;
use std::sync::Wait;
use std::test::Fail;
use std::thread::Threads;

/// What becomes of a job of the blocks 10 to 13, of which 12 is bad.
#[derive(Clone, Copy)]
struct Row {
    damaged: DamagedPages,
    page_text: PageText,
    text: &'static str,
    warnings: &'static str,
    faults: u64,
    ending: Ending,
}

const REFUSED: &str = "page 0 10 lower 24 upper 8192 special 8192 items 0\n\
     page 0 11 lower 24 upper 8192 special 8192 items 0\n";

const ZEROED: &str = "page 0 10 lower 24 upper 8192 special 8192 items 0\n\
     page 0 11 lower 24 upper 8192 special 8192 items 0\n\
     page 0 12 new\n\
     page 0 13 lower 24 upper 8192 special 8192 items 0\n";

const SHOWN: &str = "page 0 10 lower 24 upper 8192 special 8192 items 0\n\
     page 0 11 lower 24 upper 8192 special 8192 items 0\n\
     page 0 12 damaged flags 8 lower 24 upper 8192 special 8192\n\
     page 0 13 lower 24 upper 8192 special 8192 items 0\n";

const CHECKED: &str = "fault 0 12 header flags 8 lower 24 upper 8192 special 8192\n";

/// By the page alone.
const CHECK: CheckOptions = CheckOptions {
    checksums: false,
    end_lsn: None,
    next_xid: None,
};

const ROWS: [Row; 4] = [
    Row {
        damaged: DamagedPages::Refuse,
        page_text: PageText::Items,
        text: REFUSED,
        warnings: "",
        faults: 0,
        ending: Ending::Invalid(12),
    },
    Row {
        damaged: DamagedPages::Zero,
        page_text: PageText::Items,
        text: ZEROED,
        warnings: "zeroed page 0 12\n",
        faults: 0,
        ending: Ending::Pages,
    },
    Row {
        damaged: DamagedPages::Give,
        page_text: PageText::Items,
        text: SHOWN,
        warnings: "",
        faults: 1,
        ending: Ending::Pages,
    },
    Row {
        damaged: DamagedPages::Give,
        page_text: PageText::Faults(CHECK),
        text: CHECKED,
        warnings: "",
        faults: 1,
        ending: Ending::Pages,
    },
];

// Compares what became of a job.
fn check_job<R: Abort>(rt: &R, name: &str, job: &JobResult, row: &Row) {
    assert_eq!(rt; job.text.as_slice(), row.text.as_bytes(), "{name}");
    assert_eq!(rt; job.warnings.as_slice(), row.warnings.as_bytes(), "{name}");
    assert_eq!(rt; job.tally.faults, row.faults, "{name}");
    assert_eq!(rt; job.ending, row.ending, "{name}");
}

// Lists those blocks twice.
fn check_twice<R: Abort + AllocGlobal + Threads + Wait + Sync>(
    rt: &R,
    (name, method): (&str, MethodKind),
    row: &Row,
) -> Result<(), Fail> {
    let settings = ScanSettings {
        method,
        damaged: row.damaged,
        page_text: row.page_text,
        ..USUAL
    };
    let rounds: &[&[Blocks]] = &[&[(10, 4)], &[(10, 4)]];
    let outcome = scan_pages(rt, &settings, (14, Some(12)), &[], rounds)?;
    assert_eq!(rt; outcome.jobs.len(), 2, "{name}");
    for job in outcome.jobs.as_slice() {
        check_job(rt, name, job, row);
    }
    Ok(())
}

// The pool never holds a page that was not valid: it is read again for the second job.
#[test]
fn damaged_pages_are_refused_zeroed_or_given(rt: HostRuntime) -> Result<(), Fail> {
    for (name, method) in METHODS {
        for row in ROWS {
            check_twice(&rt, (name, method), &row)?;
        }
    }
    Ok(())
}
