//! What is written of pages.
use crate::helpers::checks::rounds_of;
use crate::helpers::opening::{METHODS, USUAL};
use crate::helpers::rounds::scan_over;
use page_faults::CheckOptions;
use page_fixtures::files::{STEADY, one_file, shelf_of};
use page_fixtures::pages::{CONTENTS, Parts, ZEROS, bytes_of};
use scan_rounds::{Ending, PageText, ScanSettings};
use std::process::Abort;
use std::sync::Wait;
use std::test::Fail;
use std::thread::Threads;

/// Lower 28, upper 8152, special 8192, and one line pointer, to 40 bytes at 8152. Its tuple: xmin
/// 700, ctid (0,1), two attributes, infomask 2306 and hoff 24.
const ONE_TUPLE: Parts<'static> = &[
    (12, &[28, 0, 0xd8, 0x1f, 0, 32, 4, 32]),
    (CONTENTS, &[0xd8, 0x9f, 0x50, 0]),
    (8152, &[0xbc, 2]),
    (8168, &[1, 0, 2, 0, 2, 9, 24]),
];

// Lists that page and a page of zeros, and compares all text.
fn check_text<R: Abort + AllocGlobal + Threads + Wait + Sync>(
    rt: &R,
    name: &str,
    settings: &ScanSettings,
    wanted: &str,
) -> Result<(), Fail> {
    let rounds = rounds_of(rt.alloc(), &[&[(0, 2)]])?;
    let pages = bytes_of(rt.alloc(), &[ONE_TUPLE, ZEROS])?;
    let mut shelf = shelf_of(rt.alloc(), one_file(rt.alloc(), "f", pages)?, STEADY)?;
    let outcome = scan_over(rt, settings, &mut shelf, rounds.as_slice())?;
    assert_eq!(rt; outcome.jobs.len(), 1, "{name}");
    for job in outcome.jobs.as_slice() {
        assert_eq!(rt; job.text.as_slice(), wanted.as_bytes(), "{name}");
        assert_eq!(rt; job.ending, Ending::Pages, "{name}");
    }
    Ok(())
}

const ITEMS: &str = "page 0 0 lower 28 upper 8152 special 8192 items 1\n\
     item 1 normal 8152 40\n\
     page 0 1 new\n";

const TUPLES: &str = "page 0 0 lower 28 upper 8152 special 8192 items 1\n\
     item 1 normal 8152 40\n\
     tuple 1 xmin 700 xmax 0 field3 0 ctid (0,1) attrs 2 mask 2306 hoff 24\n\
     chains 1 longest 1\n\
     page 0 1 new\n";

/// The next transaction is the one that inserted the tuple.
const BEFORE_INSERT: CheckOptions = CheckOptions {
    checksums: false,
    end_lsn: None,
    next_xid: Some(700),
};

const ROWS: [(PageText, &str); 3] = [
    (PageText::Items, ITEMS),
    (PageText::Tuples, TUPLES),
    (
        PageText::Faults(BEFORE_INSERT),
        "fault 0 0 item 1 xmin 700\n",
    ),
];

#[test]
fn pages_by_what_is_written_of_them(rt: HostRuntime) -> Result<(), Fail> {
    for (name, method) in METHODS {
        for (page_text, wanted) in ROWS {
            let settings = ScanSettings {
                method,
                page_text,
                ..USUAL
            };
            check_text(&rt, name, &settings, wanted)?;
        }
    }
    Ok(())
}
