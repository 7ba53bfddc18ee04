//! Rounds by a visibility map.
use crate::helpers::files::lines;
use crate::helpers::map_rounds::{MapScanRequest, MapScanResult, scan_by_map};
use crate::helpers::opening::{METHODS, USUAL};
use crate::helpers::rounds::JobResult;
use fault_injection::MemShelf;
use page_check::DamagedPages;
use page_fixtures::files::{Faults, STEADY, blocks_read, one_file, shelf_of};
use page_fixtures::pages::{CONTENTS, EMPTY, Parts, bytes_of, numbered_pages, page_of, put_bytes};
use scan_rounds::{Ending, MethodKind, ScanSettings};
use std::alloc::{AllocError, Global};
use std::process::Abort;
use std::sync::Wait;
use std::test::Fail;
use std::thread::Threads;
use vis_map::Skip;

/// All blocks of the file, by a map of one page.
const ALL: MapScanRequest = MapScanRequest {
    pages: 1,
    blocks: (0, 8),
};

/// The map's one page: all-visible are 0, 1, 3 and 4, and 4 is all-frozen too.
const MARKS: Parts<'static> = &[
    (12, &[24, 0, 0, 32, 0, 32, 4, 32]),
    (CONTENTS, &[0x45, 0x03]),
];

/// The same with a flag that makes it bad.
const BAD: Parts<'static> = &[
    (10, &[8, 0, 24, 0, 0, 32, 0, 32, 4, 32]),
    (CONTENTS, &[0x45, 0x03]),
];

// An empty page with this byte.
fn page_with(alloc: Global, offset: usize, byte: u8) -> Result<Vec<u8>, AllocError> {
    let mut page = page_of(EMPTY);
    put_bytes(&mut page, offset, &[byte]);
    Vec::from_slice(alloc, page.bytes())
}

// Two pages: with these bits of block 32671, the last of the first page, and of the next block.
fn two_pages(alloc: Global, last: u8, first: u8) -> Result<Vec<u8>, AllocError> {
    let mut pages = page_with(alloc, 8191, last << 6)?;
    pages.extend_from_slice(page_with(alloc, CONTENTS, first)?.as_slice())?;
    Ok(pages)
}

// A shelf of a file `f` of 8 empty pages and a map `m`, whose reads fail so: (disk, read).
fn shelf_with(alloc: Global, map: Vec<u8>, fail_reads: &[(u32, u64)]) -> Result<MemShelf, Fail> {
    let mut files = one_file(alloc, "f", numbered_pages(alloc, 8, None)?)?;
    files.push((String::from_str(alloc, "m")?, map))?;
    let faults = Faults {
        reads: fail_reads,
        ..STEADY
    };
    shelf_of(alloc, files, faults)
}

// Compares the blocks of a relation that were read.
fn check_reads<R: Abort + AllocGlobal>(
    rt: &R,
    name: &str,
    shelf: &MemShelf,
    relation: u32,
    wanted: &[u32],
) -> Result<(), Fail> {
    let mut blocks = blocks_read(rt.alloc(), shelf.log(), relation)?;
    blocks.sort()?;
    assert_eq!(rt; blocks.as_slice(), wanted, "{name}");
    Ok(())
}

// The lines of these blocks.
fn lines_of(alloc: Global, blocks: &[u32]) -> Result<Vec<u8>, Fail> {
    let mut text = Vec::new(alloc);
    for block in blocks {
        text.extend_from_slice(lines(alloc, *block, 1)?.as_slice())?;
    }
    Ok(text)
}

// Compares what became of the jobs with the lines of these blocks and their endings.
fn check_rounds<R: Abort + AllocGlobal>(
    rt: &R,
    name: &str,
    jobs: &[JobResult],
    wanted: &[(&[u32], Ending)],
) -> Result<(), Fail> {
    assert_eq!(rt; jobs.len(), wanted.len(), "{name}");
    for (job, (blocks, ending)) in jobs.iter().zip(wanted) {
        let text = lines_of(rt.alloc(), blocks)?;
        assert_eq!(rt; job.text.as_slice(), text.as_slice(), "{name}");
        assert_eq!(rt; job.ending, *ending, "{name}");
    }
    Ok(())
}

// Lists in these rounds by a map that marks blocks.
fn scan_marked<R: Abort + AllocGlobal + Threads + Wait + Sync>(
    rt: &R,
    (name, method): (&str, MethodKind),
    shelf: &mut MemShelf,
    rounds: &[Option<Skip>],
) -> Result<MapScanResult, Fail> {
    let settings = ScanSettings {
        method,
        full: true,
        ..USUAL
    };
    let outcome = scan_by_map(rt, &settings, shelf, ALL, rounds)?;
    assert_eq!(rt; outcome.ending, Ending::Pages, "{name}");
    assert!(rt; outcome.warnings.is_empty(), "{name}");
    Ok(outcome)
}

// Lists by the map, which is one I/O: the blocks that are listed, by two.
fn check_skip<R: Abort + AllocGlobal + Threads + Wait + Sync>(
    rt: &R,
    (name, method): (&str, MethodKind),
    skip: Skip,
    kept: &[u32],
) -> Result<(), Fail> {
    let mut shelf = shelf_with(rt.alloc(), bytes_of(rt.alloc(), &[MARKS])?, &[])?;
    let outcome = scan_marked(rt, (name, method), &mut shelf, &[Some(skip)])?;
    check_rounds(rt, name, outcome.jobs.as_slice(), &[(kept, Ending::Pages)])?;
    check_reads(rt, name, &shelf, 1, &[0])?;
    check_reads(rt, name, &shelf, 0, kept)?;
    assert_eq!(rt; outcome.incarnations, 3, "{name}");
    Ok(())
}

/// The blocks of the file.
const EACH: &[u32] = &[0, 1, 2, 3, 4, 5, 6, 7];

// With a round of all blocks behind it, which reads the others, there are so many I/Os.
fn check_both<R: Abort + AllocGlobal + Threads + Wait + Sync>(
    rt: &R,
    (name, method): (&str, MethodKind),
    skip: Skip,
    kept: &[u32],
    both: u128,
) -> Result<(), Fail> {
    let mut shelf = shelf_with(rt.alloc(), bytes_of(rt.alloc(), &[MARKS])?, &[])?;
    let outcome = scan_marked(rt, (name, method), &mut shelf, &[Some(skip), None])?;
    let wanted = [(kept, Ending::Pages), (EACH, Ending::Pages)];
    check_rounds(rt, name, outcome.jobs.as_slice(), &wanted)?;
    check_reads(rt, name, &shelf, 0, EACH)?;
    assert_eq!(rt; outcome.incarnations, both, "{name}");
    Ok(())
}

#[test]
fn blocks_that_the_map_marks_are_not_read(rt: HostRuntime) -> Result<(), Fail> {
    let rows: [(Skip, &[u32], u128); 2] = [
        (Skip::Visible, &[2, 5, 6, 7], 5),
        (Skip::Frozen, &[0, 1, 2, 3, 5, 6, 7], 4),
    ];
    for (name, method) in METHODS {
        for (skip, kept, both) in rows {
            check_skip(&rt, (name, method), skip, kept)?;
            check_both(&rt, (name, method), skip, kept, both)?;
        }
    }
    Ok(())
}

// Lists by this map, whose first page may be unread: the ending, the warnings and the jobs in
// Unread are these, and no block is left out.
fn check_no_map<R: Abort + AllocGlobal + Threads + Wait + Sync>(
    rt: &R,
    name: &str,
    settings: &ScanSettings,
    mut shelf: MemShelf,
    (ending, warnings, unread): (Ending, &str, u64),
) -> Result<(), Fail> {
    let rounds = [Some(Skip::Visible), Some(Skip::Frozen)];
    let outcome = scan_by_map(rt, settings, &mut shelf, ALL, &rounds)?;
    assert_eq!(rt; outcome.ending, ending, "{name}");
    assert_eq!(rt; outcome.warnings.as_slice(), warnings.as_bytes(), "{name}");
    assert_eq!(rt; outcome.unread, unread, "{name}");
    let wanted = [(EACH, Ending::Pages), (EACH, Ending::Pages)];
    check_rounds(rt, name, outcome.jobs.as_slice(), &wanted)
}

#[test]
fn a_damaged_map_marks_nothing(rt: HostRuntime) -> Result<(), Fail> {
    let rows = [
        (DamagedPages::Refuse, (Ending::Invalid(0), "", 0)),
        (DamagedPages::Zero, (Ending::Pages, "zeroed page 1 0\n", 0)),
    ];
    for (name, method) in METHODS {
        for (damaged, wanted) in rows {
            let settings = ScanSettings {
                method,
                damaged,
                ..USUAL
            };
            let shelf = shelf_with(rt.alloc(), bytes_of(rt.alloc(), &[BAD])?, &[])?;
            check_no_map(&rt, name, &settings, shelf, wanted)?;
        }
    }
    Ok(())
}

// The first backend, whose disk is the first, reads the map first.
#[test]
fn a_map_that_is_not_read_marks_nothing(rt: HostRuntime) -> Result<(), Fail> {
    for (name, method) in METHODS {
        let settings = ScanSettings { method, ..USUAL };
        let shelf = shelf_with(rt.alloc(), bytes_of(rt.alloc(), &[MARKS])?, &[(0, 1)])?;
        check_no_map(&rt, name, &settings, shelf, (Ending::Unread(0), "", 1))?;
    }
    Ok(())
}

// It holds the page before its end.
#[test]
fn a_map_ends_before_the_pages_that_it_was_opened_for(rt: HostRuntime) -> Result<(), Fail> {
    let asked = MapScanRequest { pages: 2, ..ALL };
    for (name, method) in METHODS {
        let settings = ScanSettings { method, ..USUAL };
        let mut shelf = shelf_with(rt.alloc(), bytes_of(rt.alloc(), &[MARKS])?, &[])?;
        let outcome = scan_by_map(&rt, &settings, &mut shelf, asked, &[Some(Skip::Visible)])?;
        assert_eq!(&rt; outcome.ending, Ending::PastEnd(1), "{name}");
        assert_eq!(&rt; outcome.unread, 0, "{name}");
        check_rounds(
            &rt,
            name,
            outcome.jobs.as_slice(),
            &[(&[2, 5, 6, 7], Ending::Pages)],
        )?;
    }
    Ok(())
}

// Lists blocks 32671 and 32672 by a map with these bits of theirs. Neither is there, so that the
// job ends at the first of them that is not left out.
fn check_bits<R: Abort + AllocGlobal + Threads + Wait + Sync>(
    rt: &R,
    name: &str,
    (last, first): (u8, u8),
    ending: Ending,
) -> Result<(), Fail> {
    let asked = MapScanRequest {
        pages: 2,
        blocks: (32671, 2),
    };
    let mut shelf = shelf_with(rt.alloc(), two_pages(rt.alloc(), last, first)?, &[])?;
    let outcome = scan_by_map(rt, &USUAL, &mut shelf, asked, &[Some(Skip::Visible)])?;
    assert_eq!(rt; outcome.ending, Ending::Pages, "{name}");
    check_rounds(rt, name, outcome.jobs.as_slice(), &[(&[], ending)])?;
    check_reads(rt, name, &shelf, 1, &[0, 1])
}

#[test]
fn each_block_has_the_bits_of_its_own_page(rt: HostRuntime) -> Result<(), Fail> {
    let cases = [
        ("none", (0, 0), Ending::PastEnd(32671)),
        ("the second block", (0, 1), Ending::PastEnd(32671)),
        ("the first block", (1, 0), Ending::PastEnd(32672)),
        ("both", (1, 1), Ending::Pages),
    ];
    for (name, bits, ending) in cases {
        check_bits(&rt, name, bits, ending)?;
    }
    Ok(())
}
