//! Reads whose pages have checksums. The numbers are those of a server for these pages.
ghost use Rattle.std.specs.Prelude.{◌<◌};
ghost use Rattle.record_tests.specs.PendingReads.{IsPendingRead};

use crate::disk::callbacks;
use crate::marked_pages::check_page;
use crate::reads::{Ending, aimed, check_calls, outcome_of, place, result_of};
use aio_callback::{Raw, ReadIo};
use aio_result::{AioResult, Status};
use aio_word::Class;
use page_check::{DamagedPages, Page, PageMark};
use page_fixtures::checksums::with_checksum;
use page_fixtures::pages::{EMPTY, FLAGGED, Parts, page_of};
use std::process::Abort;
use std::sync::Wait;
use std::test::Fail;

/// A read of four pages from `first` on, and what becomes of it.
#[derive(Clone, Copy)]
struct Row {
    name: &'static str,
    first: u32,
    /// The checksum of each page. The page at `flagged` has a flag that no server sets.
    sums: [u16; 4],
    flagged: Option<usize>,
    answer: Raw,
    checksums: bool,
    damaged: DamagedPages,
    /// The result, how many pages are good, and which of them are marked.
    result: AioResult,
    good: u8,
    marked: &'static [usize],
}

/// The checksums of empty pages as blocks 4 to 7.
const SUMS: [u16; 4] = [25948, 25947, 25950, 25949];

/// The page of block 5 stands in the place of block 6.
const COPIED: [u16; 4] = [25948, 25947, 25947, 25949];

/// And that of block 4 in the place of block 5.
const TWICE_COPIED: [u16; 4] = [25948, 25948, 25947, 25949];

/// Four pages with the checksums that they are to have.
fn whole() -> Row {
    Row {
        name: "each page has its checksum",
        first: 4,
        sums: SUMS,
        flagged: None,
        answer: Raw::Read(4),
        checksums: true,
        damaged: DamagedPages::Refuse,
        result: result_of(0, Status::Good, 0, 4),
        good: 4,
        marked: &[],
    }
}

/// Pages with these checksums.
fn with_sums(name: &'static str, sums: [u16; 4]) -> Row {
    Row {
        name,
        sums,
        ..whole()
    }
}

/// The page at `place` is invalid.
fn invalid(name: &'static str, sums: [u16; 4], place: u8) -> Row {
    Row {
        result: result_of(2, Status::Error, u32::from(place), i32::from(place)),
        good: place,
        ..with_sums(name, sums)
    }
}

/// Of `good` pages these are zeroed, or given as they are.
fn warned(row: Row, damaged: DamagedPages, good: u8, marked: &'static [usize]) -> Row {
    let id = if damaged == DamagedPages::Zero { 4 } else { 5 };
    let count = marked.len().min(4) as u32;
    Row {
        damaged,
        answer: Raw::Read(u32::from(good)),
        result: result_of(id, Status::Warning, count, i32::from(good)),
        good,
        marked,
        ..row
    }
}

/// Fewer pages than asked for come.
fn short(name: &'static str, first: u32, sums: [u16; 4], good: u8) -> Row {
    Row {
        first,
        answer: Raw::Read(u32::from(good)),
        result: result_of(1, Status::Partial, 0, i32::from(good)),
        good,
        ..with_sums(name, sums)
    }
}

/// No page comes.
fn without_pages(name: &'static str, answer: Raw, error: u32) -> Row {
    Row {
        answer,
        result: result_of(1, Status::Error, error, 0),
        good: 0,
        ..with_sums(name, [0; 4])
    }
}

/// The page of the row at a place.
fn page_at(row: &Row, index: usize) -> Page
    requires { index < 4 }
{
    let parts: Parts<'_> = if row.flagged == Some(index) {
        FLAGGED
    } else {
        EMPTY
    };
    with_checksum(page_of(parts), row.sums[index])
}

/// The record gets the pages of the row.
fn put_pages(io: &mut ReadIo, row: &Row)
    requires { IsPendingRead 4 io.old }
    ensures { IsPendingRead 4 io.new }
{
    for index in 0..4usize {
        place(io, index, &page_at(row, index));
    }
}

/// The blocks of the row, and of which the places are given the page.
fn blocks_of(row: &Row) -> [(u32, bool); 4] {
    let mut blocks = [(0, false); 4];
    let mut block = row.first;
    for (index, told) in blocks.iter_mut().enumerate() {
        let is_good = index < usize::from(row.good) && !row.marked.contains(&index);
        *told = (block, is_good);
        block = block.wrapping_add(1);
    }
    blocks
}

/// The good page at a place, and its mark.
fn wanted_page(row: &Row, index: usize) -> (PageMark, Page)
    requires { index < 4 }
{
    let page = page_at(row, index);
    if !row.marked.contains(&index) {
        return (PageMark::Valid, page);
    }
    match row.damaged {
        DamagedPages::Zero => (PageMark::Zeroed, Page::zeros()),
        _ => (PageMark::Damaged, page),
    }
}

fn check_row<R: Abort + AllocGlobal + Wait>(rt: &R, row: &Row) -> Result<(), Fail> {
    let first = row.first;
    let name = format!(in rt.alloc(); "{}, {:?}", row.name, row.damaged)?;
    let name = name.as_str();
    assert!(rt;
        matches!(row.answer, Raw::Failed | Raw::Read(0..=4)),
        "{name}"
    );
    assert!(rt; first < 0x8000_0000, "{name}");
    let mut io = aimed(rt.alloc(), &callbacks(row.damaged), first, row.checksums)?;
    put_pages(&mut io, row);
    let ended = outcome_of(rt, rt.alloc(), io, row.answer)?;
    let wanted = Ending {
        class: match row.answer {
            Raw::Failed => Class::Failed,
            Raw::Read(4) => Class::Whole,
            Raw::Read(_) => Class::Short,
        },
        result: row.result,
        good: u32::from(row.good),
    };
    assert_eq!(rt; ended.ending, wanted, "{name}");
    check_calls(rt, &ended, row.checksums, blocks_of(row), name);
    assert_eq!(rt; ended.pages.len(), usize::from(row.good), "{name}");
    for index in 0..4usize {
        if let Some(page) = ended.pages.get(index) {
            let (mark, wanted) = wanted_page(row, index);
            check_page(rt, page, mark, &wanted, name);
        }
    }
    Ok(())
}

// The blocks are told from each other, over 65535 and over a border of segments too.
#[test]
fn a_page_is_checked_as_its_block(rt: HostRuntime) -> Result<(), Fail> {
    let by_header = Row {
        name: "another checksum, by its header",
        sums: COPIED,
        checksums: false,
        ..whole()
    };
    let behind_65535 = [41126, 41125, 25953, 0];
    let behind_131071 = [41126, 25950, 0, 0];
    for row in [
        whole(),
        by_header,
        invalid("the page of the block before", COPIED, 2),
        invalid("each page is that of the first block", [25948; 4], 1),
        invalid(
            "the first block has that of the second",
            [25947, 25947, 25950, 25949],
            0,
        ),
        invalid("no checksum", [0; 4], 0),
        invalid("no checksum at the end", [25948, 25947, 25950, 0], 3),
        short("behind block 65535", 65534, behind_65535, 3),
        short("behind block 131071", 131071, behind_131071, 2),
    ] {
        check_row(&rt, &row)?;
    }
    Ok(())
}

#[test]
fn a_page_with_another_checksum_is_zeroed_or_marked(rt: HostRuntime) -> Result<(), Fail> {
    for damaged in [DamagedPages::Zero, DamagedPages::Give] {
        let by_header = Row {
            checksums: false,
            damaged,
            ..with_sums("another checksum, not by its header", TWICE_COPIED)
        };
        let with_its_checksum = Row { damaged, ..whole() };
        let copied = with_sums("the page of the block before", COPIED);
        let twice_copied = with_sums("two pages", TWICE_COPIED);
        let all = with_sums("all pages", [1; 4]);
        let of_short = with_sums("a page of a short read", TWICE_COPIED);
        for row in [
            by_header,
            with_its_checksum,
            warned(copied, damaged, 4, &[2]),
            warned(twice_copied, damaged, 4, &[1, 2]),
            warned(all, damaged, 4, &[0, 1, 2, 3]),
            warned(of_short, damaged, 2, &[1]),
        ] {
            check_row(&rt, &row)?;
        }
    }
    Ok(())
}

// A page that did not come is not checked.
#[test]
fn pages_of_short_and_failed_reads(rt: HostRuntime) -> Result<(), Fail> {
    let short_and_invalid = Row {
        name: "a short read, one page with another checksum",
        answer: Raw::Read(3),
        ..invalid("", TWICE_COPIED, 1)
    };
    for row in [
        short_and_invalid,
        short("another checksum behind a short read", 4, COPIED, 2),
        without_pages("past the end", Raw::Read(0), 2),
        without_pages("a failed read", Raw::Failed, 1),
    ] {
        check_row(&rt, &row)?;
    }
    Ok(())
}

// The header counts too: block 5 with flag 8 has the checksum 46023.
#[test]
fn a_page_with_its_checksum_has_a_sane_header(rt: HostRuntime) -> Result<(), Fail> {
    for checksums in [false, true] {
        let bad = Row {
            flagged: Some(1),
            checksums,
            ..invalid("an unknown flag", [25948, 46023, 25950, 25949], 1)
        };
        check_row(&rt, &bad)?;
        for damaged in [DamagedPages::Zero, DamagedPages::Give] {
            check_row(&rt, &warned(bad, damaged, 4, &[1]))?;
        }
    }
    Ok(())
}
