//! Texts of pages, beside texts that are written out or made by a plain rule.
use heap_scan::{damaged_text, page_text};
use page_check::{Kind, LinePointer, Verdict, check};
use page_fixtures::pages::{
    BOUNDS, CONTENTS, DAMAGED, EMPTY, FLAGGED, FLAGS, Parts, ZEROS, bounds, line_pointer_bytes,
    page_of, put_bytes, valid_page_of,
};
use std::alloc::{AllocError, Global};
use std::process::Abort;
use std::test::Fail;

// Lower, upper and special.
type Bounds = (u16, u16, u16);

#[test]
fn worked_texts(rt: HostRuntime) -> Result<(), Fail> {
    let three: &[u8] = &[0xd8, 0x9f, 0x50, 0, 5, 0, 1, 0, 0, 0x80, 1, 0];
    let items = "item 1 normal 8152 40\nitem 2 redirect 5 0\nitem 3 dead 0 0\n";
    let rows: [(Bounds, &[u8], u16, &str); 4] = [
        ((24, 8192, 8192), &[], 0, ""),
        ((20, 8184, 8184), &[], 0, ""),
        ((36, 8152, 8192), three, 3, items),
        ((30, 8192, 8192), &[], 1, "item 1 unused 0 0\n"),
    ];
    for ((lower, upper, special), contents, count, items) in rows {
        let mut text = String::from_str(rt.alloc(), "page 7 1234567 ")?;
        writeln!(
            text,
            "lower {lower} upper {upper} special {special} items {count}"
        )?;
        text.push_str(items)?;
        let mut out = Vec::new(rt.alloc());
        let bounds = bounds(lower, upper, special);
        let Some(page) = valid_page_of(&[(BOUNDS, &bounds), (CONTENTS, contents)]) else {
            panic!(rt; "{text}")
        };
        page_text(7, 1234567, &page, &mut out)?;
        assert_eq!(rt; out.as_slice(), text.as_bytes(), "{text}");
    }
    Ok(())
}

// Relations and blocks, of which a text has the digits.
#[test]
fn a_new_page_has_one_line(rt: HostRuntime) -> Result<(), Fail> {
    let rows: [(u32, u32, &str); 4] = [
        (7, 1234567, "page 7 1234567 new\n"),
        (0, 9999, "page 0 9999 new\n"),
        (9999, 10000, "page 9999 10000 new\n"),
        (u32::MAX, u32::MAX, "page 4294967295 4294967295 new\n"),
    ];
    for (relation, block, text) in rows {
        let mut out = Vec::new(rt.alloc());
        let Some(page) = valid_page_of(ZEROS) else {
            panic!(rt; "{text}")
        };
        page_text(relation, block, &page, &mut out)?;
        assert_eq!(rt; out.as_slice(), text.as_bytes(), "{text}");
    }
    Ok(())
}

// Its line pointers are not listed, of which the first has some.
#[test]
fn a_damaged_page_has_one_line(rt: HostRuntime) -> Result<(), Fail> {
    let items = bounds(304, 256, 8192);
    let rows: [((u32, u32), Parts<'_>, &str); 6] = [
        (
            (0, 10),
            &[(FLAGS, &[2]), (BOUNDS, &items)],
            "page 0 10 damaged flags 2 lower 304 upper 256 special 8192\n",
        ),
        (
            (7, 1234567),
            DAMAGED,
            "page 7 1234567 damaged flags 0 lower 0 upper 0 special 0\n",
        ),
        (
            (1, 0),
            FLAGGED,
            "page 1 0 damaged flags 8 lower 24 upper 8192 special 8192\n",
        ),
        // One whose header is sane is damaged by its checksum.
        (
            (0, 0),
            EMPTY,
            "page 0 0 damaged flags 0 lower 24 upper 8192 special 8192\n",
        ),
        (
            (9999, 10000),
            &[(FLAGS, &[0x10, 0x27, 0x0f, 0x27, 0xe8, 3, 99, 0])],
            "page 9999 10000 damaged flags 10000 lower 9999 upper 1000 special 99\n",
        ),
        (
            (u32::MAX, u32::MAX),
            &[(0, &[0xff; 8192])],
            "page 4294967295 4294967295 damaged flags 65535 lower 65535 upper 65535 special 65535\n",
        ),
    ];
    for ((relation, block), parts, line) in rows {
        let mut out = Vec::from_slice(rt.alloc(), b"before\n")?;
        damaged_text(relation, block, &page_of(parts), &mut out)?;
        let wanted = format!(in rt.alloc(); "before\n{line}")?;
        assert_eq!(rt; out.as_slice(), wanted.as_str().as_bytes(), "{line}");
    }
    Ok(())
}

fn word(kind: Kind) -> &'static str {
    match kind {
        Kind::Unused => "unused",
        Kind::Normal => "normal",
        Kind::Redirect => "redirect",
        Kind::Dead => "dead",
    }
}

// The text of a page of these line pointers behind what the vector held, beside the plain rule's.
fn check_items<R: Abort + AllocGlobal>(
    rt: &R,
    (relation, block): (u32, u32),
    items: &[LinePointer],
) -> Result<(), Fail> {
    let alloc = rt.alloc();
    let count = items.len();
    let lower = (24 + 4 * count.min(2042)) as u16;
    let mut page = page_of(&[(BOUNDS, &bounds(lower, 8192, 8192))]);
    let mut wanted = String::from_str(alloc, "before\n")?;
    writeln!(
        wanted,
        "page {relation} {block} lower {lower} upper 8192 special 8192 items {count}"
    )?;
    for (index, item) in items.iter().enumerate() {
        let LinePointer {
            offset,
            kind,
            length,
        } = *item;
        let place = index.saturating_mul(4).saturating_add(CONTENTS);
        put_bytes(&mut page, place, &line_pointer_bytes(offset, kind, length));
        let number = index.saturating_add(1);
        writeln!(wanted, "item {number} {} {offset} {length}", word(kind))?;
    }
    let mut out = Vec::from_slice(alloc, b"before\n")?;
    assert!(rt; check(&page) == Verdict::Sane, "{count} items");
    page_text(relation, block, &page, &mut out)?;
    assert_eq!(rt; out.as_slice(), wanted.as_str().as_bytes(), "{count} items");
    Ok(())
}

// A line pointer of any kind inside the page, by its index.
fn inside(index: u16) -> LinePointer {
    let kind = match index % 5 {
        0 => Kind::Redirect,
        1 => Kind::Dead,
        2 => Kind::Unused,
        _ => Kind::Normal,
    };
    LinePointer {
        offset: 8191 - index.wrapping_mul(37) % 8192,
        kind,
        length: index.wrapping_mul(11) % 8192,
    }
}

// Pages of so many line pointers as are written at a time, of fewer and of more, up to as many as a
// page can have.
#[test]
fn items_up_to_2042(rt: HostRuntime) -> Result<(), Fail> {
    let alloc = rt.alloc();
    for count in [0u16, 1, 8, 9, 63, 64, 65, 127, 128, 129, 226, 291, 2042] {
        let mut items: Vec<LinePointer> = Vec::new(alloc);
        for index in 0..count {
            items.push(inside(index))?;
        }
        check_items(&rt, (u32::from(count), 9999), items.as_slice())?;
    }
    Ok(())
}

// Line pointers with each of the two numbers as offset and as length.
fn crossed(alloc: Global, one: u16, other: u16) -> Result<Vec<LinePointer>, AllocError> {
    let mut items = Vec::new(alloc);
    for kind in [Kind::Unused, Kind::Normal, Kind::Redirect, Kind::Dead] {
        for (offset, length) in [(one, one), (one, other), (other, one), (other, other)] {
            items.push(LinePointer {
                offset,
                kind,
                length,
            })?;
        }
    }
    Ok(items)
}

// Numbers of each length up to the greatest, also such as point outside the page.
#[test]
fn offsets_and_lengths_up_to_32767(rt: HostRuntime) -> Result<(), Fail> {
    let numbers = [
        0u16, 9, 10, 99, 100, 999, 1000, 8191, 8192, 9999, 10000, 32767,
    ];
    for one in numbers {
        for other in numbers {
            let items = crossed(rt.alloc(), one, other)?;
            let place = (u32::from(one), 10000 + u32::from(other));
            check_items(&rt, place, items.as_slice())?;
        }
    }
    Ok(())
}
