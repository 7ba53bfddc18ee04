//! Pages, their fields and their check.
use page_check::{
    Kind, LinePointer, PAGE_SIZE, Page, PageHeader, Verdict, check, count, header, laws,
    line_pointer,
};
use page_fixtures::pages::{BOUNDS, CONTENTS, FLAGS, bounds, line_pointer_bytes, page_of};
use std::marker::Brand;
use std::test::Fail;

// Lower, upper and special.
type Bounds = (u16, u16, u16);

// A page of zeros, with these bounds where there are any, and these bytes at an offset.
fn page_with(parts: (Option<Bounds>, usize, &[u8])) -> Page {
    let (bounds_of_page, offset, part) = parts;
    match bounds_of_page {
        Some((lower, upper, special)) => {
            page_of(&[(BOUNDS, &bounds(lower, upper, special)), (offset, part)])
        }
        None => page_of(&[(offset, part)]),
    }
}

// The verdict, how many line pointers there are, and the first of them.
fn summary(page: &Page) -> (Verdict, u16, Option<LinePointer>) {
    let verdict = check(page);
    let items = count(page);
    let first = if verdict != Verdict::Bad && items > 0 {
        Some(line_pointer(page, 0))
    } else {
        None
    };
    (verdict, items, first)
}

const EMPTY: Option<Bounds> = Some((24, 8192, 8192));

#[test]
fn worked_pages(rt: HostRuntime) -> Result<(), Fail> {
    use Verdict::{Bad, Sane, Zero};
    let none: &[u8] = &[];
    let rows: [(&str, (Option<Bounds>, usize, &[u8]), Verdict, u16); 11] = [
        ("empty", (EMPTY, 0, none), Sane, 0),
        ("zeros", (None, 0, none), Zero, 0),
        ("zeros but one byte", (None, 8000, &[1]), Bad, 0),
        ("zeros but the last byte", (None, 8191, &[1]), Bad, 0),
        ("flags 8", (EMPTY, FLAGS, &[8, 0]), Bad, 0),
        ("flags 7", (EMPTY, FLAGS, &[7, 0]), Sane, 0),
        ("special 8188", (Some((24, 8184, 8188)), 0, none), Bad, 0),
        ("special 8184", (Some((24, 8184, 8184)), 0, none), Sane, 0),
        ("lower 20", (Some((20, 8192, 8192)), 0, none), Sane, 0),
        ("lower 8193", (Some((8193, 8192, 8192)), 0, none), Bad, 2042),
        ("upper 8193", (Some((24, 8193, 8192)), 0, none), Bad, 0),
    ];
    for (name, parts, verdict, items) in rows {
        let page = page_with(parts);
        assert_eq!(rt; summary(&page), (verdict, items, None), "{name}");
    }
    Ok(())
}

// Pages with line pointers, and the first of them: its bytes, its offset, kind and length.
#[test]
fn first_line_pointers(rt: HostRuntime) -> Result<(), Fail> {
    use Kind::{Dead, Normal, Redirect, Unused};
    let one: Bounds = (28, 8152, 8192);
    let rows: [(&str, Bounds, [u8; 4], (u16, Kind, u16)); 6] = [
        ("normal", one, [0xd8, 0x9f, 0x50, 0], (8152, Normal, 40)),
        ("redirect", one, [5, 0, 1, 0], (5, Redirect, 0)),
        ("dead", one, [0, 0x80, 1, 0], (0, Dead, 0)),
        ("all bits set", one, [0xff; 4], (32767, Dead, 32767)),
        ("lower 30", (30, 8192, 8192), [0; 4], (0, Unused, 0)),
        ("2042 items", (8192, 8192, 8192), [0; 4], (0, Unused, 0)),
    ];
    for (name, (lower, upper, special), bytes, (offset, kind, length)) in rows {
        let first = LinePointer {
            offset,
            kind,
            length,
        };
        let items = if lower == 8192 { 2042 } else { 1 };
        let page = page_with((Some((lower, upper, special)), CONTENTS, &bytes));
        assert_eq!(rt;
            summary(&page),
            (Verdict::Sane, items, Some(first)),
            "{name}"
        );
        assert_eq!(rt; line_pointer_bytes(offset, kind, length), bytes, "{name}");
    }
    Ok(())
}

#[test]
fn header_fields_are_little_endian(rt: HostRuntime) -> Result<(), Fail> {
    let page = page_of(&[(8, &[2, 1, 4, 3, 6, 5, 8, 7, 10, 9, 12, 11, 16, 15, 14, 13])]);
    let mut copy = Page::zeroed(rt.alloc())?;
    copy.copy_from(&page);
    let wanted = PageHeader {
        checksum: 0x0102,
        flags: 0x0304,
        lower: 0x0506,
        upper: 0x0708,
        special: 0x090a,
        pagesize_version: 0x0b0c,
        prune_xid: 0x0d0e_0f10,
    };
    assert_eq!(rt; header(&copy), wanted);
    assert_eq!(rt; copy.bytes(), page.bytes());
    Ok(())
}

#[test]
fn a_page_is_zeros_until_it_is_filled(rt: HostRuntime) -> Result<(), Fail> {
    let zeros = [0; PAGE_SIZE];
    let ones = [1; PAGE_SIZE];
    let mut page = Page::zeroed(rt.alloc())?;
    assert_eq!(rt; page.bytes(), zeros.as_slice(), "not written");
    assert_eq!(rt; &*page.bytes_mut(), zeros.as_slice(), "lent for writing");
    page.fill(&ones);
    assert_eq!(rt; page.bytes(), ones.as_slice(), "filled");
    Ok(())
}

#[test]
fn laws_have_a_caller(rt: HostRuntime) -> Result<(), Fail> {
    laws::a_page_has_8192_bytes(&Page::zeros());
    laws::answers_come_one_by_one::<(), Brand>();
    laws::what_is_found_is_answered_next::<(), Brand>();
    laws::answers_to_joined_lists::<(), Brand>();
    laws::answers_end_as_synchronous_reads::<(), Brand>();
    Ok(())
}
