//! Visibility maps.
use page_check::{Page, Verdict, check};
use page_fixtures::pages::{BOUNDS, CONTENTS, bounds, page_of};
use std::alloc::{AllocError, Global};
use std::test::Fail;
use vis_map::{Skip, VisMap, needed_pages};

// An empty page with these bytes behind the header, and this one at its end.
fn map_page(bits: &[u8], last: u8) -> Page {
    let bounds = bounds(24, 8192, 8192);
    page_of(&[(BOUNDS, &bounds), (CONTENTS, bits), (8191, &[last])])
}

// The blocks below a number that a map of one page does not mark.
fn unmarked(alloc: Global, page: &Page, end: u32, skip: Skip) -> Result<Vec<u32>, AllocError> {
    let mut map = VisMap::open(alloc, 1)?;
    if check(page) != Verdict::Bad {
        map.add(page);
    }
    let mut blocks = Vec::new(alloc);
    for block in 0..end {
        if !map.skips(block, skip) {
            blocks.push(block)?;
        }
    }
    Ok(blocks)
}

#[test]
fn two_bytes_of_bits(rt: HostRuntime) -> Result<(), Fail> {
    let page = map_page(&[0x45, 0x03], 0);
    let rows: [(Skip, &[u32]); 2] = [
        (Skip::Visible, &[2, 5, 6, 7]),
        (Skip::Frozen, &[0, 1, 2, 3, 5, 6, 7]),
    ];
    for (skip, wanted) in rows {
        let blocks = unmarked(rt.alloc(), &page, 8, skip)?;
        assert_eq!(rt; blocks.as_slice(), wanted, "{skip:?}");
    }
    Ok(())
}

#[test]
fn no_page_marks_nothing(rt: HostRuntime) -> Result<(), Fail> {
    let map = VisMap::open(rt.alloc(), 0)?;
    assert_eq!(rt; map.pages(), 0);
    assert_eq!(rt; map.bits(0), 0);
    assert!(rt; !map.skips(131071, Skip::Visible) && !map.skips(131071, Skip::Frozen));
    Ok(())
}

// The last block of the first page of a map and the first of the second.
#[test]
fn blocks_of_two_pages(rt: HostRuntime) -> Result<(), Fail> {
    let mut map = VisMap::open(rt.alloc(), 2)?;
    let first = map_page(&[], 0xc0);
    let second = map_page(&[0x02], 0);
    if check(&first) != Verdict::Bad && check(&second) != Verdict::Bad {
        map.add(&first);
        assert_eq!(rt; (map.bits(32671), map.bits(32672)), (3, 0));
        map.add(&second);
    }
    assert_eq!(rt;
        (map.bits(32670), map.bits(32671), map.bits(32672)),
        (0, 3, 2)
    );
    assert_eq!(rt;
        (map.pages(), map.bits(65344), map.bits(u32::MAX)),
        (2, 0, 0)
    );
    Ok(())
}

// A map has 65 pages at most.
#[test]
fn maps_of_several_pages_are_opened(rt: HostRuntime) -> Result<(), Fail> {
    for pages in [3, 4, 64, 65] {
        match VisMap::open(rt.alloc(), pages) {
            Ok(map) => assert_eq!(rt; map.pages(), pages, "{pages} pages"),
            Err(_) => panic!(rt; "{pages} pages: no memory"),
        }
    }
    Ok(())
}

#[test]
fn pages_that_are_needed(rt: HostRuntime) -> Result<(), Fail> {
    let rows: [(u32, Option<u32>, u32); 7] = [
        (9, None, 0),
        (0, Some(5), 0),
        (9, Some(32671), 1),
        (9, Some(32672), 2),
        (3, Some(131071), 3),
        (9, Some(131071), 5),
        (u32::MAX, Some(u32::MAX), 131_458),
    ];
    for (pages, greatest, needed) in rows {
        assert_eq!(rt;
            needed_pages(pages, greatest),
            needed,
            "{pages} {greatest:?}"
        );
    }
    Ok(())
}
