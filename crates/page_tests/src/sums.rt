//! Sums over pages.
use heap_scan::{PageSums, tally};
use page_check::{Page, count};
use page_fixtures::pages::{BOUNDS, ZEROS, bounds, page_of};
use std::test::Fail;

// Lower, upper and special.
type Bounds = (u16, u16, u16);

// As many as the greatest number of 16 bits gives as lower.
const MOST_ITEMS: u16 = 16_377;

// The sums with one page more, of which so many faults were told, where they are small.
fn with_page(mut sums: PageSums, page: &Page, faults: u32) -> PageSums {
    let greatest = sums.pages.max(sums.zero).max(sums.items).max(sums.faults);
    if greatest < 1_000_000 && count(page) <= MOST_ITEMS {
        tally(page, faults, &mut sums);
    }
    sums
}

// A page with these bounds, or of zeros.
fn page_with(bounds_of_page: Option<Bounds>) -> Page {
    match bounds_of_page {
        Some((lower, upper, special)) => page_of(&[(BOUNDS, &bounds(lower, upper, special))]),
        None => page_of(ZEROS),
    }
}

// Each page is counted once, one is all zeros, and they have 3, 1 and 2042 line pointers. The last
// two are damaged, and are counted as they are.
#[test]
fn sums_over_worked_pages(rt: HostRuntime) -> Result<(), Fail> {
    let rows: [(Option<Bounds>, u32, (u64, u64, u64, u64)); 8] = [
        (Some((24, 8192, 8192)), 0, (1, 0, 0, 0)),
        (None, 0, (2, 1, 0, 0)),
        (Some((20, 8184, 8184)), 1, (3, 1, 0, 1)),
        (Some((36, 8152, 8192)), 3, (4, 1, 3, 4)),
        (Some((30, 8192, 8192)), 0, (5, 1, 4, 4)),
        (Some((8192, 8192, 8192)), 2043, (6, 1, 2046, 2047)),
        (Some((24, 0, 8192)), 1, (7, 1, 2046, 2048)),
        (Some((65535, 0, 0)), 1, (8, 1, 18423, 2049)),
    ];
    let mut sums = PageSums::default();
    for (bounds_of_page, told, (pages, zero, items, faults)) in rows {
        sums = with_page(sums, &page_with(bounds_of_page), told);
        let wanted = PageSums {
            pages,
            zero,
            items,
            faults,
        };
        assert_eq!(rt; sums, wanted, "{pages} pages");
    }
    Ok(())
}
