//! The bad ones among the pages that were read.
ghost use Rattle.std.specs.Prelude.{◌≡◌, ◌≤◌, ◌<◌, ◌+◌, ◌^◌, length, IfSome};
ghost use Rattle.read_callbacks.specs.Chain.{is_bad, first_bad, bad_among};
ghost use Rattle.read_callbacks.specs.Chain.{page_if_bad, pages_for_bad, marks_for_bad};

use page_check::{Page, PageMark, Verdict, check_as};

fn is_bad_page(page: &Page, block: u32, checksums: bool) -> bool
    ensures { result ≡ is_bad checksums block page.now }
{
    matches!(check_as(page, block, checksums), Verdict::Bad)
}

/// The place of the first one.
pub(crate) fn first_bad_page(pages: &[Page], first: u32, checksums: bool) -> Option<usize>
    requires in_range { first + length pages.now ≤ 2 ^ 32 }
    ensures value { result ≡ first_bad checksums first pages.now }
    ensures within { IfSome result (λ place. place < length pages.now) }
{
    for index in 0..pages.len() {
        if is_bad_page(&pages[index], first + index as u32, checksums) {
            return Some(index);
        }
    }
    None
}

// Makes of a bad page what its mark says, and says whether it was bad.
fn page_if_bad(mark: PageMark, page: &mut Page, block: u32, checksums: bool) -> bool
    ensures bad { result ≡ is_bad checksums block page.old }
    ensures page { page.new ≡ page_if_bad mark checksums (block, page.old) }
{
    let bad = is_bad_page(page, block, checksums);
    if bad && matches!(mark, PageMark::Zeroed) {
        page.bytes_mut().fill(0);
    }
    bad
}

/// Marks them, and counts them.
pub(crate) fn mark_bad_pages(
    mark: PageMark,
    pages: &mut [Page],
    marks: &mut [PageMark],
    first: u32,
    checksums: bool,
) -> u32
    requires many { length pages.old ≤ 128 }
    requires marks { length marks.old ≡ length pages.old }
    requires in_range { first + length pages.old ≤ 2 ^ 32 }
    ensures count { result ≡ bad_among checksums first pages.old }
    ensures pages { pages.new ≡ pages_for_bad mark checksums first pages.old }
    ensures marks { marks.new ≡ marks_for_bad mark checksums first pages.old marks.old }
{
    let mut count = 0;
    for index in 0..pages.len() {
        if page_if_bad(mark, &mut pages[index], first + index as u32, checksums) {
            marks[index] = mark;
            count += 1;
        }
    }
    count
}
