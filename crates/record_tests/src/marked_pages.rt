//! The good pages of a read that has ended, and what is said of them.
ghost use Rattle.std.specs.Prelude.{◌≢◌};
ghost use Rattle.aio_word.specs.declared.Class.TheVariants.{Unended};

use aio_callback::ReadIo;
use page_check::{Page, PageMark};
use page_fixtures::pages::{DAMAGED, ZEROS, page_of};
use std::alloc::{AllocError, Global};
use std::process::Abort;

/// A good page, and what is said of it.
#[derive(Drop)]
pub(crate) struct MarkedPage {
    mark: PageMark,
    page: Page,
}

/// The good pages of a record that has ended.
pub(crate) fn good_pages(alloc: Global, io: &ReadIo) -> Result<Vec<MarkedPage>, AllocError>
    requires { io.now.label.ended ≢ Unended }
{
    let mut pages = Vec::new(alloc);
    for index in 0..io.good() {
        let mut page = Page::zeros();
        page.copy_from(io.page(index));
        pages.push(MarkedPage {
            mark: io.mark(index),
            page,
        })?;
    }
    Ok(pages)
}

/// Which good page is not valid, if any, and its mark.
pub(crate) type Marked = Option<(usize, PageMark)>;

/// Checks that so many pages are good, and that the marked one alone is not valid. They are zeros,
/// and a damaged one is as it was read.
pub(crate) fn check_pages<R: Abort>(
    rt: &R,
    pages: &[MarkedPage],
    good: u32,
    marked: Marked,
    name: &str,
) {
    assert_eq!(rt; pages.len(), good as usize, "{name}");
    for (index, page) in pages.iter().enumerate() {
        let mark = match marked {
            Some((place, mark)) if place == index => mark,
            _ => PageMark::Valid,
        };
        let parts = if mark == PageMark::Damaged {
            DAMAGED
        } else {
            ZEROS
        };
        check_page(rt, page, mark, &page_of(parts), name);
    }
}

/// Checks what is said of a page, and its bytes.
pub(crate) fn check_page<R: Abort>(
    rt: &R,
    marked: &MarkedPage,
    mark: PageMark,
    page: &Page,
    name: &str,
) {
    assert_eq!(rt; marked.mark, mark, "{name}");
    assert!(rt;
        marked.page.bytes() == page.bytes(),
        "{name}: the bytes of a page"
    );
}
