//! Counts line pointers.

use page_check::{Page, PageMark, count};
use page_reader::PageConsumer;

/// The line pointers of the pages that were taken.
#[derive(Clone, Copy)]
pub struct Items {
    pub count: u64,
}

impl PageConsumer for Items {
    ghost use Rattle.std.specs.Prelude.{◌≡◌, ◌*◌, ◌≤◌, ◌^◌, length};
    ghost use Rattle.example_source.specs.Counts.{count_items};

    ghost holds = { λ items pages. (items.count ≡ count_items pages)
        × (items.count ≤ 65535 * length pages) };

    ghost most = { λ _. 2 ^ 32 };

    fn take(&mut self, _block: u32, page: &Page, _mark: PageMark) {
        self.count += u64::from(count(page));
    }
}
