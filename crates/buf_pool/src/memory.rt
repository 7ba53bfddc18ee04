//! Memory for one page.
ghost use Rattle.std.specs.Prelude.{◌≡◌, [], length, IfOk, MatchOption};

use page_check::Page;
use std::alloc::{AllocError, Global};
use std::marker::Model;

/// Memory for one page. Contracts see it as the bytes of the page that was written last, and none
/// before. It is taken when it is opened, and touched by the first write.
#[derive(Drop)]
pub(crate) struct PageMemory {
    pages: Vec<Page>,
}

impl Model for PageMemory {
    ghost use Rattle.std.specs.Prelude.{◌≤◌, [], List, ℕ, slice_index_or, vec_capacity};

    ghost Value = { List ℕ };

    ghost view = { λ m. slice_index_or m.pages.items 0 [] };

    ghost invariant = { λ m. 1 ≤ vec_capacity m.pages };
}

impl PageMemory {
    /// Memory with no page.
    pub(crate) fn open(alloc: Global) -> Result<PageMemory, AllocError>
        ensures { IfOk result (λ memory. memory ≡ []) }
    {
        let pages = Vec::with_capacity(alloc, 1)?;
        Ok(PageMemory { pages })
    }

    /// The page, where one was written.
    pub(crate) fn page(&self) -> Option<&Page>
        ensures { MatchOption result (self.now ≡ []) (λ page. page.now ≡ self.now) }
    {
        if self.pages.is_empty() {
            None
        } else {
            Some(&self.pages[0])
        }
    }

    /// Becomes the memory of this page.
    pub(crate) fn write(&mut self, page: &Page)
        ensures value { self.new ≡ page.now }
        ensures size { length page.now ≡ 8192 }
    {
        if self.pages.is_empty() {
            self.pages.push_reserved(Page::zeros());
        }
        self.pages[0].fill(page.bytes());
    }
}
