//! A page in memory.
ghost use Rattle.std.specs.Prelude.{◌≡◌, ◌≤◌, ◌*◌, ◌++◌, length, take, drop, replicate, IfOk};
ghost use Rattle.std.specs.Borrow.{Lends, LendsBoth, Array, sem, u8};
ghost use Rattle.std.specs.List.{flat_map};
ghost use Rattle.std.specs.Simd.{first_chunks};
ghost use Rattle.page_check.specs.contracts.page.Page.{the_row};

use std::alloc::{AllocError, Global};
use std::marker::Model;
use std::slice::from_raw_parts_mut;

/// How many bytes a page has: `BLCKSZ` of a server with the default block size.
pub const PAGE_SIZE: usize = 8192;

/// A page, which contracts see as the list of its 8192 bytes. Pages of a slice lie side by side:
/// [`split_bytes`] lends their bytes as one slice.
#[derive(Drop)]
pub struct Page {
    bytes: [u8; PAGE_SIZE],
}

impl Model for Page {
    ghost use Rattle.std.specs.Prelude.{List, ℕ};

    ghost Value = { List ℕ };

    ghost view = { λ p. p.bytes };
}

impl Page {
    /// A page of zero bytes.
    pub fn zeros() -> Page
        ensures { result ≡ replicate 8192 0 }
    {
        Page {
            bytes: [0; PAGE_SIZE],
        }
    }

    /// A page of zero bytes. It never fails.
    pub fn zeroed(_alloc: Global) -> Result<Page, AllocError>
        ensures { IfOk result (λ page. page ≡ replicate 8192 0) }
    {
        Ok(Page::zeros())
    }

    /// All its bytes.
    pub fn bytes(&self) -> &[u8]
        ensures value { result.now ≡ self.now }
        ensures size { length result.now ≡ 8192 }
    {
        &self.bytes
    }

    /// All its bytes, for writing. Once the borrow ends the page is what was written last.
    pub fn bytes_mut(&mut self) -> &mut [u8]
        ensures* writes_back { sem 𝓛
            (Lends the_row (Array u8 0) self.entry result (λ bytes. bytes)) }
        ensures value { result.now ≡ self.old }
        ensures size { length result.now ≡ 8192 }
    {
        self.bytes.as_mut_slice()
    }

    /// Becomes the page of these bytes.
    pub fn fill(&mut self, bytes: &[u8])
        requires { length bytes.now ≡ 8192 }
        ensures { self.new ≡ bytes.now }
    {
        self.bytes.copy_from_slice(bytes);
    }

    /// Becomes equal to the other page.
    pub fn copy_from(&mut self, other: &Page)
        ensures { self.new ≡ other.now }
    {
        self.fill(other.bytes());
    }
}

/// The bytes of the first pages, one page after the other, and the other pages. Once both borrows
/// end, each of the first pages is its bytes of what was written last.
pub fn split_bytes(pages: &mut [Page], count: usize) -> (&mut [u8], &mut [Page])
    requires { count ≤ length pages.old }
    ensures* writes_back { sem 𝓛 (LendsBoth (Array the_row 0) (Array u8 0) (Array the_row 0)
        pages.entry result (λ bytes rest. first_chunks 8192 count bytes ++ rest)) }
    ensures bytes { result.0.now ≡ flat_map (λ x. x) (take count pages.old) }
    ensures size { length result.0.now ≡ count * 8192 }
    ensures rest { result.1.now ≡ drop count pages.old }
{
    let others = pages.len() - count;
    let start = pages.as_mut_ptr();
    unsafe {
        (
            from_raw_parts_mut(start as *mut u8, count * PAGE_SIZE),
            from_raw_parts_mut(start.add(count), others),
        )
    }
}
