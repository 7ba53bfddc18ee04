//! A map in memory.
ghost use Rattle.std.specs.Prelude.{◌≡◌, ◌++◌, ◌∷◌, [], ◌+◌, ◌≤◌, ◌<◌, length, IfOk};
ghost use Rattle.vis_map.specs.Bits.{block_bits, page_bits, is_marked};

use page_check::Page;
use std::alloc::{AllocError, Global};
use std::marker::Model;

/// How many blocks a page of a map has bits for: `HEAPBLOCKS_PER_PAGE`.
pub(crate) const BLOCKS_PER_PAGE: u32 = 32672;

/// Where the bits begin on a page, in bytes: `MAXALIGN(SizeOfPageHeaderData)`.
const BITS_START: usize = 24;

/// Which blocks are left out.
#[derive(Clone, Copy, Debug, PartialEq, Eq)]
pub enum Skip {
    /// Those whose tuples are all visible to everyone (`VISIBILITYMAP_ALL_VISIBLE`).
    Visible,
    /// Those whose tuples are all frozen (`VISIBILITYMAP_ALL_FROZEN`).
    Frozen,
}

/// A visibility map, to which its pages are added one after the other. A block whose page was not
/// added has no bit set.
#[derive(Drop)]
pub struct VisMap {
    pages: Vec<Page>,
    added: usize,
}

impl Model for VisMap {
    ghost use Rattle.std.specs.Prelude.{◌≤◌, length, take};
    ghost use Rattle.vis_map.specs.Bits.{Map};

    ghost Value = { Map };

    ghost view = { λ m. record {
      pages = length m.pages.items;
      added = take m.added m.pages.items;
    } };

    ghost invariant = { λ m. (m.added ≤ length m.pages.items) × (length m.pages.items ≤ 65) };
}

// The bits of a block on its page.
fn bits_on_page(page: &Page, block: u32) -> u8
    ensures value { result ≡ page_bits page.now block }
    ensures range { result < 4 }
{
    let place = BITS_START + (block % BLOCKS_PER_PAGE) as usize / 4;
    page.bytes()[place] >> (2 * (block % 4)) & 3
}

impl VisMap {
    /// A map for so many pages, at most 65, of which none is added yet. No other call takes memory.
    pub fn open(alloc: Global, pages: u32) -> Result<VisMap, AllocError>
        requires { pages ≤ 65 }
        ensures { IfOk result (λ m. m ≡ record { pages = pages; added = [] }) }
    {
        let mut room = Vec::with_capacity(alloc, pages as usize)?;
        for _ in 0..pages {
            room.push_reserved(Page::zeroed(alloc)?);
        }
        Ok(VisMap {
            pages: room,
            added: 0,
        })
    }

    /// How many pages it was opened for.
    pub fn pages(&self) -> u32
        ensures pages { result ≡ self.now.pages }
        ensures few { result ≤ 65 }
    {
        self.pages.len() as u32
    }

    /// Adds the next page. Any page will do.
    pub fn add(&mut self, page: &Page)
        requires { length self.old.added < self.old.pages }
        ensures { self.new ≡ record {
          pages = self.old.pages;
          added = self.old.added ++ page.now ∷ [];
        } }
    {
        self.pages[self.added].copy_from(page);
        self.added += 1;
    }

    /// The two bits of a block: 1 where all its tuples are visible, and 2 where all are frozen.
    pub fn bits(&self, block: u32) -> u8
        ensures value { result ≡ block_bits self.now.added block }
        ensures range { result < 4 }
    {
        let place = (block / BLOCKS_PER_PAGE) as usize;
        if place < self.added {
            bits_on_page(&self.pages[place], block)
        } else {
            0
        }
    }

    /// Whether a block is left out.
    pub fn skips(&self, block: u32, skip: Skip) -> bool
        ensures { result ≡ is_marked self.now.added skip block }
    {
        let bits = self.bits(block);
        match skip {
            Skip::Visible => bits % 2 == 1,
            Skip::Frozen => bits >= 2,
        }
    }
}
