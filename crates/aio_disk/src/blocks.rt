//! Blocks that are copied into pages.
ghost use Rattle.std.specs.Prelude.{◌≡◌, ◌≤◌, ◌<◌, ◌-◌, ℕ, List, min, length};
ghost use Rattle.page_check.specs.Told.{block_count, block_contents};
ghost use Rattle.aio_disk.specs.Disk.{HoldsBlocks};

use page_check::{PAGE_SIZE, Page};

/// Whole blocks in memory, one behind the other.
pub(crate) trait Blocks {
    /// The bytes whose blocks they are.
    ghost bytes: { Self → List ℕ };

    /// How many there are.
    fn count(&self) -> u32
        ensures { result ≡ block_count (bytes self.now) };

    /// The bytes of one of them.
    fn block(&self, block: u32) -> &[u8]
        requires { block < block_count (bytes self.now) }
        ensures page { result.now ≡ block_contents (bytes self.now) block }
        ensures size { length result.now ≡ 8192 };
}

/// How many whole blocks the bytes have.
#[tactic(auto, unfolding(page_check::specs::Told::block_count))]
pub(crate) fn whole_blocks(bytes: &[u8]) -> u32
    ensures { result ≡ block_count bytes.now }
{
    (bytes.len() / PAGE_SIZE).min(u32::MAX as usize) as u32
}

/// The bytes of a block.
#[tactic(auto, unfolding(page_check::specs::Told::block_count, page_check::specs::Told::block_contents))]
pub(crate) fn block_bytes(bytes: &[u8], block: u32) -> &[u8]
    requires { block < block_count bytes.now }
    ensures page { result.now ≡ block_contents bytes.now block }
    ensures size { length result.now ≡ 8192 }
{
    let start = PAGE_SIZE * block as usize;
    &bytes[start..start + PAGE_SIZE]
}

/// The whole blocks of some bytes.
#[derive(Drop)]
pub(crate) struct WholeBlocks<'a> {
    pub bytes: &'a [u8],
}

impl Blocks for WholeBlocks<'_> {
    ghost bytes = { λ blocks. blocks.bytes.now };

    fn count(&self) -> u32 {
        whole_blocks(self.bytes)
    }

    fn block(&self, block: u32) -> &[u8] {
        block_bytes(self.bytes, block)
    }
}

/// Copies blocks from `first` on into the pages, and no more than `most`, and says how many.
pub(crate) fn copy_blocks<B: Blocks>(blocks: &B, first: u32, most: u32, pages: &mut [Page]) -> u32
    requires { length pages.old ≤ 128 }
    ensures count { result
        ≡ min (block_count (B.bytes blocks.now) - first) (min most (length pages.old)) }
    ensures pages { HoldsBlocks (B.bytes blocks.now) first result pages.new }
{
    let room = most.min(pages.len() as u32);
    let count = blocks.count().saturating_sub(first).min(room);
    for index in 0..count {
        pages[index as usize].fill(blocks.block(first + index));
    }
    count
}
