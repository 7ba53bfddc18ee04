//! How much of a map has to be read.
ghost use Rattle.std.specs.Prelude.{◌≡◌, ℕ, List, ◌^◌, ◌<◌, ◌≤◌, length, take, IfSome, IsSome};
ghost use Rattle.vis_map.specs.Bits.{block_bits};
ghost use Rattle.vis_map.specs.MapRequest.{needed_pages};

use crate::map::BLOCKS_PER_PAGE;

/// How many pages of a map of so many are read, for blocks of which this is the greatest: those
/// that have bits of such blocks.
pub fn needed_pages(pages: u32, greatest: Option<u32>) -> u32
    ensures value { result ≡ needed_pages pages greatest }
    ensures few { IfSome greatest (λ block. block < 2 ^ 21) → result ≤ 65 }

    // No page more changes the bits of a block up to the greatest.
    ensures enough { (map : List (List ℕ)) (block : ℕ) → length map ≡ pages
        → IfSome greatest (λ last. block ≤ last) → IsSome greatest
        → block_bits (take result map) block ≡ block_bits map block }
{
    match greatest {
        Some(block) => pages.min(block / BLOCKS_PER_PAGE + 1),
        None => 0,
    }
}
