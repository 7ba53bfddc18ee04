//! The blocks that a stream is to give.
ghost use Rattle.std.specs.Prelude.{◌≡◌, ◌+◌, ◌≤◌, ◌^◌};
ghost use Rattle.scan_jobs.specs.BlockFilter.{unskipped_source, filter_of_skipping};

use crate::map_filter::{MapFilter, UnskippedTest};
use block_source::{BlockSource, Filtered, Range};
use std::marker::Model;

/// So many blocks of a relation, from one on, but for those that are left out.
#[derive(Clone, Copy)]
pub struct Blocks<'m> {
    pub relation: u32,
    pub first: u32,
    pub count: u32,
    pub by_map: Option<MapFilter<'m>>,
}

/// The blocks that are not left out. Those that are left to give are how contracts see it.
#[derive(Drop)]
pub struct UnskippedBlocks<'m> {
    blocks: Filtered<Range, UnskippedTest<'m>>,
}

impl<'m> Model for UnskippedBlocks<'m> {
    ghost use Rattle.std.specs.Prelude.{ℕ, List};
    ghost use Rattle.std.specs.List.{filter};
    ghost use Rattle.scan_jobs.specs.BlockFilter.{is_unskipped, filter_of_skipping};

    ghost Value = { List (ℕ × Unit {0}) };

    ghost view = { λ k.
        filter (λ b. is_unskipped (filter_of_skipping k.blocks.keep.by_map) b.0) k.blocks.inner };
}

impl<'m> UnskippedBlocks<'m> {
    pub fn new(blocks: Blocks<'m>) -> UnskippedBlocks<'m>
        requires within { blocks.first + blocks.count ≤ 2 ^ 32 }
        ensures { result ≡ unskipped_source (filter_of_skipping blocks.entry.by_map)
            blocks.entry.first blocks.entry.count }
    {
        let kept = UnskippedTest {
            by_map: blocks.by_map,
        };
        UnskippedBlocks {
            blocks: Filtered::new(Range::new(blocks.first, blocks.count), kept),
        }
    }
}

impl BlockSource<()> for UnskippedBlocks<'_> {
    ghost left = { λ k. k };

    fn next(&mut self) -> Option<(u32, ())> {
        self.blocks.next()
    }
}
