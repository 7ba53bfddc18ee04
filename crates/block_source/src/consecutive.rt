//! Blocks one after the other.
ghost use Rattle.std.specs.Prelude.{◌≡◌, ◌+◌, ◌^◌, ◌≤◌, length};
ghost use Rattle.block_source.specs.BlocksLeft.{consecutive_blocks};

use crate::source::BlockSource;
use std::marker::Model;

/// The blocks first, first + 1 and so on.
#[derive(Drop)]
pub struct Range {
    // The block to give next, where one is left; 2^32 after the greatest block.
    next: u64,
    count: u32,
}

impl Model for Range {
    ghost use Rattle.std.specs.Prelude.{ℕ, List, ◌+◌, ◌^◌, ◌≤◌};
    ghost use Rattle.block_source.specs.BlocksLeft.{consecutive_blocks};

    ghost Value = { List (ℕ × Unit {0}) };

    ghost view = { λ range. consecutive_blocks range.next range.count };

    ghost invariant = { λ range. range.next + range.count ≤ 2 ^ 32 };
}

impl Range {
    /// A source of `count` blocks from `first` on.
    pub fn new(first: u32, count: u32) -> Range
        requires { first + count ≤ 2 ^ 32 }
        ensures blocks { result ≡ consecutive_blocks first count }
        ensures count { length result ≡ count }
    {
        Range {
            next: first as u64,
            count,
        }
    }
}

impl BlockSource<()> for Range {
    ghost left = { λ range. range };

    fn next(&mut self) -> Option<(u32, ())> {
        if self.count == 0 {
            return None;
        }
        let block = self.next as u32;
        self.next += 1;
        self.count -= 1;
        Some((block, ()))
    }
}
