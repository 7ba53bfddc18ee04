//! Blocks at equal distances.
ghost use Rattle.std.specs.Prelude.{◌≡◌, ℕ, ◌+◌, ◌*◌, ◌^◌, ◌<◌, length};
ghost use Rattle.block_source.specs.BlocksLeft.{strided_blocks};

use crate::source::BlockSource;
use std::marker::Model;

/// The blocks first, first + step, first + 2 * step and so on.
#[derive(Drop)]
pub struct Stepped {
    // The block to give next, where one is left.
    next: u64,
    step: u32,
    count: u32,
}

impl Model for Stepped {
    ghost use Rattle.std.specs.Prelude.{ℕ, List, ◌+◌, ◌*◌, ◌^◌, ◌<◌};
    ghost use Rattle.block_source.specs.BlocksLeft.{strided_blocks};

    ghost Value = { List (ℕ × Unit {0}) };

    ghost view = { λ s. strided_blocks s.next s.step s.count };

    ghost invariant = { λ s. (i : ℕ) → i < s.count → s.next + i * s.step < 2 ^ 32 };
}

impl Stepped {
    /// A source of `count` blocks from `first` on, `step` apart.
    pub fn new(first: u32, step: u32, count: u32) -> Stepped
        requires { (i : ℕ) → i < count → first + i * step < 2 ^ 32 }
        ensures blocks { result ≡ strided_blocks first step count }
        ensures count { length result ≡ count }
    {
        Stepped {
            next: first as u64,
            step,
            count,
        }
    }
}

impl BlockSource<()> for Stepped {
    ghost left = { λ s. s };

    fn next(&mut self) -> Option<(u32, ())> {
        if self.count == 0 {
            return None;
        }
        let block = self.next as u32;
        self.next += self.step as u64;
        self.count -= 1;
        Some((block, ()))
    }
}
