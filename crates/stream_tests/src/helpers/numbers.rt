//! Numbers that look random.
ghost use Rattle.std.specs.Prelude.{◌<◌, ◌≤◌};

use page_check::{DamagedPages, PageRules};
use read_stream::Settings;
use std::alloc::Global;
use std::test::Fail;

/// The state of a linear congruential generator.
#[derive(Drop)]
pub(crate) struct Numbers(pub u64);

impl Numbers {
    /// The next number, below `limit`.
    pub(crate) fn below(&mut self, limit: u32) -> u32
        requires { 0 < limit }
        ensures { result < limit }
    {
        self.0 = self
            .0
            .wrapping_mul(6364136223846793005)
            .wrapping_add(1442695040888963407);
        (self.0 >> 33) as u32 % limit
    }

    pub(crate) fn flag(&mut self) -> bool {
        self.below(2) == 1
    }

    /// One of so many blocks, or mostly none.
    pub(crate) fn one_of(&mut self, blocks: u32) -> Option<u32>
        requires { 0 < blocks }
    {
        if self.below(3) == 0 {
            Some(self.below(blocks))
        } else {
            None
        }
    }

    /// Up to two of so many blocks.
    pub(crate) fn some_of(&mut self, alloc: Global, blocks: u32) -> Result<Vec<u32>, Fail>
        requires { 0 < blocks }
    {
        let mut some = Vec::new(alloc);
        for _ in 0..self.below(3) {
            some.push(self.below(blocks))?;
        }
        Ok(some)
    }

    /// The segment size that PostgreSQL has by default, or a small one.
    fn segment(&mut self) -> u32
        ensures { 1 ≤ result }
    {
        if self.flag() {
            131072
        } else {
            1 + self.below(6)
        }
    }

    pub(crate) fn rules(&mut self) -> PageRules {
        PageRules {
            checksums: self.flag(),
            damaged: match self.below(3) {
                0 => DamagedPages::Refuse,
                1 => DamagedPages::Zero,
                _ => DamagedPages::Give,
            },
        }
    }

    pub(crate) fn settings(&mut self) -> Settings
        ensures { 1 ≤ result.segment }
    {
        Settings {
            combine: 1 + self.below(5),
            ios: 1 + self.below(3),
            limit: 1 + self.below(32),
            full: self.flag(),
            batch: self.flag(),
            segment: self.segment(),
            rules: self.rules(),
        }
    }

    /// Up to `most` blocks below `limit`, some of them neighbours.
    pub(crate) fn list(
        &mut self,
        alloc: Global,
        most: u32,
        limit: u32,
    ) -> Result<Vec<(u32, u32)>, Fail>
        requires most { most ≤ 100 }
        requires limit { 0 < limit }
    {
        let mut list = Vec::new(alloc);
        let mut block = self.below(limit);
        for _ in 0..self.below(most + 1) {
            list.push((block, self.below(1000)))?;
            block = if self.below(4) > 0 {
                block.wrapping_add(1) % limit
            } else {
                self.below(limit)
            };
        }
        Ok(list)
    }

    /// At most how many pages the first reads answer.
    pub(crate) fn shorts(&mut self, alloc: Global) -> Result<Vec<u32>, Fail> {
        let mut most = Vec::new(alloc);
        for _ in 0..self.below(8) {
            most.push(1 + self.below(4))?;
        }
        Ok(most)
    }

    /// A read of the first disk that fails, or none.
    pub(crate) fn fault(&mut self, alloc: Global) -> Result<Vec<(u32, u64)>, Fail> {
        let mut reads = Vec::new(alloc);
        if self.below(3) == 0 {
            reads.push((0, 1 + u64::from(self.below(8))))?;
        }
        Ok(reads)
    }
}
