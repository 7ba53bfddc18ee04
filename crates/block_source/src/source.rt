//! The trait of all sources.
ghost use Rattle.std.specs.Prelude.{List, ℕ};
ghost use Rattle.block_source.specs.BlocksLeft.{TakesFirst};

/// Gives the blocks to read, one by one, each with data of the caller's (the block number callback
/// of `read_stream.h` and its `per_buffer_data`). It may be asked at any time, and again after it
/// said that none is left.
pub trait BlockSource<P: Copy> {
    /// The blocks that are left, in the order in which they are given.
    ghost left: { Self → List (ℕ × P) };

    /// Takes the first block off the list, or says that none is left. It takes no memory.
    fn next(&mut self) -> Option<(u32, P)>
        ensures first { TakesFirst (left self.old) result (left self.new) };
}
