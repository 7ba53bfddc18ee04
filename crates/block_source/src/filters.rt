//! Blocks of another source that a test accepts.
ghost use Rattle.std.specs.Prelude.{◌≡◌, ℕ, Bool};

use crate::source::BlockSource;

/// A test of blocks, which may be asked about each block at any time, and whose answer depends on
/// the test and on the block alone. A test that is fixed is a unit type; one that depends on values
/// known at run time is a struct that holds them.
pub trait BlockTest {
    /// Whether a block is accepted.
    ghost accepts: { Self → ℕ → Bool };

    /// Answers whether this block is accepted. It takes no memory.
    fn is_accepted(&self, block: u32) -> bool
        ensures { result ≡ accepts self.now block };
}

/// The blocks of another source that a test accepts, with their data, in the other's order.
#[derive(Drop)]
pub struct Filtered<S, T> {
    pub inner: S,
    pub keep: T,
}

impl<S, T: BlockTest> Filtered<S, T> {
    /// A source of the blocks of `inner` that `keep` accepts.
    pub fn new(inner: S, keep: T) -> Filtered<S, T>
        ensures inner { result.inner ≡ inner }
        ensures keep { result.keep ≡ keep }
    {
        Filtered { inner, keep }
    }
}

impl<P: Copy, S: BlockSource<P>, T: BlockTest> BlockSource<P> for Filtered<S, T> {
    ghost use Rattle.std.specs.Prelude.{filter};

    ghost left = { λ s. filter (λ b. T.accepts s.keep b.0) (S.left s.inner) };

    fn next(&mut self) -> Option<(u32, P)> {
        while let Some(next) = self.inner.next() {
            if self.keep.is_accepted(next.0) {
                return Some(next);
            }
        }
        None
    }
}
