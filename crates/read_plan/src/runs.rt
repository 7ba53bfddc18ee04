//! Runs of neighbouring blocks.
ghost use Rattle.std.specs.Prelude.{◌≡◌, ◌+◌, ◌↔◌, IsTrue};

/// The blocks first, first + 1 and so on, to be read by one I/O.
#[derive(Clone, Copy, Debug, PartialEq, Eq)]
pub struct Run {
    pub first: u32,
    pub count: u32,
}

/// What became of a block that was offered. It is now the last of the pending run.
#[derive(Clone, Copy, Debug, PartialEq, Eq)]
pub enum Offer {
    /// Nothing was pending: the block is a run of its own.
    Start,
    /// The pending run has one block more.
    Extended,
    /// This run was pending and has to be started now; the block begins another.
    Flush(Run),
}

impl Run {
    /// The run of this block alone.
    pub(crate) fn one(block: u32) -> Run
        ensures { result ≡ record { first = block; count = 1 } }
    {
        Run {
            first: block,
            count: 1,
        }
    }

    /// Whether the run ends right before the block.
    pub(crate) fn ends_before(&self, block: u32) -> bool
        ensures { IsTrue result ↔ (self.now.first + self.now.count ≡ block) }
    {
        self.first.checked_add(self.count) == Some(block)
    }
}
