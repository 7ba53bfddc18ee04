//! What a stream has at hand.
ghost use Rattle.std.specs.Prelude.{◌≡◌, is_some};
ghost use Rattle.read_stream.specs.AtHand.{ending_at_hand};

use crate::parts::Stop;
use buf_pool::Pin;
use page_check::World;

/// What a stream has at hand between two calls.
pub enum AtHand<'p, W: World> {
    /// Nothing: no page was lent, or the last one is given back.
    Nothing,
    /// The page of the block at the front, which is lent from the pool.
    Pinned(Pin<'p, W>),
    /// The page of the block at the front, which is lent from the oldest read.
    Lent,
    /// The oldest read has stopped the stream at the block, which is said from now on.
    Stopped(u32, Stop),
    /// The source has no further block, which is said from now on.
    Ended,
}

impl<'p, W: World> AtHand<'p, W> {
    /// Whether the stream has ended.
    pub(crate) fn has_ended(&self) -> bool
        ensures { result ≡ is_some (ending_at_hand self.now) }
    {
        match self {
            AtHand::Stopped(_, _) | AtHand::Ended => true,
            AtHand::Nothing | AtHand::Pinned(_) | AtHand::Lent => false,
        }
    }
}
