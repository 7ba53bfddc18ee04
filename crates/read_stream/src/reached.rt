//! How far the streams of a desk have come in a relation.
ghost use Rattle.std.specs.Prelude.{◌≡◌};
ghost use Rattle.read_stream.specs.Reaches.{nothing_reached, reached_by};

/// So many blocks are read by streams that each begin anew.
const FIRST_BLOCKS: u64 = 256;

/// What streams have read of a relation, each at or behind the block where the one before it ended.
#[derive(Clone, Copy)]
pub struct Reached {
    pub relation: u32,
    /// The block behind their last one.
    pub next: u64,
    /// How many blocks they had to read.
    pub blocks: u64,
    /// The distance with which the last of them began, at least.
    pub distance: u32,
}

impl Reached {
    /// No stream has read anything.
    pub fn nothing() -> Reached
        ensures { result ≡ nothing_reached }
    {
        Reached {
            relation: 0,
            next: 0,
            blocks: 0,
            distance: 1,
        }
    }

    /// With one stream more, of `count` blocks from `first` on. The last one ended with this
    /// distance.
    pub fn then(&self, relation: u32, first: u32, count: u32, distance: u32) -> Reached
        ensures { result ≡ reached_by self.now relation first count distance }
    {
        let goes_on = self.relation == relation && self.next <= u64::from(first);
        let before = if goes_on { self.blocks } else { 0 };
        Reached {
            relation,
            next: u64::from(first) + u64::from(count),
            blocks: before.saturating_add(u64::from(count)),
            distance: if before < FIRST_BLOCKS { 1 } else { distance },
        }
    }
}
