//! Blocks from a list.
ghost use Rattle.std.specs.Prelude.{◌≡◌};
ghost use Rattle.std.specs.Vec.Iter.{into_iter_items};

use crate::source::BlockSource;
use std::alloc::Global;
use std::marker::Model;
use std::vec::IntoIter;

/// The blocks of a list, each with its data.
#[derive(Drop)]
pub struct Listed<P: Copy> {
    rest: IntoIter<(u32, P), Global>,
}

impl<P: Copy> Model for Listed<P> {
    ghost use Rattle.std.specs.Prelude.{ℕ, List};
    ghost use Rattle.std.specs.Vec.Iter.{into_iter_items};

    ghost Value = { List (ℕ × P) };

    ghost view = { λ s. into_iter_items s.rest };
}

impl<P: Copy> Listed<P> {
    /// A source of the blocks of this list, from its front on.
    pub fn new(list: Vec<(u32, P)>) -> Listed<P>
        ensures { result ≡ list.items }
    {
        Listed {
            rest: list.into_iter(),
        }
    }
}

impl<P: Copy> BlockSource<P> for Listed<P> {
    ghost left = { λ s. s };

    fn next(&mut self) -> Option<(u32, P)> {
        self.rest.next()
    }
}
