//! Where the pages of a completed read go.
ghost use Rattle.std.specs.Prelude.{List, Option, [], ◌∷◌, IfSome, option_map};
ghost use Rattle.read_callbacks.specs.GoodPages.{IsGood};
ghost use Rattle.read_callbacks.specs.Finishes.{Finish, FinishesGrew};

use aio_word::WaitRef;
use page_check::{Page, World};
use std::sync::Wait;

/// Where the pages of a completed read go: what `buffer_readv_complete` of `bufmgr.c` does to the
/// buffers of the blocks.
pub trait Places<W: World> {
    /// The calls of `finish`, where it tells them.
    ghost finished: { Self → Option (List Finish) };

    /// The read of a block is over (`TerminateBufferIO` of `bufmgr.c`).
    ///
    /// `reference` names the I/O that read it. `page` is the page of the block, where that was read
    /// and is valid, by its checksum too where `checksums` says so, and lent for the call alone.
    fn finish<T: Wait>(
        &mut self,
        rt: &T,
        relation: u32,
        block: u32,
        checksums: bool,
        reference: WaitRef,
        page: Option<&Page>,
    )
        requires page { IfSome page (λ p. IsGood W.told checksums relation block p.now) }
        ensures finished { FinishesGrew (finished self.old) (finished self.new) (record {
          relation = relation;
          block = block;
          checksums = checksums;
          reference = reference;
          page = option_map (λ p. p.now) page.entry;
        } ∷ []) };
}

/// Takes no pages.
#[derive(Drop)]
pub struct NoPlaces;

impl<W: World> Places<W> for NoPlaces {
    ghost use Rattle.std.specs.Prelude.{None};

    ghost finished = { λ _. None };

    fn finish<T: Wait>(
        &mut self,
        _rt: &T,
        _relation: u32,
        _block: u32,
        _checksums: bool,
        _reference: WaitRef,
        _page: Option<&Page>,
    ) {}
}
