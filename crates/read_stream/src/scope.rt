//! What all I/Os of one stream are about.
ghost use Rattle.std.specs.Prelude.{◌≡◌};

use aio_callback::ReadIo;
use aio_handle::Actor;
use buf_pool::Tag;
use page_check::{PageRules, World};
use std::snapshot::Snapshot;

/// The relation that is read, how many pages a record has, whether I/Os are submitted together, and
/// how pages are read. For contracts alone: how many records there are, how many I/Os may be made,
/// and the actor as it was when the stream was opened.
#[derive(Drop)]
pub struct Scope<W: World> {
    pub relation: u32,
    pub combine: u32,
    pub batched: bool,
    pub rules: PageRules,
    pub total: Snapshot<u32>,
    pub most: Snapshot<u64>,
    pub was: Snapshot<Actor<ReadIo, W>>,
}

impl<W: World> Scope<W> {
    /// The tag of a block of the relation, whose page is checked as those of the stream are.
    pub fn tag(&self, block: u32) -> Tag
        ensures { result ≡ record {
          relation = self.now.relation;
          block = block;
          checksums = self.now.rules.checksums;
        } }
    {
        Tag {
            relation: self.relation,
            block,
            checksums: self.rules.checksums,
        }
    }
}
