//! What the memory of a frame holds.
ghost use Rattle.buf_pool.specs.FrameMemory.{Carries};

use crate::descriptor::Tag;
use crate::memory::PageMemory;
use counted_slot::Fits;
use page_check::World;
use std::marker::PhantomData;

/// A page with the tag that it carries: no tag, or the tag whose told, valid page it is.
#[derive(Drop)]
pub(crate) struct CarriedPage<W: World> {
    pub(crate) tag: Option<Tag>,
    pub(crate) memory: PageMemory,
    pub(crate) marker: PhantomData<W>,
}

impl<W: World> Fits for CarriedPage<W> {
    type Tag = ();

    ghost fits = { λ _ carried. Carries W.told carried.tag carried.memory };
}
