//! What the lock of a part guards.
ghost use Rattle.std.specs.Prelude.{◌≡◌, ℕ, ◌+◌, ◌<◌, ◌≤◌, length, IfOk, Some, MatchOption};
ghost use Rattle.std.specs.Prelude.{slice_set};
ghost use Rattle.buf_pool.specs.declared.descriptor.Descriptor.TheVariants.{InProgress, Valid};
ghost use Rattle.buf_pool.specs.Frames.{descriptor_at, frames_with_pins};
ghost use Rattle.buf_pool.specs.Parts.{part_size, FallsTo, HasOwnTags};
ghost use Rattle.buf_pool.specs.LookupAnswers.{IsLookOf, IsBegunOf};
ghost use Rattle.buf_pool.specs.Answers.{LookAnswers, PinAnswers, BeginAnswers, IsNotInProgress};
ghost use Rattle.buf_pool.specs.Answers.{entry_after_io, IsPinnedAt};

use crate::descriptor::Tag;
use crate::index::{Begun, Look, PoolIndex};
use crate::share::Share;
use aio_word::WaitRef;
use page_check::World;
use std::alloc::{AllocError, Global};

/// The index of a part, in which each entry's tag falls to the part. Whoever gets it from the lock
/// knows of it what its type says. So it has its share with it.
#[derive(Drop)]
pub(crate) struct PartIndex<W: World> {
    pub(crate) share: Share,
    index: PoolIndex<W>,
    ghost size: { length index ≡ part_size share.pool_frames share.part },
    ghost own: { HasOwnTags share index },
}

impl<W: World> PartIndex<W> {
    /// An index of so many frames, which are those of the share, all of them free.
    pub(crate) fn open(alloc: Global, share: Share, size: u32) -> Result<PartIndex<W>, AllocError>
        requires share { size ≡ part_size share.pool_frames share.part }
        requires range { (16 ≤ size) × (size ≤ 16384) }
        ensures { IfOk result (λ opened. opened.share ≡ share) }
    {
        let index = PoolIndex::open(alloc, size)?;
        Ok(PartIndex { share, index })
    }

    /// What the entry of the tag says.
    pub(crate) fn look(&self, tag: Tag) -> Look
        ensures answer { LookAnswers self.now.index tag result }
        ensures range { IsLookOf W.handles (λ f. f < length self.now.index) result }
    {
        self.index.look(tag)
    }

    /// What the entry of the tag says, with one pin more where it is a page. Absent also where the
    /// page has as many pins as can be counted.
    pub(crate) fn look_and_pin(&mut self, tag: Tag) -> Look
        ensures answer { PinAnswers self.old.index self.new.index tag result }
        ensures range { IsLookOf W.handles (λ f. f < length self.old.index) result }
        ensures share { self.new.share ≡ self.old.share }
    {
        let look = self.index.look(tag);
        if let Look::Hit(frame) = look {
            match self.index.pins(frame) {
                Some(pins) if pins < u32::MAX => self.index.pin(frame),
                _ => return Look::Absent,
            }
        }
        look
    }

    /// One pin less on the page of the tag in the frame, where it is there with a pin.
    pub(crate) fn unpin_one(&mut self, tag: Tag, frame: u32)
        ensures one { (pins : ℕ) → descriptor_at self.old.index frame ≡ Valid tag (pins + 1)
            → self.new.index ≡ frames_with_pins self.old.index frame pins }
        ensures none { (IsPinnedAt self.old.index tag frame → ⊥)
            → self.new.index ≡ self.old.index }
        ensures share { self.new.share ≡ self.old.share }
    {
        if self.index.has_pin(tag, frame) {
            self.index.unpin(frame);
        }
    }

    /// Begins the reading of the tag's page, as `PoolIndex::begin`.
    pub(crate) fn begin(&mut self, tag: Tag, reference: WaitRef) -> Begun
        requires tag { FallsTo self.old.share tag }
        requires range { reference.handle < W.handles }
        ensures answer { BeginAnswers self.old.index self.new.index tag reference result }
        ensures range { IsBegunOf W.handles (λ f. f < length self.old.index) result }
        ensures share { self.new.share ≡ self.old.share }
    {
        self.index.begin(tag, reference)
    }

    /// The frame that awaits the page of the tag under the reference; None where there is none.
    pub(crate) fn frame(&self, tag: Tag, reference: WaitRef) -> Option<u32>
        ensures answer { MatchOption result (IsNotInProgress self.now.index tag reference)
            (λ f. descriptor_at self.now.index f ≡ InProgress tag reference) }
    {
        self.index.frame(tag, reference)
    }

    /// Ends the reading of the tag's page, as `PoolIndex::end`.
    pub(crate) fn end(&mut self, tag: Tag, reference: WaitRef, kept: bool) -> Option<u32>
        ensures answer { MatchOption result
            (IsNotInProgress self.old.index tag reference × (self.new.index ≡ self.old.index))
            (λ f. (descriptor_at self.old.index f ≡ InProgress tag reference)
            × (self.new.index ≡ slice_set self.old.index f (entry_after_io tag kept))) }
        ensures share { self.new.share ≡ self.old.share }
    {
        self.index.end(tag, reference, kept)
    }
}
