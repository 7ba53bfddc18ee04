//! A part of the pool.
ghost use Rattle.std.specs.Prelude.{◌≡◌, ◌+◌, ◌<◌, ◌≤◌, length, ⊤, IfOk, IfSome};
ghost use Rattle.read_callbacks.specs.GoodPages.{IsGood};
ghost use Rattle.buf_pool.specs.LookupAnswers.{IsLookOf, IsBegunOf, pinned_tag, pinned_page};
ghost use Rattle.buf_pool.specs.Parts.{part_size, first_frame, IsFrameOfPart, FallsTo};

use crate::descriptor::Tag;
use crate::index::{Begun, Look};
use crate::part_index::PartIndex;
use crate::pin::Pin;
use crate::share::Share;
use crate::slot::PageSlot;
use aio_word::WaitRef;
use page_check::{Page, World};
use std::alloc::{AllocError, Global};
use std::hint::spin_loop;
use std::sync::{Mutex, MutexGuard, Wait};

// How long one who comes to a taken lock pauses before each further try.
const PAUSES: [u32; 7] = [16, 32, 64, 128, 256, 256, 256];

/// Some of the pool's frames, for the tags that fall to this part, as a partition of PostgreSQL's
/// buffer mapping table (`BufMappingPartitionLock` of `buf_internals.h`): an index behind a lock,
/// and the memory of each frame, which has no lock. Each call is for a tag that falls to the part.
/// The index counts the part's frames from 0. `look` and `begin` answer with their numbers in the
/// pool.
#[derive(Drop)]
pub(crate) struct Part<W: World> {
    pub(crate) share: Share,
    // The number in the pool of the part's first frame.
    first: u32,
    index: Mutex<PartIndex<W>>,
    slots: Vec<PageSlot<W>>,
    ghost from: { first ≡ first_frame share.pool_frames share.part },
    ghost size: { length slots.items ≡ part_size share.pool_frames share.part },
    ghost range: { first + length slots.items ≤ 16384 },
}

impl<W: World> Part<W> {
    /// The part of this share, whose frames are so many from this one on, all of them free. All its
    /// memory is taken here.
    pub(crate) fn open(
        alloc: Global,
        share: Share,
        first: u32,
        size: u32,
    ) -> Result<Part<W>, AllocError>
        requires first { first ≡ first_frame share.pool_frames share.part }
        requires size { size ≡ part_size share.pool_frames share.part }
        requires range { (16 ≤ size) × (first + size ≤ 16384) }
        ensures share { IfOk result (λ part. part.share ≡ share) }
        ensures size { IfOk result (λ part. length part.slots.items ≡ size) }
    {
        let index = PartIndex::open(alloc, share, size)?;
        let slots = open_slots(alloc, size)?;
        Ok(Part {
            share,
            first,
            index: Mutex::new(index),
            slots,
        })
    }

    // The index. Its lock is held for some tens of nanoseconds at a time, so who finds it taken
    // tries again for a while before it sleeps. The pauses grow, so that whoever has the index in
    // its processor's cache makes several calls before the next one has it there.
    fn index<R: Wait>(&self, rt: &R) -> MutexGuard<'_, PartIndex<W>> {
        for pauses in PAUSES {
            if let Some(index) = self.index.try_lock() {
                return index;
            }
            for _ in 0..pauses {
                spin_loop();
            }
        }
        self.index.lock(rt)
    }

    /// What the index has of the tag now.
    pub(crate) fn look<R: Wait>(&self, rt: &R, tag: Tag) -> Look
        requires { FallsTo self.now.share tag }
        ensures { IsLookOf W.handles
            (IsFrameOfPart self.now.share.pool_frames self.now.share.part) result }
    {
        let index = self.index(rt);
        // No clause says which index is behind the lock. It is always that of this share.
        if index.share != self.share {
            return Look::Absent;
        }
        match index.look(tag) {
            Look::Hit(frame) => Look::Hit(self.first + frame),
            Look::Busy(reference) => Look::Busy(reference),
            Look::Absent => Look::Absent,
        }
    }

    /// The same, with one pin more on the page of the tag, and the frame counted in the part.
    pub(crate) fn look_and_pin<R: Wait>(&self, rt: &R, tag: Tag) -> Look
        requires { FallsTo self.now.share tag }
        ensures { IsLookOf W.handles (λ _. ⊤) result }
    {
        self.index(rt).look_and_pin(tag)
    }

    /// Takes a pin off the tag's page in the frame, counted in the part, in the index.
    pub(crate) fn unpin_one<R: Wait>(&self, rt: &R, tag: Tag, frame: u32)
        requires { FallsTo self.now.share tag }
    {
        self.index(rt).unpin_one(tag, frame);
    }

    /// A reader's right on the page in the frame, counted in the part, where it carries the tag.
    pub(crate) fn pin_page(&self, frame: u32, tag: Tag) -> Option<Pin<'_, W>>
        requires { FallsTo self.now.share tag }
        ensures tag { IfSome result (λ pin. pinned_tag pin ≡ tag) }
        ensures good { IfSome result
            (λ pin. IsGood W.told tag.checksums tag.relation tag.block (pinned_page pin)) }
    {
        self.slots.get(frame as usize)?.pin(frame, tag)
    }

    /// Begins the reading of the tag's page, as `PoolIndex::begin`.
    pub(crate) fn begin<R: Wait>(&self, rt: &R, tag: Tag, reference: WaitRef) -> Begun
        requires tag { FallsTo self.now.share tag }
        requires range { reference.handle < W.handles }
        ensures { IsBegunOf W.handles
            (IsFrameOfPart self.now.share.pool_frames self.now.share.part) result }
    {
        let mut index = self.index(rt);
        // As in `look`.
        if index.share != self.share {
            return Begun::NoRoom;
        }
        match index.begin(tag, reference) {
            Begun::Yes(frame) => Begun::Yes(self.first + frame),
            Begun::Busy(holder) => Begun::Busy(holder),
            Begun::Hit(frame) => Begun::Hit(self.first + frame),
            Begun::NoRoom => Begun::NoRoom,
        }
    }

    // Copies the page into the frame's memory; whether it did.
    fn write(&self, frame: u32, tag: Tag, page: &Page) -> bool
        requires { IsGood W.told tag.checksums tag.relation tag.block page.now }
    {
        match self.slots.get(frame as usize) {
            Some(slot) => slot.write(tag, page),
            None => false,
        }
    }

    /// Ends the reading of the tag's page, where the I/O of the reference reads it into the pool.
    pub(crate) fn finish<R: Wait>(&self, rt: &R, tag: Tag, reference: WaitRef, page: Option<&Page>)
        requires tag { FallsTo self.now.share tag }
        requires good { IfSome page (λ given. IsGood W.told tag.checksums tag.relation tag.block given.now) }
    {
        let Some(frame) = self.index(rt).frame(tag, reference) else {
            return;
        };
        let kept = match page {
            Some(page) => self.write(frame, tag, page),
            None => false,
        };
        let _ = self.index(rt).end(tag, reference, kept);
    }
}

// The memory of so many frames, which carry no tag.
fn open_slots<W: World>(alloc: Global, size: u32) -> Result<Vec<PageSlot<W>>, AllocError>
    ensures { IfOk result (λ slots. length slots.items ≡ size) }
{
    let mut slots = Vec::with_capacity(alloc, size as usize)?;
    for _ in 0..size {
        slots.push(PageSlot::open(alloc)?)?;
    }
    Ok(slots)
}
