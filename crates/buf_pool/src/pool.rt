//! The pool behind its locks.
ghost use Rattle.std.specs.Prelude.{◌≡◌, ◌<◌, ◌≤◌, IfOk};

use crate::descriptor::Tag;
use crate::index::{Begun, Look};
use crate::part::Part;
use crate::pin::Pin;
use crate::share::{Share, part_count};
use aio_word::WaitRef;
use crossbeam_utils::CachePadded;
use page_check::{Page, World};
use read_callbacks::Places;
use std::alloc::{AllocError, Global};
use std::marker::Model;
use std::sync::Wait;

/// What `lookup` finds.
pub enum Found<'p, W: World> {
    /// The page, pinned.
    Hit(Pin<'p, W>),
    /// The page is read by the I/O of this reference.
    Busy(WaitRef),
    /// Nothing, or nothing that can be pinned now.
    Absent,
}

/// The pool: parts with some of the frames each. What is in a frame's memory is always the told,
/// valid page of the tag that it carries. Contracts see the pool as the number of its frames.
#[derive(Drop)]
pub struct Pool<W: World> {
    // Each on cache lines of its own, so that who locks one does not take a neighbour's away.
    parts: Vec<CachePadded<Part<W>>>,
}

impl<W: World> Model for Pool<W> {
    ghost use Rattle.std.specs.Prelude.{ℕ};
    ghost use Rattle.buf_pool.specs.PoolParts.{frames_of, AreParts};

    ghost Value = { ℕ };

    ghost view = { λ p. frames_of p.parts.items };

    ghost invariant = { λ p. AreParts (frames_of p.parts.items) p.parts.items };
}

impl<W: World> Pool<W> {
    ghost use Rattle.buf_pool.specs.LookupAnswers.{IsFound, IsLookOf, IsBegunOf};
    ghost use Rattle.buf_pool.specs.Parts.{IsFrameFor, FallsTo};

    /// A pool of so many frames, 16 to 16384, all of them free. All memory of the pool is taken
    /// here.
    pub fn open(alloc: Global, frames: u32) -> Result<Pool<W>, AllocError>
        requires { (16 ≤ frames) × (frames ≤ 16384) }
        ensures frames { IfOk result (λ pool. pool ≡ frames) }
    {
        let count = part_count(frames);
        let mut parts = Vec::with_capacity(alloc, count as usize)?;
        let mut first = 0;
        for part in 0..count {
            let share = Share {
                part,
                pool_frames: frames,
            };
            // The frames that are over are shared out to the first parts.
            let size = frames / count + u32::from(part < frames % count);
            parts.push(CachePadded::new(Part::open(alloc, share, first, size)?))?;
            first += size;
        }
        Ok(Pool { parts })
    }

    // The part to which the tag falls. Blocks that follow each other fall to different parts. There
    // are as many parts as a power of two.
    fn part(&self, tag: Tag) -> &Part<W>
        ensures frames { result.now.share.pool_frames ≡ self.now }
        ensures tag { FallsTo result.now.share tag }
    {
        let mask = self.parts.len() as u64 - 1;
        let sum = u64::from(tag.relation) + u64::from(tag.block);
        &self.parts[(sum & mask) as usize]
    }

    /// What the index has of the tag now.
    pub fn peek<R: Wait>(&self, rt: &R, tag: Tag) -> Look
        ensures { IsLookOf W.handles (IsFrameFor self.now tag) result }
    {
        self.part(tag).look(rt, tag)
    }

    /// The page of the tag, pinned, where it is in the pool.
    pub fn lookup<R: Wait>(&self, rt: &R, tag: Tag) -> Found<'_, W>
        ensures { IsFound W.told W.handles tag result }
    {
        let part = self.part(tag);
        let frame = match part.look_and_pin(rt, tag) {
            Look::Hit(frame) => frame,
            Look::Busy(reference) => return Found::Busy(reference),
            Look::Absent => return Found::Absent,
        };
        match part.pin_page(frame, tag) {
            Some(pin) => Found::Hit(pin),
            None => {
                part.unpin_one(rt, tag, frame);
                Found::Absent
            }
        }
    }

    /// Ends the pin, which is one of this pool.
    pub fn unpin<R: Wait>(&self, rt: &R, pin: Pin<'_, W>) {
        let Pin { frame, tag, claim } = pin;
        let _ = claim.leave();
        self.part(tag).unpin_one(rt, tag, frame);
    }

    /// Begins the reading of the tag's page by the I/O of the reference, as `PoolIndex::begin` in
    /// the tag's part. NoRoom means that each frame of that part awaits a page or is pinned.
    pub fn begin<R: Wait>(&self, rt: &R, tag: Tag, reference: WaitRef) -> Begun
        requires { reference.handle < W.handles }
        ensures { IsBegunOf W.handles (IsFrameFor self.now tag) result }
    {
        self.part(tag).begin(rt, tag, reference)
    }
}

/// A shared pool takes the pages of reads that were begun in it, and does not tell what it was
/// given.
impl<W: World> Places<W> for &Pool<W> {
    ghost use Rattle.std.specs.Prelude.{None};

    ghost finished = { λ _. None };

    /// Ends the reading of the block's page by the I/O of the reference: a copy of the page goes
    /// into the frame, where it is valid without pins. Where there is no page, or the frame refuses
    /// the turn for writing, the entry is dropped. Where the I/O reads no such page into the pool
    /// nothing is done.
    fn finish<T: Wait>(
        &mut self,
        rt: &T,
        relation: u32,
        block: u32,
        checksums: bool,
        reference: WaitRef,
        page: Option<&Page>,
    ) {
        let tag = Tag {
            relation,
            block,
            checksums,
        };
        self.part(tag).finish(rt, tag, reference, page);
    }
}
