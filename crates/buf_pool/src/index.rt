//! The index of the pool.
ghost use Rattle.std.specs.Prelude.{◌≡◌, ℕ, ◌-◌, ◌+◌, ◌^◌, ◌<◌, ◌≤◌, length, false, Some};
ghost use Rattle.std.specs.Prelude.{MatchOption};
ghost use Rattle.std.specs.Prelude.{IsTrue, ◌↔◌, IsSomeAnd, IfOk, IfSome, List, replicate};
ghost use Rattle.std.specs.Prelude.{slice_set};
ghost use Rattle.std.specs.Prelude.{if◌then◌else◌};
ghost use Rattle.aio_word.specs.declared.WaitRef.{WaitRef};
ghost use Rattle.buf_pool.specs.declared.descriptor.Tag.{Tag};
ghost use Rattle.buf_pool.specs.declared.descriptor.Descriptor.{Descriptor};
ghost use Rattle.buf_pool.specs.declared.descriptor.Descriptor.TheVariants.{Free, InProgress};
ghost use Rattle.buf_pool.specs.Frames.{descriptor_at, descriptor_tag, tag_at, pins_at};
ghost use Rattle.buf_pool.specs.Frames.{frames_with_pins};
ghost use Rattle.buf_pool.specs.Frames.{is_free};
ghost use Rattle.buf_pool.specs.Frames.{IsAbsent, IsFrameOf};
ghost use Rattle.buf_pool.specs.PoolLawful.{PoolLawful};

use crate::descriptor::{Descriptor, Tag};
use crate::strategy::{Clock, FrameKind, FreeFrames, find_round};
use crate::table::{TagTable, find};
use aio_word::WaitRef;
use page_check::World;
use std::alloc::{AllocError, Global};
use std::marker::{Model, PhantomData};

/// What the index has of a tag.
#[derive(Clone, Copy, Debug, PartialEq, Eq)]
pub enum Look {
    /// Its page, in this frame.
    Hit(u32),
    /// Its page is read by the I/O of this reference.
    Busy(WaitRef),
    /// Nothing.
    Absent,
}

/// What came of the wish to read a page into the pool.
#[derive(Clone, Copy, Debug, PartialEq, Eq)]
pub enum Begun {
    /// This frame now awaits the page.
    Yes(u32),
    /// Another I/O reads it already.
    Busy(WaitRef),
    /// It is there already, in this frame.
    Hit(u32),
    /// Each frame awaits a page or is pinned. In a pool that is each frame of the tag's part.
    NoRoom,
}

/// The index of the pool: what each frame holds, after `buf_table.c` and `freelist.c`. Contracts
/// see it as the list of what the frames hold, by their numbers.
#[derive(Drop)]
pub struct PoolIndex<W: World> {
    frames: Vec<Descriptor>,
    table: TagTable,
    clock: Clock,
    free: FreeFrames,
    marker: PhantomData<W>,
}

impl<W: World> Model for PoolIndex<W> {
    ghost use Rattle.std.specs.Prelude.{List};
    ghost use Rattle.buf_pool.specs.declared.descriptor.Descriptor.{Descriptor};
    ghost use Rattle.buf_pool.specs.IndexInvariant.{IsTable, IsClock, AreFrames};

    ghost Value = { List Descriptor };

    ghost view = { λ s. s.frames.items };

    ghost invariant = { λ s. AreFrames W.handles s.frames.items s.free.count s.free.start
        × IsTable s.table.slots.items s.table.left s.frames.items
        × IsClock s.clock.used.items s.clock.hand s.frames.items };
}

impl<W: World> PoolIndex<W> {
    ghost use Rattle.buf_pool.specs.Answers.{IsNotInProgress, LookAnswers, IsFull, IsVictim};
    ghost use Rattle.buf_pool.specs.Answers.{BeginAnswers};
    ghost use Rattle.buf_pool.specs.Answers.{entry_after_io, IsPinnedAt};

    /// An index of so many frames, 16 to 16384, all of them free. All memory of the index is taken
    /// here.
    pub fn open(alloc: Global, frames: u32) -> Result<PoolIndex<W>, AllocError>
        requires { (16 ≤ frames) × (frames ≤ 16384) }
        ensures frames { IfOk result (λ index. index ≡ replicate frames Free) }
    {
        let count = frames as usize;
        Ok(PoolIndex {
            frames: Vec::from_elem(alloc, Descriptor::Free, count)?,
            table: TagTable {
                slots: Vec::from_elem(alloc, None, 4 * count)?,
                left: 4 * count,
            },
            clock: Clock::open(alloc, count)?,
            free: FreeFrames { count, start: 0 },
            marker: PhantomData,
        })
    }

    // The frame of the tag's entry.
    fn find(&self, tag: Tag) -> Option<u32>
        ensures found { IsFrameOf self.now tag result }
        ensures range { IfSome result (λ f. f < length self.now) }
        ensures lawful { PoolLawful W.handles self.now }
    {
        find(&self.table.slots, &self.frames, tag)
    }

    /// What the entry of the tag says.
    pub fn look(&self, tag: Tag) -> Look
        ensures answer { LookAnswers self.now tag result }
        ensures lawful { PoolLawful W.handles self.now }
    {
        let Some(frame) = self.find(tag) else {
            return Look::Absent;
        };
        match self.frames[frame as usize] {
            Descriptor::Free => unreachable!(),
            Descriptor::InProgress(_, reference) => Look::Busy(reference),
            Descriptor::Valid(..) => Look::Hit(frame),
        }
    }

    /// The pins of the valid entry at the frame; None where there is no such entry.
    pub fn pins(&self, frame: u32) -> Option<u32>
        ensures { result ≡ pins_at self.now frame }
    {
        match self.frames.get(frame as usize) {
            Some(Descriptor::Valid(_, pins)) => Some(*pins),
            Some(Descriptor::Free | Descriptor::InProgress(..)) | None => None,
        }
    }

    // Puts another entry of the same tag at the frame, or none.
    fn set_entry(&mut self, frame: u32, entry: Descriptor)
        requires not_free { (frame < length self.old) ×
            (is_free (descriptor_at self.old frame) ≡ false) }
        requires tag { (tag : Tag) → descriptor_tag entry ≡ Some tag → tag_at self.old frame
            ≡ Some tag }
        requires not_in_progress { (tag : Tag) (reference : WaitRef) → entry ≡ InProgress tag reference → ⊥ }
        ensures frames { self.new ≡ slice_set self.old frame entry }
        ensures lawful { PoolLawful W.handles self.new }
    {
        let at = frame as usize;
        self.free.note(at, &self.frames[at], &entry);
        self.frames[at] = entry;
    }

    // Puts a new entry in progress at the frame.
    fn begin_entry(&mut self, frame: u32, tag: Tag, reference: WaitRef)
        requires absent { IsAbsent self.old tag }
        requires frame { frame < length self.old }
        requires range { reference.handle < W.handles }
        ensures frames { self.new ≡ slice_set self.old frame (InProgress tag reference) }
        ensures lawful { PoolLawful W.handles self.new }
    {
        let at = frame as usize;
        let entry = Descriptor::InProgress(tag, reference);
        self.free.note(at, &self.frames[at], &entry);
        self.frames[at] = entry;
        self.table.add(&self.frames, tag, frame);
    }

    // A frame for a new entry, which awaits a page by the I/O of the reference.
    fn choose_frame(&mut self, reference: WaitRef) -> Option<u32>
        ensures frames { self.new ≡ self.old }
        ensures lawful { PoolLawful W.handles self.new }
        ensures found { MatchOption result (IsFull self.old) (λ f. IsVictim self.old f) }
    {
        if self.free.count == 0 {
            self.clock.victim(&self.frames, reference)
        } else {
            find_round(&self.frames, self.free.start, FrameKind::FreeFrame)
        }
    }

    /// One pin more on the valid entry at the frame, as `PinBuffer` of `bufmgr.c`.
    pub fn pin(&mut self, frame: u32)
        requires { IsSomeAnd (pins_at self.old frame) (λ pins. pins < 2 ^ 32 - 1) }
        ensures frames { IfSome (pins_at self.old frame)
            (λ pins. self.new ≡ frames_with_pins self.old frame (pins + 1)) }
        ensures lawful { PoolLawful W.handles self.new }
    {
        if let Some(Descriptor::Valid(tag, pins)) = self.frames.get(frame as usize).copied() {
            self.clock.touch(frame as usize);
            self.set_entry(frame, Descriptor::Valid(tag, pins + 1));
        }
    }

    /// One pin less on the valid entry at the frame, as `UnpinBuffer` of `bufmgr.c`.
    pub fn unpin(&mut self, frame: u32)
        requires { IsSomeAnd (pins_at self.old frame) (λ pins. 0 < pins) }
        ensures frames { IfSome (pins_at self.old frame)
            (λ pins. self.new ≡ frames_with_pins self.old frame (pins - 1)) }
        ensures lawful { PoolLawful W.handles self.new }
    {
        if let Some(Descriptor::Valid(tag, pins)) = self.frames.get(frame as usize).copied() {
            self.set_entry(frame, Descriptor::Valid(tag, pins - 1));
        }
    }

    /// Whether the frame has the page of the tag, with a pin.
    pub(crate) fn has_pin(&self, tag: Tag, frame: u32) -> bool
        ensures { IsTrue result ↔ IsPinnedAt self.now tag frame }
    {
        match self.frames.get(frame as usize) {
            Some(Descriptor::Valid(held, pins)) => *held == tag && *pins > 0,
            Some(Descriptor::Free | Descriptor::InProgress(..)) | None => false,
        }
    }

    /// Begins the reading of the tag's page by the I/O of the reference, unless the tag has an
    /// entry: then that stands. A free frame is taken, else one whose page has no pin.
    pub fn begin(&mut self, tag: Tag, reference: WaitRef) -> Begun
        requires range { reference.handle < W.handles }
        ensures answer { BeginAnswers self.old self.new tag reference result }
        ensures lawful { PoolLawful W.handles self.new }
    {
        match self.look(tag) {
            Look::Hit(frame) => return Begun::Hit(frame),
            Look::Busy(holder) => return Begun::Busy(holder),
            Look::Absent => {}
        }
        let Some(frame) = self.choose_frame(reference) else {
            return Begun::NoRoom;
        };
        self.begin_entry(frame, tag, reference);
        Begun::Yes(frame)
    }

    /// The frame that awaits the page of the tag under the reference; None where there is none.
    pub fn frame(&self, tag: Tag, reference: WaitRef) -> Option<u32>
        ensures answer { MatchOption result (IsNotInProgress self.now tag reference)
            (λ f. descriptor_at self.now f ≡ InProgress tag reference) }
        ensures lawful { PoolLawful W.handles self.now }
    {
        let frame = self.find(tag)?;
        if self.frames[frame as usize].awaits(tag, reference) {
            Some(frame)
        } else {
            None
        }
    }

    /// Ends the reading of the tag's page by the I/O of the reference: the entry is valid and has
    /// no pins, or, where the page was not kept, it is dropped. The answer is its frame; None where
    /// there is no such entry, and then nothing changes.
    pub fn end(&mut self, tag: Tag, reference: WaitRef, kept: bool) -> Option<u32>
        ensures answer { MatchOption result
            (IsNotInProgress self.old tag reference × (self.new ≡ self.old))
            (λ f. (descriptor_at self.old f ≡ InProgress tag reference)
            × (self.new ≡ slice_set self.old f (entry_after_io tag kept))) }
        ensures lawful { PoolLawful W.handles self.new }
    {
        let frame = self.frame(tag, reference)?;
        let entry = if kept {
            Descriptor::Valid(tag, 0)
        } else {
            Descriptor::Free
        };
        self.set_entry(frame, entry);
        Some(frame)
    }
}
