//! The I/Os of a stream.
ghost use Rattle.std.specs.Prelude.{◌≡◌, ◌<◌, ◌≤◌, ◌+◌, ◌-◌, ◌↔◌, ◌∷◌, length, slice_get, Some};
ghost use Rattle.std.specs.Prelude.{◌≢◌, ◌^◌, IfOk, IfSome, IfNone, IsTrue};
ghost use Rattle.circular_buffer.specs.Buffer.{buffer};
ghost use Rattle.page_check.specs.declared.rules.DamagedPages.{DamagedPages};
ghost use Rattle.aio_word.specs.declared.Class.TheVariants.{Unended};
ghost use Rattle.aio_callback.specs.ReadIoView.{ReadFits};
ghost use Rattle.aio_callback.specs.StreamOutcomes.{stream_ids};
ghost use Rattle.read_plan.specs.Runs.{IsRun};
ghost use Rattle.read_stream.specs.declared.reads.EndedRead.{EndedRead};
ghost use Rattle.read_stream.specs.Parts.{IsPartOfOldest};
ghost use Rattle.read_stream.specs.StreamIos.{AllRecordsFree, HasEndedRead, left_run, oldest_given};
ghost use Rattle.read_stream.specs.StreamIos.{oldest_freed};

use crate::parts::{Part, part_of};
use crate::ring::{push, push_front};
use aio_batch::Batch;
use aio_callback::ReadIo;
use aio_handle::InFlight;
use circular_buffer::HeapCircularBuffer;
use page_check::World;
use read_plan::Run;
use std::alloc::{AllocError, Global};

/// A read that was taken in, and how many of its pages were given.
#[derive(Drop)]
pub struct EndedRead {
    pub io: ReadIo,
    pub given: u32,
}

impl EndedRead {
    /// The blocks whose pages were not given.
    pub fn left(&self) -> Run
        requires { self.now.given < self.now.io.count }
        ensures left { result ≡ left_run self.now }
        ensures run { IsRun (length self.now.io.pages) result }
    {
        let count = self.io.count();
        Run {
            first: self.io.first() + self.given,
            count: count - self.given,
        }
    }
}

/// The half of a stream that reads: its records and its I/Os under way, each kind in the order in
/// which they were started. Those that have ended are older than those in flight, and these than
/// the staged ones.
#[derive(Drop)]
pub struct Reads<W: World> {
    /// Records that nobody uses, the one that was used last in front: its pages are in memory, and
    /// in a processor's cache.
    pub free: HeapCircularBuffer<ReadIo>,
    /// Staged, not submitted.
    pub batch: Batch<ReadIo, W>,
    /// Submitted, not taken in.
    pub in_flight: HeapCircularBuffer<InFlight<W>>,
    /// Taken in, with their pages.
    pub ended: HeapCircularBuffer<EndedRead>,
    /// How many were taken in since the stream was opened.
    pub taken_in: u64,
}

impl<W: World> Reads<W> {
    /// So many records of so many pages each, all free.
    pub fn make(alloc: Global, total: u32, room: u32) -> Result<Reads<W>, AllocError>
        requires room { (1 ≤ room) × (room ≤ 128) }
        requires total { total ≤ 65 }
        ensures { IfOk result (AllRecordsFree room total) }
    {
        let mut free = HeapCircularBuffer::with_capacity(alloc, total as usize)?;
        for _ in 0..total {
            let record = ReadIo::make(alloc, room)?;
            push(&mut free, record);
        }
        Ok(Reads {
            free,
            batch: Batch::open(alloc)?,
            in_flight: HeapCircularBuffer::with_capacity(alloc, total as usize)?,
            ended: HeapCircularBuffer::with_capacity(alloc, total as usize)?,
            taken_in: 0,
        })
    }

    // Puts the record to those that nobody uses.
    pub(crate) fn release(&mut self, io: ReadIo)
        requires { length self.old.free.items < self.old.free.capacity }
        ensures { self.new ≡ record self.old {
          free = buffer (io ∷ self.old.free.items) self.old.free.capacity;
        } }
    {
        push_front(&mut self.free, io);
    }

    // The oldest read that was taken in.
    pub(crate) fn oldest(&self) -> &EndedRead
        requires { HasEndedRead self.now }
        ensures { slice_get self.now.ended.items 0 ≡ Some result.now }
    {
        let Some(oldest) = self.ended.front() else {
            unreachable!()
        };
        oldest
    }

    // Whether some pages of the oldest read were given.
    pub(crate) fn has_given(&self) -> bool
        ensures { IsTrue result → HasEndedRead self.now }
    {
        match self.ended.front() {
            Some(oldest) => oldest.given > 0,
            None => false,
        }
    }

    // Whether one page of the oldest read is left.
    pub(crate) fn has_one_page_left(&self) -> bool
        requires oldest { HasEndedRead self.now }
        ensures last { (oldest : EndedRead) → slice_get self.now.ended.items 0 ≡ Some oldest
            → IsTrue result ↔ (oldest.given + 1 ≡ oldest.io.count) }
        ensures few { (oldest : EndedRead) → slice_get self.now.ended.items 0 ≡ Some oldest
            → oldest.io.count ≤ 128 }
    {
        let oldest = self.oldest();
        oldest.given.checked_add(1) == Some(oldest.io.count())
    }

    // A page of the oldest read is given back, which was not the last.
    pub(crate) fn release_page(&mut self)
        requires { (oldest : EndedRead) → slice_get self.old.ended.items 0 ≡ Some oldest
            → oldest.given < 2 ^ 32 - 1 }
        ensures { self.new ≡ oldest_given self.old }
    {
        if let Some(oldest) = self.ended.get_mut(0) {
            oldest.given += 1;
        }
    }

    // The last page of the oldest read is given back: its record is free.
    pub(crate) fn free_oldest(&mut self)
        requires { length self.old.free.items < self.old.free.capacity }
        ensures { self.new ≡ oldest_freed self.old }
    {
        if let Some(oldest) = self.ended.pop_front() {
            self.release(oldest.io);
        }
    }

    // What the oldest read has for its next block. Nothing where it ended before that.
    pub(crate) fn part(&self) -> Option<Part>
        requires oldest { HasEndedRead self.now }
        requires left { (oldest : EndedRead) → slice_get self.now.ended.items 0 ≡ Some oldest
            → (oldest.given < oldest.io.count) × ReadFits W.told W.relations oldest.io
            × (oldest.io.label.ended ≢ Unended) × (damaged : DamagedPages)
            × (oldest.io.ids ≡ stream_ids damaged) }
        ensures part { IfSome result (IsPartOfOldest W.told self.now) }
        ensures rest { IfNone result ((oldest : EndedRead)
            → slice_get self.now.ended.items 0 ≡ Some oldest → 0 < oldest.given) }
    {
        let oldest = self.oldest();
        part_of::<W>(&oldest.io, oldest.left().first)
    }
}
