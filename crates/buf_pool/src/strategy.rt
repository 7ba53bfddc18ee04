//! Which frame is taken for a new entry.
ghost use Rattle.std.specs.Prelude.{◌≡◌, ℕ, ◌+◌, ◌<◌, ◌≤◌, length, true, IfSome, IfOk};
ghost use Rattle.std.specs.Prelude.{if◌then◌else◌};
ghost use Rattle.buf_pool.specs.Frames.{descriptor_at, is_free, is_unpinned};
ghost use Rattle.buf_pool.specs.FrameSearch.{is_of_kind, IsSearchAnswer};
ghost use Rattle.buf_pool.specs.IndexInvariant.{IsClock};

use crate::descriptor::Descriptor;
use aio_word::WaitRef;
use std::alloc::{AllocError, Global};

/// What a search over the frames looks for.
#[derive(Clone, Copy)]
pub(crate) enum FrameKind {
    FreeFrame,
    UnpinnedFrame,
}

impl FrameKind {
    fn matches(self, frame: &Descriptor) -> bool
        ensures { result ≡ is_of_kind self frame.now }
    {
        match self {
            FrameKind::FreeFrame => frame.is_free(),
            FrameKind::UnpinnedFrame => frame.is_unpinned(),
        }
    }
}

/// The first such frame from `start` on, round the frames.
pub(crate) fn find_round(frames: &[Descriptor], start: usize, wanted: FrameKind) -> Option<u32>
    requires start { start < length frames.now }
    requires size { length frames.now ≤ 16384 }
    ensures { IsSearchAnswer (is_of_kind wanted) frames.now result }
{
    let size = frames.len();
    for step in 0..size {
        let at = (start + step) % size;
        if wanted.matches(&frames[at]) {
            return Some(at as u32);
        }
    }
    None
}

/// How many frames are free, and where the search for one begins.
#[derive(Drop)]
pub(crate) struct FreeFrames {
    pub(crate) count: usize,
    pub(crate) start: usize,
}

impl FreeFrames {
    /// One frame changes: a frame that gets free is the first that the next search finds.
    pub(crate) fn note(&mut self, at: usize, old: &Descriptor, new: &Descriptor)
        requires most { self.old.count ≤ 16384 }
        requires counted { is_free old.now ≡ true → 0 < self.old.count }
        ensures count { self.new.count + (if is_free old.now then 1 else 0)
            ≡ self.old.count + (if is_free new.now then 1 else 0) }
        ensures start { (limit : ℕ) → self.old.start < limit → at < limit → self.new.start < limit }
    {
        match (old.is_free(), new.is_free()) {
            (true, false) => {
                self.count -= 1;
                self.start = at;
            }
            (false, true) => {
                self.count += 1;
                self.start = at;
            }
            (true, true) | (false, false) => {}
        }
    }
}

// How many rings an index has.
const RINGS: usize = 8;

// How many neighbouring handles share a ring: as many as a backend has by default.
const HANDLES_OF_A_RING: u32 = 16;

/// The frames that reads took last in place of a page, as `BufferAccessStrategy` of `freelist.c`. A
/// part of the pool has at least 16 frames, so that a ring in each part has at most an eighth of the
/// pool's, as in `GetAccessStrategyWithSize`.
#[derive(Clone, Copy)]
pub(crate) struct Ring {
    older: Option<u32>,
    newer: Option<u32>,
}

impl Ring {
    // A ring of no frames.
    fn new() -> Ring {
        Ring {
            older: None,
            newer: None,
        }
    }

    // The frame takes the place of the older one.
    fn push(&mut self, frame: u32) {
        self.older = self.newer;
        self.newer = Some(frame);
    }
}

/// Which frame is taken where none is free, after `freelist.c`: the hand of the clock sweep, and a
/// mark of each frame whose page was looked up since the hand passed it, where PostgreSQL counts up
/// to 5.
///
/// All reads here are bulk reads, so each backend's have a ring: a page that nobody has looked up
/// gives its frame to the next read. A long scan then leaves the other frames as they are, and its
/// own stay in its processor's cache.
#[derive(Drop)]
pub(crate) struct Clock {
    pub(crate) used: Vec<bool>,
    pub(crate) hand: usize,
    rings: [Ring; RINGS],
}

impl Clock {
    /// The clock of so many frames, none of which was looked up.
    pub(crate) fn open(alloc: Global, frames: usize) -> Result<Clock, AllocError>
        ensures { IfOk result (λ c. (length c.used.items ≡ frames) × (c.hand ≡ 0)) }
    {
        Ok(Clock {
            used: Vec::from_elem(alloc, false, frames)?,
            hand: 0,
            rings: [Ring::new(); RINGS],
        })
    }

    /// Marks the frame, whose page was looked up. A mark that stands is not written again: the
    /// frames' marks share lines of the processors' caches.
    pub(crate) fn touch(&mut self, frame: usize)
        requires { frame < length self.old.used.items }
        ensures size { length self.new.used.items ≡ length self.old.used.items }
        ensures hand { self.new.hand ≡ self.old.hand }
    {
        if !self.used[frame] {
            self.used[frame] = true;
        }
    }

    // One round of the hand: it takes the marks off the frames without pins, and stops at the
    // first that has none.
    fn sweep(&mut self, frames: &[Descriptor]) -> Option<u32>
        requires clock { IsClock self.old.used.items self.old.hand frames.now }
        requires size { length frames.now ≤ 16384 }
        ensures clock { IsClock self.new.used.items self.new.hand frames.now }
        ensures found { IfSome result
            (λ f. (f < length frames.now) × (is_unpinned (descriptor_at frames.now f) ≡ true)) }
    {
        let size = frames.len();
        for _ in 0..size {
            let at = self.hand;
            self.hand = if at + 1 == size { 0 } else { at + 1 };
            if frames[at].is_unpinned() {
                if !self.used[at] {
                    return Some(at as u32);
                }
                self.used[at] = false;
            }
        }
        None
    }

    // The older frame of a ring, where nobody looked up its page, as `GetBufferFromRing`.
    fn from_ring(&self, frames: &[Descriptor], older: Option<u32>) -> Option<u32>
        requires clock { IsClock self.now.used.items self.now.hand frames.now }
        ensures found { IfSome result
            (λ f. (f < length frames.now) × (is_unpinned (descriptor_at frames.now f) ≡ true)) }
    {
        let frame = older?;
        let at = frame as usize;
        if at < frames.len() && frames[at].is_unpinned() && !self.used[at] {
            Some(frame)
        } else {
            None
        }
    }

    // A frame without pins whose page was not looked up for a round of the hand, else the first
    // from the hand on.
    fn from_sweep(&mut self, frames: &[Descriptor]) -> Option<u32>
        requires clock { IsClock self.old.used.items self.old.hand frames.now }
        requires size { length frames.now ≤ 16384 }
        ensures clock { IsClock self.new.used.items self.new.hand frames.now }
        ensures found { IsSearchAnswer is_unpinned frames.now result }
    {
        if let Some(frame) = self.sweep(frames) {
            return Some(frame);
        }
        find_round(frames, self.hand, FrameKind::UnpinnedFrame)
    }

    /// A frame for a read by the I/O of the reference, with a page that has no pin: that of the
    /// ring of its handle, else that of the sweep, which then takes a place of the ring.
    pub(crate) fn victim(&mut self, frames: &[Descriptor], reference: WaitRef) -> Option<u32>
        requires clock { IsClock self.old.used.items self.old.hand frames.now }
        requires size { length frames.now ≤ 16384 }
        ensures clock { IsClock self.new.used.items self.new.hand frames.now }
        ensures found { IsSearchAnswer is_unpinned frames.now result }
    {
        let ring = (reference.handle / HANDLES_OF_A_RING) as usize % RINGS;
        let frame = match self.from_ring(frames, self.rings[ring].older) {
            Some(frame) => frame,
            None => self.from_sweep(frames)?,
        };
        self.rings[ring].push(frame);
        Some(frame)
    }
}
