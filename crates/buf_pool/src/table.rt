//! The table that finds the frame of a tag, after `buf_table.c`.
ghost use Rattle.std.specs.Prelude.{◌≡◌, ◌≢◌, ℕ, ◌+◌, ◌*◌, ◌^◌, ◌<◌, ◌≤◌, length, Some, IsTrue};
ghost use Rattle.std.specs.Prelude.{◌↔◌};
ghost use Rattle.buf_pool.specs.declared.descriptor.Tag.{Tag};
ghost use Rattle.buf_pool.specs.Frames.{tag_at, IsFrameOf};
ghost use Rattle.buf_pool.specs.Probes.{tag_hash, home_slot, ProbesFind, KeepsFullSlots, IsIndexed};
ghost use Rattle.buf_pool.specs.Probes.{empty_slots};
ghost use Rattle.buf_pool.specs.IndexInvariant.{IsTable};

use crate::descriptor::{Descriptor, Tag};

// The hash of the tag. The high bits of the product depend on each bit of the tag, so that blocks
// at equal distances, as every 64th, do not come to one slot.
fn hash(tag: Tag) -> u64
    ensures hash { result ≡ tag_hash tag }
    ensures range { result < 2 ^ 32 }
{
    let key = u64::from(tag.relation) * (1 << 32) + u64::from(tag.block);
    key.wrapping_mul(0x9E37_79B9_7F4A_7C15) / (1 << 32)
}

// The slot at which the search for the tag begins.
fn home(tag: Tag, size: usize) -> usize
    requires { (0 < size) × (size ≤ 65536) }
    ensures home { result ≡ home_slot tag size }
    ensures range { result < size }
{
    (hash(tag) * size as u64 / (1 << 32)) as usize
}

// Whether the entry at the frame has the tag.
fn carries(frames: &[Descriptor], frame: u32, tag: Tag) -> bool
    ensures { IsTrue result ↔ (tag_at frames.now frame ≡ Some tag) }
{
    match frames.get(frame as usize) {
        Some(held) => held.tag() == Some(tag),
        None => false,
    }
}

/// The frame of the tag.
pub(crate) fn find(slots: &[Option<u32>], frames: &[Descriptor], tag: Tag) -> Option<u32>
    requires size { (0 < length slots.now) × (length slots.now ≤ 65536) }
    requires indexed { IsIndexed slots.now frames.now }
    ensures { IsFrameOf frames.now tag result }
{
    let size = slots.len();
    let home = home(tag, size);
    for step in 0..size {
        let at = (home + step) % size;
        if slots[at].is_none() {
            return None;
        }
        if let Some(frame) = slots[at]
            && carries(frames, frame, tag)
        {
            return Some(frame);
        }
    }
    None
}

// Puts the frame into the first empty slot that the search for the tag comes to.
fn insert(slots: &mut [Option<u32>], tag: Tag, frame: u32)
    requires size { length slots.old ≤ 65536 }
    requires room { 0 < empty_slots slots.old }
    ensures full_slots { KeepsFullSlots slots.old slots.new }
    ensures reached { ProbesFind slots.new tag frame }
    ensures room { empty_slots slots.old ≤ empty_slots slots.new + 1 }
{
    let size = slots.len();
    let home = home(tag, size);
    for step in 0..size {
        let at = (home + step) % size;
        if slots[at].is_none() {
            slots[at] = Some(frame);
            return;
        }
    }
    unreachable!()
}

// Empties the table and puts in the frames that have an entry.
fn rebuild(slots: &mut [Option<u32>], frames: &[Descriptor])
    requires size { (length slots.old ≤ 65536) × (length frames.now < length slots.old) }
    ensures size { length slots.new ≡ length slots.old }
    ensures indexed { IsIndexed slots.new frames.now }
    ensures room { length slots.new ≤ empty_slots slots.new + length frames.now }
{
    slots.fill(None);
    for (i, frame) in frames.iter().enumerate() {
        if let Some(tag) = frame.tag() {
            insert(slots, tag, i as u32);
        }
    }
}

/// The slots, in which each entry's frame is found by its tag. A slot keeps its frame also when the
/// entry is gone: the search compares the tag of the frame. Where half of the slots are taken, the
/// table is made anew.
#[derive(Drop)]
pub(crate) struct TagTable {
    pub(crate) slots: Vec<Option<u32>>,
    // How many slots are empty.
    pub(crate) left: usize,
}

impl TagTable {
    /// Puts in the frame, which now has an entry of the tag.
    pub(crate) fn add(&mut self, frames: &[Descriptor], tag: Tag, frame: u32)
        requires size { (length self.old.slots.items ≡ 4 * length frames.now)
            × (0 < length frames.now) × (length frames.now ≤ 16384) }
        requires left { self.old.left ≤ empty_slots self.old.slots.items }
        requires entry { tag_at frames.now frame ≡ Some tag }
        requires others { (f : ℕ) (t : Tag) → f ≢ frame → tag_at frames.now f ≡ Some t
            → ProbesFind self.old.slots.items t f }
        ensures { IsTable self.new.slots.items self.new.left frames.now }
    {
        let size = self.slots.len();
        if self.left <= size / 2 {
            rebuild(&mut self.slots, frames);
            self.left = size - frames.len();
        } else {
            insert(&mut self.slots, tag, frame);
            self.left -= 1;
        }
    }
}
