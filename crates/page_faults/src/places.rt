//! Which bytes of a page the items have.
ghost use Rattle.std.specs.Prelude.{◌≡◌, ℕ, List, ◌+◌, ◌-◌, ◌≤◌, ◌<◌, length, slice_index};
ghost use Rattle.page_check.specs.Fields.{header_of};
ghost use Rattle.page_check.specs.Verdict.{IsValid};
ghost use Rattle.page_check.specs.LinePointers.{line_pointer_count, line_pointer_of};
ghost use Rattle.page_faults.specs.Places.{is_outside, first_owner, AreOwners, place_of};
ghost use Rattle.page_faults.specs.Places.{placed_items, number_of};

use page_check::{Kind, LinePointer, Page, PageHeader, header};

/// How many pieces of 8 bytes a page has (`MAXALIGN`).
pub(crate) const PIECES: usize = 1024;

/// How short the header of a tuple can be: `MAXALIGN(SizeofHeapTupleHeader)`.
pub(crate) const SHORTEST: u16 = 24;

/// The place of a normal item on its page.
#[derive(Clone, Copy, Debug, PartialEq, Eq)]
pub(crate) enum Place {
    /// It has its bytes alone.
    Own,
    /// The item of this number has bytes of it.
    Taken(u16),
    /// It lies in the free space or passes the end, is not aligned, or is too short.
    Outside,
}

#[inline]
#[tactic(auto, unfolding(crate::specs::Places::is_outside))]
fn is_outside(header: &PageHeader, pointer: LinePointer) -> bool
    ensures { result ≡ is_outside header.now pointer }
{
    let end = u32::from(pointer.offset) + u32::from(pointer.length);
    pointer.offset < header.upper
        || pointer.offset % 8 != 0
        || end > u32::from(header.special)
        || pointer.length < SHORTEST
}

// The number of the item that has the first of these pieces that one has.
#[inline]
fn first_owner(owners: &[u16], from: usize, to: usize) -> Option<u16>
    requires { to ≤ length owners.now }
    ensures { (page items : List ℕ) → AreOwners page items owners.now
        → result ≡ number_of (first_owner page items from (to - from)) }
{
    for piece in from..to {
        let number = owners[piece];
        if number > 0 {
            return Some(number);
        }
    }
    None
}

// Writes down the number of the item that has these pieces.
#[inline]
fn set_owner(owners: &mut [u16], from: usize, to: usize, number: u16)
    requires order { from ≤ to }
    requires within { to ≤ length owners.old }
    ensures size { length owners.new ≡ length owners.old }
    ensures before { (piece : ℕ) → piece < from
        → slice_index owners.new piece ≡ slice_index owners.old piece }
    ensures there { (piece : ℕ) → from ≤ piece → piece < to
        → slice_index owners.new piece ≡ number }
    ensures behind { (piece : ℕ) → from ≤ piece → to ≤ piece
        → slice_index owners.new piece ≡ slice_index owners.old piece }
{
    for piece in from..to {
        owners[piece] = number;
    }
}

/// The place of the normal item at an index beside the items before it. Where it has its own, the
/// pieces of its bytes become the item's.
#[inline]
pub(crate) fn take_place(page: &Page, index: u16, pointer: LinePointer, owners: &mut [u16]) -> Place
    requires heap { (header_of page.now).special ≡ 8192 }
    requires few { index < 2042 }
    requires pointer { pointer ≡ line_pointer_of page.now index }
    requires normal { pointer.kind ≡ Kind.Normal }
    requires owners { AreOwners page.now (placed_items page.now index) owners.old }
    ensures place { result ≡ place_of page.now (placed_items page.now index) index }
    ensures fits { result ≡ Place.Own → pointer.offset + 24 ≤ 8192 }
    ensures owners { AreOwners page.now (placed_items page.now (index + 1)) owners.new }
{
    if is_outside(&header(page), pointer) {
        return Place::Outside;
    }
    let begin = usize::from(pointer.offset);
    let len = usize::from(pointer.length);
    let (from, to) = (begin / 8, (begin + len + 7) / 8);
    if let Some(other) = first_owner(owners, from, to) {
        return Place::Taken(other);
    }
    set_owner(owners, from, to, index + 1);
    Place::Own
}
