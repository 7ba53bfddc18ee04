//! The header of a tuple.
ghost use Rattle.std.specs.Prelude.{◌≡◌, ◌<◌, ◌≤◌, ◌+◌, length};
ghost use Rattle.page_check.specs.Verdict.{IsValid};
ghost use Rattle.page_check.specs.LinePointers.{line_pointer_count};
ghost use Rattle.heap_tuple.specs.Tuples.{header_at, is_inside, tuple_of};

use page_check::{Kind, LinePointer, PAGE_SIZE, Page, line_pointer, read_u16, read_u32};

/// How many bytes a header has without its null bitmap (`SizeofHeapTupleHeader`).
const HEADER_SIZE: u16 = 23;

/// `HEAP_NATTS_MASK`: the bits of `t_infomask2` that count attributes.
const ATTRIBUTES_MASK: u16 = 0x07ff;

/// The header of a tuple (`HeapTupleHeaderData` of `htup_details.h`).
#[derive(Clone, Copy, Debug, PartialEq, Eq)]
pub struct TupleHeader {
    /// `t_xmin`: the transaction that made the tuple.
    pub xmin: u32,
    /// `t_xmax`: the transaction that deleted, updated or locked it, or 0.
    pub xmax: u32,
    /// `t_field3`: `t_cid` or `t_xvac`.
    pub field3: u32,
    /// The block of `t_ctid`.
    pub block: u32,
    /// The item of `t_ctid`, from 1 on (`ip_posid`).
    pub position: u16,
    /// How many attributes the tuple has (`HeapTupleHeaderGetNatts`).
    pub attrs: u16,
    /// `t_infomask`.
    pub mask: u16,
    /// `t_hoff`: where the tuple's data begins.
    pub hoff: u8,
}

/// The header of the tuple that begins at an offset of a page's bytes, for a loop that has looked at
/// the line pointer already.
#[inline]
#[tactic(auto, unfolding(crate::specs::Tuples::header_at))]
pub fn read_header(bytes: &[u8], offset: usize) -> TupleHeader
    requires { offset + 23 ≤ length bytes.now }
    ensures { result ≡ header_at bytes.now offset }
{
    let high = u32::from(read_u16(bytes, offset + 12));
    let low = u32::from(read_u16(bytes, offset + 14));
    TupleHeader {
        xmin: read_u32(bytes, offset),
        xmax: read_u32(bytes, offset + 4),
        field3: read_u32(bytes, offset + 8),
        block: 65536 * high + low,
        position: read_u16(bytes, offset + 16),
        attrs: read_u16(bytes, offset + 18) & ATTRIBUTES_MASK,
        mask: read_u16(bytes, offset + 20),
        hoff: bytes[offset + 22],
    }
}

#[inline]
fn has_header(pointer: LinePointer) -> bool
    ensures { result ≡ is_inside pointer }
{
    pointer.kind == Kind::Normal
        && pointer.length >= HEADER_SIZE
        && usize::from(pointer.offset) + usize::from(pointer.length) <= PAGE_SIZE
}

/// The header of the tuple at an index, the first at 0: none where the item is not normal, is too
/// short for a header, or passes the end of the page.
#[tactic(auto, unfolding(crate::specs::Tuples::tuple_of))]
pub fn tuple(page: &Page, index: u16) -> Option<TupleHeader>
    requires valid { IsValid page.now }
    requires index { index < line_pointer_count page.now }
    ensures { result ≡ tuple_of page.now index }
{
    let pointer = line_pointer(page, index);
    if !has_header(pointer) {
        return None;
    }
    Some(read_header(page.bytes(), usize::from(pointer.offset)))
}
