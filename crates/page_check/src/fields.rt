//! The fields of a page: its header and its line pointers.
ghost use Rattle.std.specs.Prelude.{◌≡◌, ◌<◌, ◌≤◌, ◌+◌, ◌*◌, length};
ghost use Rattle.page_check.specs.Fields.{u16_at, u32_at, header_of};
ghost use Rattle.page_check.specs.Verdict.{IsValid};
ghost use Rattle.page_check.specs.LinePointers.{line_pointer_count, line_pointer_of, kind_of};

use crate::Page;
use byteorder::{ByteOrder, LittleEndian};

/// Where the line pointers begin, in bytes: `SizeOfPageHeaderData` of `bufpage.h`.
const HEADER_SIZE: u16 = 24;

/// The header of a page (`PageHeaderData` of `bufpage.h`), without `pd_lsn`.
#[derive(Clone, Copy, Debug, PartialEq, Eq)]
pub struct PageHeader {
    /// `pd_checksum`, which nothing here looks at.
    pub checksum: u16,
    /// `pd_flags`.
    pub flags: u16,
    /// `pd_lower`: where the free space begins, in bytes from the start of the page.
    pub lower: u16,
    /// `pd_upper`: where the free space ends, or 0 on a new page.
    pub upper: u16,
    /// `pd_special`: where the special space of an index page begins.
    pub special: u16,
    /// `pd_pagesize_version`.
    pub pagesize_version: u16,
    /// `pd_prune_xid`.
    pub prune_xid: u32,
}

/// What a line pointer stands for (`lp_flags` of `itemid.h`).
#[derive(Clone, Copy, Debug, PartialEq, Eq)]
pub enum Kind {
    /// `LP_UNUSED`: free for a new item.
    Unused,
    /// `LP_NORMAL`: an item at an offset, with a length.
    Normal,
    /// `LP_REDIRECT`: the offset is the number of another line pointer.
    Redirect,
    /// `LP_DEAD`: an item that is gone.
    Dead,
}

/// A line pointer (`ItemIdData` of `itemid.h`). Offset and length stand as the page has them, from
/// 0 to 32767; nothing bounds them by the page.
#[derive(Clone, Copy, Debug, PartialEq, Eq)]
pub struct LinePointer {
    /// `lp_off`, in bytes from the start of the page.
    pub offset: u16,
    /// `lp_flags`.
    pub kind: Kind,
    /// `lp_len`, in bytes.
    pub length: u16,
}

/// The number that two bytes at an offset have, the lowest byte first.
#[inline]
pub fn read_u16(bytes: &[u8], offset: usize) -> u16
    requires { offset + 2 ≤ length bytes.now }
    ensures { result ≡ u16_at bytes.now offset }
{
    LittleEndian::read_u16(&bytes[offset..])
}

/// The number that four bytes at an offset have, the lowest byte first.
#[inline]
pub fn read_u32(bytes: &[u8], offset: usize) -> u32
    requires { offset + 4 ≤ length bytes.now }
    ensures { result ≡ u32_at bytes.now offset }
{
    LittleEndian::read_u32(&bytes[offset..])
}

/// The fields of the header, of any page.
#[tactic(auto, unfolding(crate::specs::Fields::header_of))]
pub fn header(page: &Page) -> PageHeader
    ensures { result ≡ header_of page.now }
{
    let bytes = page.bytes();
    PageHeader {
        checksum: read_u16(bytes, 8),
        flags: read_u16(bytes, 10),
        lower: read_u16(bytes, 12),
        upper: read_u16(bytes, 14),
        special: read_u16(bytes, 16),
        pagesize_version: read_u16(bytes, 18),
        prune_xid: read_u32(bytes, 20),
    }
}

/// How many line pointers the page has (`PageGetMaxOffsetNumber`).
#[tactic(auto, unfolding(crate::specs::LinePointers::line_pointer_count, crate::specs::Fields::header_of))]
pub fn count(page: &Page) -> u16
    ensures count { result ≡ line_pointer_count page.now }
    ensures few { IsValid page.now → result ≤ 2042 }
{
    read_u16(page.bytes(), 12).saturating_sub(HEADER_SIZE) / 4
}

#[inline]
fn kind_from(flags: u32) -> Kind
    requires { flags < 4 }
    ensures { result ≡ kind_of flags }
{
    match flags {
        0 => Kind::Unused,
        1 => Kind::Normal,
        2 => Kind::Redirect,
        _ => Kind::Dead,
    }
}

/// The line pointer at an index of a page's bytes, for a loop that asks the page for them once.
#[inline]
#[tactic(auto, unfolding(crate::specs::LinePointers::line_pointer_of))]
pub fn line_pointer_at(bytes: &[u8], index: u16) -> LinePointer
    requires { 28 + 4 * index ≤ length bytes.now }
    ensures { result ≡ line_pointer_of bytes.now index }
{
    let number = read_u32(bytes, 24 + 4 * index as usize);
    LinePointer {
        offset: (number & 0x7fff) as u16,
        kind: kind_from(number >> 15 & 3),
        length: (number >> 17) as u16,
    }
}

/// The line pointer at an index, the first at 0 (`PageGetItemId`, whose numbers begin at 1).
#[inline]
pub fn line_pointer(page: &Page, index: u16) -> LinePointer
    requires valid { IsValid page.now }
    requires index { index < line_pointer_count page.now }
    ensures { result ≡ line_pointer_of page.now index }
{
    line_pointer_at(page.bytes(), index)
}
