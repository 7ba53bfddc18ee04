//! A page by its parts, and the bytes of pages one after the other.
ghost use Rattle.std.specs.Prelude.{IfSome};
ghost use Rattle.page_check.specs.Verdict.{IsValid};

use crate::checksums::{NUMBERED_SUMS, plain_checksum, with_checksum};
use page_check::{Kind, PAGE_SIZE, Page, Verdict, check};
use std::alloc::{AllocError, Global};

/// What a page has beside zeros: bytes at offsets. Where two overlap, the later ones stand.
pub type Parts<'a> = &'a [(usize, &'a [u8])];

/// Where `pd_flags` stands, in bytes from the start of a page. Flags above 7 make a page invalid.
pub const FLAGS: usize = 10;

/// Where what [`bounds`] gives stands: `pd_lower` and the three fields behind it.
pub const BOUNDS: usize = 12;

/// Where `pd_prune_xid` stands, four bytes that no check looks at.
pub const PRUNE_XID: usize = 20;

/// Where the header ends: the line pointers of a heap page or the bits of a map begin here.
pub const CONTENTS: usize = 24;

/// A page without items: lower 24, upper and special 8192, size 8192, layout version 4.
pub const EMPTY: Parts<'static> = &[(12, &[24, 0, 0, 32, 0, 32, 4, 32])];

/// A page of zeros, as a file has where it was extended: a valid one.
pub const ZEROS: Parts<'static> = &[];

/// Zeros but for one byte: an invalid page, since its upper is 0.
pub const DAMAGED: Parts<'static> = &[(8000, &[1])];

/// A page without items that has the flag 8, which no server sets: an invalid page.
pub const FLAGGED: Parts<'static> = &[(10, &[8, 0, 24, 0, 0, 32, 0, 32, 4, 32])];

/// The fields `pd_lower`, `pd_upper`, `pd_special` and `pd_pagesize_version`, which is 8196.
pub fn bounds(lower: u16, upper: u16, special: u16) -> [u8; 8] {
    let lower = lower.to_le_bytes();
    let upper = upper.to_le_bytes();
    let special = special.to_le_bytes();
    [
        lower[0], lower[1], upper[0], upper[1], special[0], special[1], 4, 32,
    ]
}

/// The four bytes of a line pointer. Offset and length are taken modulo 32768.
pub fn line_pointer_bytes(offset: u16, kind: Kind, length: u16) -> [u8; 4] {
    let flags: u32 = match kind {
        Kind::Unused => 0,
        Kind::Normal => 1,
        Kind::Redirect => 2,
        Kind::Dead => 3,
    };
    let number = u32::from(length & 0x7fff) << 17 | flags << 15 | u32::from(offset & 0x7fff);
    number.to_le_bytes()
}

/// Writes bytes into a page at an offset. What would stand beyond the page is left out.
pub fn put_bytes(page: &mut Page, offset: usize, bytes: &[u8]) {
    let places = &mut page.bytes_mut()[offset.min(PAGE_SIZE)..];
    for (place, byte) in places.iter_mut().zip(bytes) {
        *place = *byte;
    }
}

/// The page of these parts.
pub fn page_of(parts: Parts<'_>) -> Page {
    let mut page = Page::zeros();
    for (offset, bytes) in parts {
        put_bytes(&mut page, *offset, bytes);
    }
    page
}

/// The page of these parts, or None where it is invalid.
pub fn valid_page_of(parts: Parts<'_>) -> Option<Page>
    ensures { IfSome result IsValid }
{
    let page = page_of(parts);
    match check(&page) {
        Verdict::Zero | Verdict::Sane => Some(page),
        Verdict::Bad => None,
    }
}

/// The bytes of these pages, one page after the other: the contents of a file.
pub fn bytes_of(alloc: Global, pages: &[Parts<'_>]) -> Result<Vec<u8>, AllocError> {
    let mut bytes = Vec::new(alloc);
    for parts in pages {
        bytes.extend_from_slice(page_of(parts).bytes())?;
    }
    Ok(bytes)
}

/// A page without items, with its block number as `pd_prune_xid` and with its checksum. A damaged
/// one has got the flag 8 since then, so that it is invalid.
pub fn numbered_page(block: u32, damaged: bool) -> Page {
    let mut page = page_of(EMPTY);
    put_bytes(&mut page, PRUNE_XID, &block.to_le_bytes());
    // The plain rule takes two milliseconds where a build does not optimize.
    let sum = match NUMBERED_SUMS.get(block as usize) {
        Some(sum) => *sum,
        None => plain_checksum(page.bytes(), block),
    };
    let mut page = with_checksum(page, sum);
    if damaged {
        put_bytes(&mut page, FLAGS, &[8]);
    }
    page
}

/// The bytes of so many such pages, of which the one at `damaged` is invalid.
pub fn numbered_pages(
    alloc: Global,
    blocks: u32,
    damaged: Option<u32>,
) -> Result<Vec<u8>, AllocError> {
    let mut bytes = Vec::new(alloc);
    for block in 0..blocks {
        let page = numbered_page(block, damaged == Some(block));
        bytes.extend_from_slice(page.bytes())?;
    }
    Ok(bytes)
}
