//! Checksums of pages: what a server gives, and the plain rule that it follows.
use crate::pages::{Parts, page_of, put_bytes};
use page_check::Page;

/// Where `pd_checksum` stands, two bytes.
pub const CHECKSUM: usize = 8;

/// The checksums of a page without items as blocks 0 to 9 (`page_checksum` of a server's
/// pageinspect, version 15).
pub const EMPTY_SUMS: [u16; 10] = [
    25952, 25951, 25954, 25953, 25948, 25947, 25950, 25949, 25944, 25943,
];

/// The same where the page has its block number as `pd_prune_xid`.
pub const NUMBERED_SUMS: [u16; 10] = [
    25952, 30351, 31142, 16940, 41735, 13334, 65419, 33246, 48374, 52485,
];

/// How many columns of words are summed side by side (`N_SUMS` of `checksum_impl.h`).
const COLUMNS: usize = 32;

/// `FNV_PRIME` of `checksum_impl.h`.
const PRIME: u32 = 16777619;

/// What the sum of each column begins with (`checksumBaseOffsets` of `checksum_impl.h`).
const BASE_OFFSETS: [u32; COLUMNS] = [
    0x5B1F36E9, 0xB8525960, 0x02AB50AA, 0x1DE66D2A, 0x79FF467A, 0x9BB9F8A3, 0x217E7CD2, 0x83E13D2C,
    0xF8D4474F, 0xE39EB970, 0x42C6AE16, 0x993216FA, 0x7B093B5D, 0x98DAFF3C, 0xF718902A, 0x0B1C9CDB,
    0xE58F764B, 0x187636BC, 0x5D7B3BB1, 0xE73DE7DE, 0x92BEC979, 0xCCA6C0B2, 0x304A0979, 0x85AA43D4,
    0x783125BB, 0x6CA8EAA2, 0xE407EAC6, 0x4B5CFC3E, 0x9FBF8C76, 0x15CA20BE, 0xF2CA9FD3, 0x959BD756,
];

// A sum with one word more (`CHECKSUM_COMP` of `checksum_impl.h`).
fn sum_of(sum: u32, word: u32) -> u32 {
    let both = sum ^ word;
    both.wrapping_mul(PRIME) ^ (both >> 17)
}

/// The checksum of a page that is this block of its relation, by the plain rule of
/// `pg_checksum_page`: word by word, each into its column, and two zeros behind each column. The
/// page's own checksum, the low half of word 2, counts as 0.
pub fn plain_checksum(page: &[u8], block: u32) -> u16 {
    let mut sums = BASE_OFFSETS;
    for (place, bytes) in page.chunks_exact(4).enumerate() {
        let word = u32::from_le_bytes([bytes[0], bytes[1], bytes[2], bytes[3]]);
        let word = if place == 2 { word & 0xffff_0000 } else { word };
        let column = place % COLUMNS;
        sums[column] = sum_of(sums[column], word);
    }
    let mut all: u32 = 0;
    for sum in sums {
        all ^= sum_of(sum_of(sum, 0), 0);
    }
    ((all ^ block) % 65535) as u16 + 1
}

/// The page with this as its checksum.
pub fn with_checksum(mut page: Page, sum: u16) -> Page {
    put_bytes(&mut page, CHECKSUM, &sum.to_le_bytes());
    page
}

/// The page of these parts, with the checksum that it is to have as this block.
pub fn page_as(parts: Parts<'_>, block: u32) -> Page {
    let page = page_of(parts);
    let sum = plain_checksum(page.bytes(), block);
    with_checksum(page, sum)
}
