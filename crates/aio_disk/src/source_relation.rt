//! Relations whose segments are sources of bytes: how many blocks they have, and reads of them.
ghost use Rattle.std.specs.Prelude.{◌≡◌, ◌≤◌, ◌<◌, ◌-◌, ◌*◌, ◌/◌, ◌^◌, min, length, map};
ghost use Rattle.std.specs.Prelude.{IfOk};
ghost use Rattle.page_check.specs.Told.{segments_joined, block_count};
ghost use Rattle.aio_disk.specs.Disk.{ReadsBlocks};
ghost use Rattle.aio_disk.specs.Segments.{AreWholeExceptLast, IfAllTell, segment_told, segment_index};
ghost use Rattle.aio_disk.specs.Segments.{OthersStay, AsksOneSegment, ReadsOneSegment};

use crate::DeviceFault;
use crate::source::{ByteSource, count_blocks, read_blocks};
use page_check::Page;

// How many blocks the segments before this one have, where each of them is full.
fn blocks_before(size: u32, segment: usize) -> u64
    ensures { result ≡ min (size * segment) (2 ^ 64 - 1) }
{
    u64::from(size).saturating_mul(segment as u64)
}

// The segment that a block of a relation of so many segments is in: the last one has all blocks
// from its first one on.
fn segment_of(size: u32, segments: usize, block: u32) -> usize
    requires some { 0 < segments }
    requires least { 1 ≤ size }
    ensures { result ≡ min (block / size) (segments - 1) }
{
    ((block / size) as usize).min(segments - 1)
}

/// How many blocks the segments have together. The last one alone is asked for its size.
pub fn count_relation<S: ByteSource>(segments: &mut [S], size: u32) -> Result<u32, DeviceFault>
    requires some { 0 < length segments.old }
    requires size { size ≤ 131072 }
    requires whole { AreWholeExceptLast size (map S.told segments.old) }
    ensures blocks { IfOk result (λ n. IfAllTell (map S.told segments.old)
        (λ bytes. n ≡ block_count (segments_joined size bytes))) }
    ensures called { AsksOneSegment
        (segment_told (map S.told segments.old) (length segments.old - 1))
        (segment_told (map S.told segments.new) (length segments.old - 1)) result }
    ensures others { OthersStay (map S.told segments.old) (map S.told segments.new)
        (length segments.old - 1) }
{
    let last = segments.len() - 1;
    let before = blocks_before(size, last);
    match count_blocks(&mut segments[last]) {
        Ok(blocks) => {
            let all = before.saturating_add(u64::from(blocks));
            Ok(all.min(u64::from(u32::MAX)) as u32)
        }
        Err(fault) => Err(fault),
    }
}

/// Reads the pages of blocks of one segment, and says how many: none only from the relation's end
/// on, and fewer than asked for where the segment ends. A fault is as that of `read_blocks`.
pub fn read_relation<S: ByteSource>(
    segments: &mut [S],
    size: u32,
    first: u32,
    pages: &mut [Page],
) -> Result<usize, DeviceFault>
    requires segments { 0 < length segments.old }
    requires least { 1 ≤ size }
    requires most { size ≤ 131072 }
    requires whole { AreWholeExceptLast size (map S.told segments.old) }
    requires some { 0 < length pages.old }
    ensures few { IfOk result (λ n. n ≤ length pages.new) }
    ensures pages { IfOk result (λ n. IfAllTell (map S.told segments.old)
        (λ bytes. ReadsBlocks (segments_joined size bytes) first n pages.new)) }
    ensures called { ReadsOneSegment
        (segment_told (map S.told segments.old)
        (segment_index size (map S.told segments.old) first))
        (segment_told (map S.told segments.new)
        (segment_index size (map S.told segments.old) first))
        result }
    ensures others { OthersStay (map S.told segments.old) (map S.told segments.new)
        (segment_index size (map S.told segments.old) first) }
{
    let room = pages.len().min((u32::MAX - first) as usize);
    if room == 0 {
        return Ok(0);
    }
    let index = segment_of(size, segments.len(), first);
    let inside = first - blocks_before(size, index) as u32;
    match read_blocks(&mut segments[index], inside, &mut pages[..room]) {
        Ok(count) => Ok(count),
        Err(fault) => Err(fault),
    }
}
