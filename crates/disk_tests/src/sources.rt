//! Reads of sources that come in parts, are interrupted and fail, and of relations that such
//! sources are the segments of.
ghost use Rattle.std.specs.Prelude.{◌-◌, ◌<◌, ◌≤◌, Some, None, length};

use aio_disk::DeviceFault;
use aio_disk::source::{ByteSource, count_blocks, is_full, read_blocks};
use aio_disk::source_relation::{count_relation, read_relation};
use page_check::{PAGE_SIZE, Page};
use page_fixtures::files::zeroed_pages;
use std::alloc::{AllocError, Global};
use std::io::{self, ErrorKind};
use std::process::Abort;
use std::test::Fail;

// Bytes in memory that come in parts of at most so many. The first calls are interrupted, and
// the first reads from an offset on fail.
#[derive(Drop)]
struct Parts {
    bytes: Vec<u8>,
    most: usize,
    interrupts_left: u8,
    fail_from: u64,
    faults_left: u8,
}

impl ByteSource for Parts {
    ghost told = { λ parts. Some (record {
      bytes = parts.bytes.items;
      faults = 255 - parts.faults_left;
      interrupts = 255 - parts.interrupts_left;
    }) };

    fn size(&mut self) -> Result<u64, DeviceFault> {
        Ok(self.bytes.len() as u64)
    }

    fn read_at(&mut self, bytes: &mut [u8], offset: u64) -> io::Result<usize> {
        if self.interrupts_left > 0 {
            self.interrupts_left -= 1;
            return Err(ErrorKind::Interrupted.into());
        }
        if offset >= self.fail_from && self.faults_left > 0 {
            self.faults_left -= 1;
            return Err(ErrorKind::Uncategorized.into());
        }
        let start = (offset as usize).min(self.bytes.len());
        let room = bytes.len().min(self.bytes.len() - start);
        let count = room.min(self.most.max(1));
        bytes[..count].copy_from_slice(&self.bytes[start..start + count]);
        Ok(count)
    }
}

// So many blocks, each filled with a byte of its own from `byte` on, and then a part of one.
fn parts_of(alloc: Global, byte: u8, blocks: u8, most: usize) -> Result<Parts, AllocError> {
    let mut bytes = Vec::new(alloc);
    for block in 0..blocks {
        bytes.extend_from_slice(&[byte.wrapping_add(block); PAGE_SIZE])?;
    }
    bytes.extend_from_slice(b"part of a block")?;
    Ok(Parts {
        bytes,
        most,
        interrupts_left: 0,
        fail_from: 0,
        faults_left: 0,
    })
}

// Reads into these pages, and says how many were read.
fn read_into<R: Abort + AllocGlobal>(
    rt: &R,
    parts: &mut Parts,
    first: u32,
    pages: &mut [Page],
) -> Result<Option<usize>, Fail> {
    assert!(rt; 0 < pages.len());
    assert!(rt; first as usize + pages.len() < 4294967296);
    Ok(read_blocks(parts, first, pages).ok())
}

// Reads, and says which byte stands first and last in each page that was read.
fn read<R: Abort + AllocGlobal>(
    rt: &R,
    parts: &mut Parts,
    first: u32,
    count: u32,
) -> Result<Option<Vec<(u8, u8)>>, Fail> {
    let mut pages = zeroed_pages(rt.alloc(), count as usize)?;
    let Some(given) = read_into(rt, parts, first, pages.as_mut_slice())? else {
        return Ok(None);
    };
    let mut ends = Vec::new(rt.alloc());
    for page in pages.iter().take(given) {
        let bytes = page.bytes();
        ends.push((bytes[0], bytes[8191]))?;
    }
    Ok(Some(ends))
}

// Each call gives less than a block, and the first three are interrupted.
#[test]
fn short_and_interrupted_reads_are_taken_up(rt: HostRuntime) -> Result<(), Fail> {
    let mut parts = parts_of(rt.alloc(), 1, 3, 5000)?;
    parts.interrupts_left = 3;
    assert_eq!(rt; count_blocks(&mut parts).ok(), Some(3));
    for (first, count, wanted) in [(0, 1, Some((1, 1))), (1, 3, Some((2, 2))), (3, 2, None)] {
        let ends = read(&rt, &mut parts, first, count)?.ok_or("a fault")?;
        assert_eq!(rt; ends.as_slice().first().copied(), wanted, "block {first}");
    }
    assert_eq!(rt; parts.interrupts_left, 0);
    Ok(())
}

// Reads blocks 0 to 19, of which the first 16 are given.
fn check_front<R: Abort + AllocGlobal>(rt: &R, parts: &mut Parts) -> Result<(), Fail> {
    let front = read(rt, parts, 0, 20)?.ok_or("a fault")?;
    assert_eq!(rt; front.len(), 16);
    assert_eq!(rt; front.as_slice().last().copied(), Some((16, 16)));
    Ok(())
}

// Reads from block 16 on to the end.
fn check_back<R: Abort + AllocGlobal>(rt: &R, parts: &mut Parts) -> Result<(), Fail> {
    let back = read(rt, parts, 16, 20)?.ok_or("a fault")?;
    let wanted = [(17, 17), (18, 18), (19, 19), (20, 20)];
    assert_eq!(rt; back.as_slice(), wanted.as_slice());
    Ok(())
}

// A call gives 16 blocks, and the first call from block 16 on fails: that is no fault of a read that
// has blocks to give.
#[test]
fn a_fault_behind_blocks_is_that_of_the_next_read(rt: HostRuntime) -> Result<(), Fail> {
    let mut parts = parts_of(rt.alloc(), 1, 20, 16 * PAGE_SIZE)?;
    parts.fail_from = 16 * PAGE_SIZE as u64;
    parts.faults_left = 1;
    check_front(&rt, &mut parts)?;
    assert!(rt; read(&rt, &mut parts, 16, 4)?.is_none());
    assert_eq!(rt; parts.faults_left, 0);
    check_back(&rt, &mut parts)
}

// Parts that do not tell their bytes.
#[derive(Drop)]
struct UntoldSource {
    parts: Parts,
}

impl ByteSource for UntoldSource {
    ghost told = { λ _. None };

    fn size(&mut self) -> Result<u64, DeviceFault> {
        self.parts.size()
    }

    fn read_at(&mut self, bytes: &mut [u8], offset: u64) -> io::Result<usize> {
        self.parts.read_at(bytes, offset)
    }
}

// Segments of so many blocks each. Each block of the relation is filled with a byte of its own
// from 1 on.
fn segments_of(alloc: Global, counts: &[u8]) -> Result<Vec<UntoldSource>, AllocError> {
    let mut segments = Vec::new(alloc);
    let mut byte = 1u8;
    for count in counts {
        let parts = parts_of(alloc, byte, *count, 200000)?;
        segments.push(UntoldSource { parts })?;
        byte = byte.wrapping_add(*count);
    }
    Ok(segments)
}

// How many blocks a relation of segments of 4 blocks has.
fn count_of(segments: &mut [UntoldSource]) -> Option<u32>
    requires { 0 < length segments.old }
{
    count_relation(segments, 4).ok()
}

// Reads pages of it, and says how many.
fn read_of(segments: &mut [UntoldSource], first: u32, pages: &mut [Page]) -> Option<usize>
    requires segments { 0 < length segments.old }
    requires some { 0 < length pages.old }
{
    read_relation(segments, 4, first, pages).ok()
}

// Reads into these pages, and says how many were read.
fn read_segments<R: Abort + AllocGlobal>(
    rt: &R,
    segments: &mut [UntoldSource],
    first: u32,
    pages: &mut [Page],
) -> Result<Option<usize>, Fail> {
    assert!(rt; 0 < segments.len());
    assert!(rt; 0 < pages.len());
    Ok(read_of(segments, first, pages))
}

// Reads 16 pages of it, and says what each that was read begins with.
fn read_16<R: Abort + AllocGlobal>(
    rt: &R,
    segments: &mut [UntoldSource],
    first: u32,
) -> Result<Option<Vec<u8>>, Fail> {
    let mut pages = zeroed_pages(rt.alloc(), 16)?;
    let Some(given) = read_segments(rt, segments, first, pages.as_mut_slice())? else {
        return Ok(None);
    };
    let mut bytes = Vec::new(rt.alloc());
    for page in pages.iter().take(given) {
        bytes.push(page.bytes()[0])?;
    }
    Ok(Some(bytes))
}

// Compares what 16 pages begin with.
fn check_16<R: Abort + AllocGlobal>(
    rt: &R,
    segments: &mut [UntoldSource],
    first: u32,
    wanted: &[u8],
) -> Result<(), Fail> {
    let bytes = read_16(rt, segments, first)?.ok_or("a fault")?;
    assert_eq!(rt; bytes.as_slice(), wanted, "block {first}");
    Ok(())
}

// First blocks, and what the blocks from there to the end of the segment begin with.
const READS: [(u32, &[u8]); 6] = [
    (0, &[1, 2, 3, 4]),
    (2, &[3, 4]),
    (4, &[5, 6, 7, 8]),
    (8, &[9, 10]),
    (10, &[]),
    (u32::MAX, &[]),
];

#[test]
fn a_read_ends_with_its_segment(rt: HostRuntime) -> Result<(), Fail> {
    let mut segments = segments_of(rt.alloc(), &[4, 4, 2])?;
    assert!(rt; 0 < segments.len());
    assert_eq!(rt; count_of(segments.as_mut_slice()), Some(10));
    for (first, wanted) in READS {
        check_16(&rt, segments.as_mut_slice(), first, wanted)?;
    }
    Ok(())
}

#[test]
fn the_last_segment_may_be_long(rt: HostRuntime) -> Result<(), Fail> {
    let mut segments = segments_of(rt.alloc(), &[5])?;
    assert!(rt; 0 < segments.len());
    assert_eq!(rt; is_full(&mut segments[0], 4).ok(), Some(false));
    assert_eq!(rt; is_full(&mut segments[0], 5).ok(), Some(true));
    assert_eq!(rt; count_of(segments.as_mut_slice()), Some(5));
    check_16(&rt, segments.as_mut_slice(), 4, &[5])
}

// How many faults each segment has left.
fn faults_left(alloc: Global, segments: &[UntoldSource]) -> Result<Vec<u8>, AllocError> {
    let mut left = Vec::new(alloc);
    for segment in segments {
        left.push(segment.parts.faults_left)?;
    }
    Ok(left)
}

// The first read of each segment fails, but that of block 5 is of the second one alone.
#[test]
fn a_fault_is_that_of_its_segment(rt: HostRuntime) -> Result<(), Fail> {
    let mut segments = segments_of(rt.alloc(), &[4, 4, 2])?;
    for segment in &mut segments {
        segment.parts.faults_left = 1;
    }
    assert!(rt; read_16(&rt, segments.as_mut_slice(), 5)?.is_none());
    let left = faults_left(rt.alloc(), segments.as_slice())?;
    assert_eq!(rt; left.as_slice(), [1, 0, 1].as_slice());
    check_16(&rt, segments.as_mut_slice(), 5, &[6, 7, 8])
}
