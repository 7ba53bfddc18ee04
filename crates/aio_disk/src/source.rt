//! What real files are read by: bytes that come in parts, and calls that fail or are interrupted.
ghost use Rattle.std.specs.Prelude.{◌≡◌, ◌≤◌, ◌<◌, ◌+◌, ◌*◌, ◌^◌, ◌∷◌, [], length, None, IfOk};
ghost use Rattle.std.specs.Prelude.{◌==◌, IfSome, Option, MatchResult};
ghost use Rattle.std.specs.Option.{option_map};
ghost use Rattle.page_check.specs.Told.{block_count};
ghost use Rattle.aio_disk.specs.Source.{Source, with_failures, NoneFailed, OneFailed, GivesBytes};
ghost use Rattle.aio_disk.specs.Source.{GivesBlock};
ghost use Rattle.aio_disk.specs.Source.{AnswersSize, AnswersBytes, GivesBlocks};

use crate::DeviceFault;
use page_check::{PAGE_SIZE, Page, split_bytes};
use std::alloc::Global;
use std::fs::File;
use std::io::{self, ErrorKind, Seek, SeekFrom};
use std::os::unix::fs::FileExt;
use std::sync::Arc;

/// The bytes of one relation. It may tell them, and which of its calls failed.
pub trait ByteSource {
    /// What it tells.
    ghost told: { Self → Option Source };

    /// How many bytes there are.
    fn size(&mut self) -> Result<u64, DeviceFault>
        ensures { AnswersSize (told self.old) (told self.new) result };

    /// Reads some bytes from an offset on, and says how many: none at the end alone. A call that a
    /// signal ended (`EINTR`) gives an error of the kind `Interrupted`, and is to be made again.
    fn read_at(&mut self, bytes: &mut [u8], offset: u64) -> io::Result<usize>
        ensures few { IfOk result (λ n. n ≤ length bytes.new) }
        ensures bytes { AnswersBytes (told self.old) (told self.new) offset bytes.new result };
}

impl ByteSource for Arc<File, Global> {
    ghost told = { λ file. None };

    fn size(&mut self) -> Result<u64, DeviceFault> {
        self.seek(SeekFrom::End(0)).map_err(|_| DeviceFault)
    }

    fn read_at(&mut self, bytes: &mut [u8], offset: u64) -> io::Result<usize> {
        FileExt::read_at(&**self, bytes, offset)
    }
}

/// How many whole blocks there are (`FileSize` of `fd.c`).
#[tactic(auto, unfolding(page_check::specs::Told::block_count))]
pub fn count_blocks<S: ByteSource>(source: &mut S) -> Result<u32, DeviceFault>
    ensures { MatchResult result
        (λ n. (S.told source.new ≡ S.told source.old)
        × IfSome (S.told source.old) (λ told. n ≡ block_count told.bytes))
        (λ _. S.told source.new ≡ option_map (with_failures 1 0) (S.told source.old)) }
{
    match source.size() {
        Ok(size) => Ok((size / PAGE_SIZE as u64).min(u64::from(u32::MAX)) as u32),
        Err(fault) => Err(fault),
    }
}

/// Whether there are exactly as many whole blocks as a segment has that another one follows.
pub fn is_full<S: ByteSource>(source: &mut S, size: u32) -> Result<bool, DeviceFault>
    ensures { MatchResult result
        (λ full. (S.told source.new ≡ S.told source.old)
        × IfSome (S.told source.old) (λ told. full ≡ (block_count told.bytes == size)))
        (λ _. S.told source.new ≡ option_map (with_failures 1 0) (S.told source.old)) }
{
    match count_blocks(source) {
        Ok(count) => Ok(count == size),
        Err(fault) => Err(fault),
    }
}

// Reads some bytes, and makes a call that was interrupted again.
fn read_part<S: ByteSource>(
    source: &mut S,
    bytes: &mut [u8],
    offset: u64,
) -> Result<usize, DeviceFault>
    ensures few { IfOk result (λ n. n ≤ length bytes.new) }
    ensures bytes { MatchResult result
        (λ n. NoneFailed (S.told source.old) (S.told source.new)
        × IfSome (S.told source.old) (λ told. GivesBytes told.bytes offset n bytes.new))
        (λ _. OneFailed (S.told source.old) (S.told source.new)) }
{
    for _ in 0..u64::MAX {
        match source.read_at(bytes, offset) {
            Ok(count) => return Ok(count),
            Err(error) if error.kind() == ErrorKind::Interrupted => {}
            Err(_) => return Err(DeviceFault),
        }
    }
    Err(DeviceFault)
}

// Reads until the bytes hold at least one whole block, or to the end, and says how many bytes.
fn read_some<S: ByteSource>(
    source: &mut S,
    bytes: &mut [u8],
    offset: u64,
) -> Result<usize, DeviceFault>
    requires { offset < 2 ^ 62 }
    ensures few { IfOk result (λ n. n ≤ length bytes.new) }
    ensures bytes { MatchResult result
        (λ n. NoneFailed (S.told source.old) (S.told source.new)
        × IfSome (S.told source.old) (λ told. GivesBlock told.bytes offset n bytes.new))
        (λ _. OneFailed (S.told source.old) (S.told source.new)) }
{
    let mut done = 0;
    while done < bytes.len().min(PAGE_SIZE) {
        match read_part(source, &mut bytes[done..], offset + done as u64) {
            Ok(0) => return Ok(done),
            Ok(count) => done += count,
            Err(fault) => return Err(fault),
        }
    }
    Ok(done)
}

/// Reads the pages of whole blocks in place, by one call, and says how many: none only from the end
/// on. After a fault behind a whole block it gives the pages before it.
pub fn read_blocks<S: ByteSource>(
    source: &mut S,
    first: u32,
    pages: &mut [Page],
) -> Result<usize, DeviceFault>
    requires some { 0 < length pages.old }
    requires blocks { first + length pages.old < 2 ^ 32 }
    ensures few { IfOk result (λ n. n ≤ length pages.new) }
    ensures pages { GivesBlocks (S.told source.old) (S.told source.new) first pages.new result }
{
    let count = pages.len();
    let (bytes, _) = split_bytes(pages, count);
    match read_some(source, bytes, PAGE_SIZE as u64 * u64::from(first)) {
        Ok(got) => Ok(got / PAGE_SIZE),
        Err(fault) => Err(fault),
    }
}
