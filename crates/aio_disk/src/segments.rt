//! Relations in memory, cut into segments.
ghost use Rattle.std.specs.Prelude.{◌≡◌, ◌≤◌, ◌<◌, IfOk, string_bytes};
ghost use Rattle.aio_disk.specs.Shelf.{file_contents, segment_name, file_segments};

use crate::blocks::{Blocks, block_bytes, whole_blocks};
use crate::shared_bytes::{NamedFile, SharedBytes, find_file};
use std::alloc::{AllocError, Global};
use std::marker::Model;

/// The greatest segment size, and that of PostgreSQL as it is built by default: 1 GB in blocks
/// (`RELSEG_SIZE` of `pg_config.h`).
pub const SEGMENT_SIZE: u32 = 131072;

/// How many segments a relation has at most.
pub(crate) const MOST_SEGMENTS: u32 = 17;

/// The segments of a relation that are there.
#[derive(Drop)]
pub(crate) struct Segments {
    files: Vec<SharedBytes>,
}

impl Model for Segments {
    ghost use Rattle.std.specs.Prelude.{List, ℕ};

    ghost Value = { List (List ℕ) };

    ghost view = { λ segments. segments.files.items };
}

impl Segments {
    /// Its blocks, where segments have this size.
    pub(crate) fn joined(&self, size: u32) -> Joined<'_>
        requires { size ≤ 131072 }
        ensures segments { result.segments.now ≡ self.now }
        ensures size { result.size ≡ size }
    {
        Joined {
            segments: self.files.as_slice(),
            size,
        }
    }
}

/// The blocks of the segments that count, one segment after the other.
#[derive(Drop)]
pub(crate) struct Joined<'a> {
    segments: &'a [SharedBytes],
    size: u32,
    ghost small: { size ≤ 131072 },
}

impl Blocks for Joined<'_> {
    ghost use Rattle.page_check.specs.Told.{segments_joined};

    ghost bytes = { λ blocks. segments_joined blocks.size blocks.segments.now };

    fn count(&self) -> u32 {
        let mut count = 0u32;
        for segment in self.segments {
            let blocks = whole_blocks(segment.as_slice());
            count = count.saturating_add(blocks);
            if blocks != self.size {
                break;
            }
        }
        count
    }

    fn block(&self, block: u32) -> &[u8] {
        let mut behind = block;
        for segment in self.segments {
            let bytes = segment.as_slice();
            if behind < whole_blocks(bytes) {
                return block_bytes(bytes, behind);
            }
            behind -= self.size;
        }
        unreachable!()
    }
}

/// The name of a segment of a relation: behind the first one with a dot and its number.
pub(crate) fn segment_name(alloc: Global, name: &str, number: u32) -> Result<String, AllocError>
    ensures { IfOk result (λ text. string_bytes text ≡ segment_name name.now number) }
{
    if number == 0 {
        String::from_str(alloc, name)
    } else {
        format!(in alloc; "{name}.{number}")
    }
}

// The bytes of a segment of this relation, where it is there.
fn find_segment(
    alloc: Global,
    files: &[NamedFile],
    name: &str,
    number: u32,
) -> Result<Option<SharedBytes>, AllocError>
    ensures { IfOk result (λ found. found ≡ file_contents files.now
        (segment_name name.now number)) }
{
    let name = segment_name(alloc, name, number)?;
    match find_file(files, name.as_str()) {
        Some(contents) => Ok(Some(contents.share()?)),
        None => Ok(None),
    }
}

/// The segments of this relation, as long as they are there.
pub(crate) fn find_segments(
    alloc: Global,
    files: &[NamedFile],
    name: &str,
) -> Result<Segments, AllocError>
    ensures { IfOk result (λ segments. segments ≡ file_segments files.now name.now) }
{
    let mut found = Vec::new(alloc);
    for number in 0..MOST_SEGMENTS {
        let Some(segment) = find_segment(alloc, files, name, number)? else {
            break;
        };
        found.push(segment)?;
    }
    Ok(Segments { files: found })
}
