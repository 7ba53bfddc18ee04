//! Relations of real files.
ghost use Rattle.std.specs.Prelude.{◌≡◌, ◌≤◌, ◌<◌, length, map, IfOk};
ghost use Rattle.std.specs.Arc.{arc_value};

use crate::segments::{MOST_SEGMENTS, SEGMENT_SIZE, segment_name};
use crate::source::is_full;
use crate::source_relation::{count_relation, read_relation};
use crate::{DeviceFault, OpenFault};
use page_check::Page;
use std::alloc::{AllocError, Global};
use std::fs::{self, File, FileType};
use std::io;
use std::os::unix::fs::FileTypeExt;
use std::rt::Files;
use std::sync::Arc;

/// The segments of a relation, which are open for reading. Each but the last one had exactly
/// [`SEGMENT_SIZE`] blocks when it was opened. Disks share their files: a read names its place.
#[derive(Drop)]
pub(crate) struct FileRelation {
    segments: Vec<Arc<File, Global>>,
    ghost some: { 0 < length segments.items },
}

impl FileRelation {
    /// Opens the file of this name, and the next segment behind each one that is full, where it
    /// is there.
    pub(crate) fn open<R>(rt: &R, name: &str) -> Result<FileRelation, OpenFault>
    where
        R: Files<File = File> + AllocGlobal,
    {
        let Some(first) = open_segment(rt, name, 0)? else {
            return Err(OpenFault::Device);
        };
        let mut segments = Vec::new(rt.alloc());
        segments.push(first).map_err(|_| OpenFault::Memory)?;
        for number in 1..MOST_SEGMENTS {
            let last = segments.len() - 1;
            match open_next_segment(rt, &mut segments[last], name, number)? {
                Some(next) => segments.push(next).map_err(|_| OpenFault::Memory)?,
                None => break,
            }
        }
        Ok(FileRelation { segments })
    }

    /// The same relation once more, with the same open files.
    pub(crate) fn share(&self) -> Result<FileRelation, AllocError>
        ensures { IfOk result (λ shared.
            map arc_value shared.segments.items ≡ map arc_value self.now.segments.items) }
    {
        let mut segments = Vec::new(*self.segments.allocator());
        for segment in &self.segments {
            segments.push(Arc::try_clone(segment)?)?;
        }
        Ok(FileRelation { segments })
    }

    /// How many blocks it has.
    pub(crate) fn blocks(&mut self) -> Result<u32, DeviceFault> {
        count_relation(self.segments.as_mut_slice(), SEGMENT_SIZE)
    }

    /// Reads the pages of blocks of one segment, and says how many.
    pub(crate) fn read(&mut self, first: u32, pages: &mut [Page]) -> Result<usize, DeviceFault>
        requires some { 0 < length pages.old }
        ensures few { IfOk result (λ n. n ≤ length pages.new) }
    {
        let segments = self.segments.as_mut_slice();
        read_relation(segments, SEGMENT_SIZE, first, pages)
    }
}

// Whether what is opened can be read by blocks.
fn has_blocks(kind: FileType) -> bool {
    kind.is_file() || kind.is_block_device()
}

// Opens a regular file or a block device, and nothing else. What the name stands for is looked at
// before it is opened too, since to open a FIFO is to wait for its writer.
fn open_file<R: Files<File = File>>(rt: &R, name: &str) -> io::Result<File> {
    if !has_blocks(fs::metadata(rt, name)?.file_type()) {
        return Err(io::Error::from(io::ErrorKind::InvalidInput));
    }
    let file = File::open(rt, name)?;
    if !has_blocks(file.metadata()?.file_type()) {
        return Err(io::Error::from(io::ErrorKind::InvalidInput));
    }
    Ok(file)
}

// What a look at a name or an open of it gave, or nothing where nothing has the name. A name that is
// longer than the system's names are is of nothing, as that of a later segment may be.
fn some_if_found<T>(answer: io::Result<T>) -> Result<Option<T>, OpenFault> {
    match answer {
        Ok(value) => Ok(Some(value)),
        Err(error) => match error.kind() {
            io::ErrorKind::NotFound | io::ErrorKind::InvalidFilename => Ok(None),
            io::ErrorKind::OutOfMemory => Err(OpenFault::Memory),
            _ => Err(OpenFault::Device),
        },
    }
}

// Opens a segment of this relation, where it is there.
fn open_segment<R>(rt: &R, name: &str, number: u32) -> Result<Option<Arc<File, Global>>, OpenFault>
where
    R: Files<File = File> + AllocGlobal,
{
    let name = segment_name(rt.alloc(), name, number).map_err(|_| OpenFault::Memory)?;
    match some_if_found(open_file(rt, name.as_str()))? {
        Some(file) => match Arc::new(rt.alloc(), file) {
            Ok(shared) => Ok(Some(shared)),
            Err(_) => Err(OpenFault::Memory),
        },
        None => Ok(None),
    }
}

// Whether something stands under the name of a segment of this relation.
fn segment_exists<R>(rt: &R, name: &str, number: u32) -> Result<bool, OpenFault>
where
    R: Files<File = File> + AllocGlobal,
{
    let name = segment_name(rt.alloc(), name, number).map_err(|_| OpenFault::Memory)?;
    Ok(some_if_found(fs::metadata(rt, name.as_str()))?.is_some())
}

// Opens the segment behind the last one, where it is there and that is full. So a relation of one
// file is not measured.
fn open_next_segment<R>(
    rt: &R,
    last: &mut Arc<File, Global>,
    name: &str,
    number: u32,
) -> Result<Option<Arc<File, Global>>, OpenFault>
where
    R: Files<File = File> + AllocGlobal,
{
    if !segment_exists(rt, name, number)? {
        return Ok(None);
    }
    match is_full(last, SEGMENT_SIZE) {
        Ok(true) => open_segment(rt, name, number),
        Ok(false) => Ok(None),
        Err(_) => Err(OpenFault::Device),
    }
}
