//! Relation files in memory, and the shelves and disks over them.
ghost use Rattle.std.specs.Prelude.{◌≡◌, ◌≤◌, ◌<◌, IfOk, length};

use aio_disk::{Disk, ReadEntry, Shelf, SteadyShelf, have_distinct_names};
use fault_injection::{MemShelf, Script};
use page_check::Page;
use std::alloc::{AllocError, Global};
use std::test::Fail;

/// Files by their names.
pub type Files = Vec<(String, Vec<u8>)>;

/// So many reads are logged by each shelf.
const LOG_ROOM: usize = 300;

/// The segment size of a server with the default build.
const SEGMENT: u32 = 131072;

/// The names of relations.
pub fn names_of(alloc: Global, words: &[&str]) -> Result<Vec<String>, AllocError>
    ensures { IfOk result (λ names. length names.items ≡ length words.now) }
{
    let mut names = Vec::new(alloc);
    for word in words {
        names.push(String::from_str(alloc, word)?)?;
    }
    Ok(names)
}

/// Pages of zeros, to be read into.
pub fn zeroed_pages(alloc: Global, count: usize) -> Result<Vec<Page>, AllocError>
    ensures { IfOk result (λ pages. length pages.items ≡ count) }
{
    let mut pages = Vec::new(alloc);
    for _ in 0..count {
        pages.push(Page::zeros())?;
    }
    Ok(pages)
}

/// A file of this name.
pub fn one_file(alloc: Global, name: &str, bytes: Vec<u8>) -> Result<Files, AllocError> {
    let mut files = Vec::new(alloc);
    files.push((String::from_str(alloc, name)?, bytes))?;
    Ok(files)
}

/// Which opens, length calls and reads fail, and what the reads of the first disk give at most.
#[derive(Clone, Copy)]
pub struct Faults<'a> {
    pub opens: &'a [u64],
    pub lengths: &'a [(u32, u64)],
    pub reads: &'a [(u32, u64)],
    pub shorts: &'a [u32],
}

/// Nothing fails.
pub const STEADY: Faults<'static> = Faults {
    opens: &[],
    lengths: &[],
    reads: &[],
    shorts: &[],
};

// The script of these faults.
fn script_of(alloc: Global, faults: Faults<'_>) -> Result<Script, AllocError> {
    let mut shorts = Vec::new(alloc);
    if !faults.shorts.is_empty() {
        shorts.push((0, Vec::from_slice(alloc, faults.shorts)?))?;
    }
    Ok(Script {
        fail_opens: Vec::from_slice(alloc, faults.opens)?,
        fail_lengths: Vec::from_slice(alloc, faults.lengths)?,
        fail_reads: Vec::from_slice(alloc, faults.reads)?,
        shorts,
    })
}

/// A shelf of these files, whose relations have segments of so many blocks, 1 to 131072.
pub fn segmented_shelf(
    alloc: Global,
    files: Files,
    segment: u32,
    faults: Faults<'_>,
) -> Result<MemShelf, Fail> {
    let script = script_of(alloc, faults)?;
    if !have_distinct_names(files.as_slice()) {
        return Err(Fail::from("a name is given twice"));
    }
    if !script.has_positive_shorts() {
        return Err(Fail::from("a read gives no page"));
    }
    if segment < 1 || segment > SEGMENT {
        return Err(Fail::from("no size of a segment"));
    }
    Ok(MemShelf::make_segmented(alloc, files, segment, script, LOG_ROOM)?)
}

/// A shelf of these files.
pub fn shelf_of(alloc: Global, files: Files, faults: Faults<'_>) -> Result<MemShelf, Fail> {
    segmented_shelf(alloc, files, SEGMENT, faults)
}

/// A shelf of these files, whose disks do not fail.
pub fn steady_shelf(alloc: Global, files: Files) -> Result<SteadyShelf, Fail> {
    if !have_distinct_names(files.as_slice()) {
        return Err(Fail::from("a name is given twice"));
    }
    Ok(MemShelf::steady(alloc, files, LOG_ROOM)?)
}

/// A disk of the shelf for relations of these names.
pub fn open_disk<S: Shelf>(alloc: Global, shelf: &mut S, words: &[&str]) -> Result<S::Disk, Fail>
    ensures { IfOk result (λ disk. S.Disk.relations disk ≡ length words.now) }
{
    let names = names_of(alloc, words)?;
    Ok(shelf.open(names.as_slice()).ok().ok_or("no disk")?)
}

/// The pages that a read of so many gives, 1 to 128, or nothing where it fails.
pub fn read_pages<D: Disk>(
    alloc: Global,
    disk: &mut D,
    relation: u32,
    first: u32,
    count: usize,
) -> Result<Option<Vec<Page>>, AllocError>
    requires relation { relation < D.relations disk.old }
    requires some { 0 < count }
    requires few { count ≤ 128 }
    ensures { D.relations disk.new ≡ D.relations disk.old }
{
    let mut pages = zeroed_pages(alloc, count)?;
    let Ok(given) = disk.read(relation, first, pages.as_mut_slice()) else {
        return Ok(None);
    };
    pages.truncate(given as usize);
    Ok(Some(pages))
}

/// The blocks of a relation that were read, in their order, each as often as it was.
pub fn blocks_read(
    alloc: Global,
    log: &[ReadEntry],
    relation: u32,
) -> Result<Vec<u32>, AllocError> {
    let mut blocks = Vec::new(alloc);
    for entry in log {
        if entry.relation == relation {
            for place in 0..entry.answered.unwrap_or(0) {
                blocks.push(entry.first.saturating_add(place))?;
            }
        }
    }
    Ok(blocks)
}
