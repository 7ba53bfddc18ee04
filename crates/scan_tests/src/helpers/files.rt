//! Shelves of one file, the lines of its pages and the reads that were made.
use fault_injection::MemShelf;
use page_fixtures::files::{Faults, STEADY, one_file, shelf_of};
use page_fixtures::pages::numbered_pages;
use std::alloc::{AllocError, Global};
use std::test::Fail;

/// A shelf of a file `f` of so many empty pages, of which one may be bad, and of these reads that
/// fail: (disk, read).
pub(crate) fn pages_shelf(
    alloc: Global,
    blocks: u32,
    bad: Option<u32>,
    fail_reads: &[(u32, u64)],
) -> Result<MemShelf, Fail> {
    let files = one_file(alloc, "f", numbered_pages(alloc, blocks, bad)?)?;
    let faults = Faults {
        reads: fail_reads,
        ..STEADY
    };
    shelf_of(alloc, files, faults)
}

/// The lines of so many empty pages of relation 0.
pub(crate) fn lines(alloc: Global, first: u32, count: u32) -> Result<Vec<u8>, Fail> {
    let mut text = String::new(alloc);
    for block in first..first.saturating_add(count) {
        writeln!(
            text,
            "page 0 {block} lower 24 upper 8192 special 8192 items 0"
        )?;
    }
    Ok(text.into_bytes())
}

/// The first blocks of the reads from this block on, disk by disk.
pub(crate) fn first_blocks_read(
    alloc: Global,
    shelf: &MemShelf,
    from: u32,
) -> Result<Vec<u32>, AllocError> {
    let mut blocks = Vec::new(alloc);
    for entry in shelf.log() {
        if entry.first >= from {
            blocks.push(entry.first)?;
        }
    }
    Ok(blocks)
}
