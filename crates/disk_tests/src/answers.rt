//! What reads of any disk answer.
ghost use Rattle.std.specs.Prelude.{◌≡◌, ◌<◌};

use aio_disk::Disk;
use page_check::Page;
use page_fixtures::files::read_pages;
use std::alloc::Global;
use std::process::Abort;
use std::test::Fail;

// The byte that fills the page.
fn filling(page: &Page) -> Option<u8> {
    let byte = page.bytes().first().copied()?;
    page.bytes()
        .iter()
        .all(|other| *other == byte)
        .then_some(byte)
}

/// The byte that fills each of the pages.
pub(crate) fn fillings(alloc: Global, pages: &[Page]) -> Result<Vec<u8>, Fail> {
    let mut bytes = Vec::new(alloc);
    for page in pages {
        bytes.push(filling(page).ok_or("a page of several bytes")?)?;
    }
    Ok(bytes)
}

/// What fills each page that a read of so many gives, or nothing where it fails.
pub(crate) fn read<D: Disk, R: Abort + AllocGlobal>(
    rt: &R,
    disk: &mut D,
    relation: u32,
    asked: (u32, usize),
) -> Result<Option<Vec<u8>>, Fail>
    requires { relation < D.relations disk.old }
    ensures { D.relations disk.new ≡ D.relations disk.old }
{
    let (first, count) = asked;
    assert!(rt; 0 < count && count <= 128);
    match read_pages(rt.alloc(), disk, relation, first, count)? {
        Some(pages) => Ok(Some(fillings(rt.alloc(), pages.as_slice())?)),
        None => Ok(None),
    }
}

/// Reads from a block on, how many pages they ask for, and what fills those that they give.
pub(crate) type Reads<'a> = &'a [((u32, usize), &'a [u8])];

/// Makes these reads of a relation, none of which fails, and compares what they give.
pub(crate) fn check_reads<D: Disk, R: Abort + AllocGlobal>(
    rt: &R,
    disk: &mut D,
    relation: u32,
    reads: Reads<'_>,
) -> Result<(), Fail>
    requires { relation < D.relations disk.old }
    ensures { D.relations disk.new ≡ D.relations disk.old }
{
    for (asked, wanted) in reads {
        let given = read(rt, disk, relation, *asked)?.ok_or("a fault")?;
        assert_eq!(rt; given.as_slice(), *wanted, "block {}", asked.0);
    }
    Ok(())
}
