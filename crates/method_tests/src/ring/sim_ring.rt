//! Simulated rings that complete in a given order.
ghost use Rattle.std.specs.Prelude.{◌≡◌, ◌<◌, ◌≤◌, [], IfOk, length};
ghost use Rattle.method_tests.specs.PendingReads.{AreReadInto};

use aio_disk::{Disk, SteadyDisk, SteadyShelf};
use fault_injection::MemShelf;
use method_ring::{Ring, SimRing};
use page_check::Page;
use std::alloc::{AllocError, Global};
use std::process::Abort;
use std::test::Fail;

/// A shelf with a file `f` of so many pages of zeros.
pub(super) fn shelf_of<R: Abort + AllocGlobal>(rt: &R, blocks: usize) -> Result<SteadyShelf, Fail>
    requires { blocks ≤ 100 }
{
    let alloc = rt.alloc();
    let bytes = Vec::from_elem(alloc, 0u8, 8192 * blocks)?;
    let files = vec![in alloc; (String::from_str(alloc, "f")?, bytes)]?;
    assert!(rt; aio_disk::have_distinct_names(files.as_slice()));
    Ok(MemShelf::steady(alloc, files, 10)?)
}

/// A disk for the file.
pub(super) fn disk_of<R: Abort + AllocGlobal>(
    rt: &R,
    shelf: &mut SteadyShelf,
) -> Result<SteadyDisk, Fail>
    ensures { IfOk result (λ disk. length disk.told.relations ≡ 1) }
{
    let alloc = rt.alloc();
    let names = vec![in alloc; String::from_str(alloc, "f")?]?;
    Ok(shelf.open(names.as_slice()).ok().ok_or("no disk")?)
}

/// The blocks that were read, in their order.
pub(super) fn blocks_read(alloc: Global, shelf: &SteadyShelf) -> Result<Vec<u32>, AllocError> {
    let mut blocks = Vec::new(alloc);
    for entry in shelf.log() {
        blocks.push(entry.first)?;
    }
    Ok(blocks)
}

/// Picks a read and fills it: its number. None where nothing is pending, and where the read fails.
fn complete_next<G: Ring>(ring: &mut G, pages: &mut [Page]) -> Option<u32>
    requires pages { AreReadInto (length pages.old) (G.pending ring.old) }
    ensures length { length pages.new ≡ length pages.old }
    ensures pages { AreReadInto (length pages.old) (G.pending ring.new) }
{
    let user = ring.pick()?;
    match ring.fill(user, pages) {
        Ok(_) => Some(user),
        Err(_) => None,
    }
}

/// The disk of a ring in which nothing is pending.
fn disk_back<D: Disk>(mut ring: SimRing<D>) -> Option<D> {
    match ring.pick() {
        Some(_) => None,
        None => Some(ring.into_disk()),
    }
}

/// Submits so many reads of one block each: number `i` reads block `i`.
fn submit_all<G: Ring>(ring: &mut G, count: u32)
    requires few { count ≤ 8 }
    requires none { G.pending ring.old ≡ [] }
    requires relation { 0 < G.relations ring.old }
    ensures { AreReadInto 1 (G.pending ring.new) }
{
    for number in 0..count {
        ring.submit(number, 0, number, 1);
    }
}

/// Reads so many blocks, each under its own number, through a ring of this order: the numbers as
/// they are picked, and the disk, once nothing is pending.
fn picks<D: Disk>(
    alloc: Global,
    disk: D,
    order: Vec<u32>,
    count: u32,
) -> Result<Option<(Vec<u32>, D)>, AllocError>
    requires few { count ≤ 8 }
    requires relation { 0 < D.relations disk }
{
    let Ok(mut ring) = SimRing::open(alloc, disk, order) else {
        return Ok(None);
    };
    submit_all(&mut ring, count);
    let mut page = [Page::zeroed(alloc)?];
    let mut picked = Vec::new(alloc);
    for _ in 0..count {
        let Some(user) = complete_next(&mut ring, &mut page) else {
            return Ok(None);
        };
        picked.push(user)?;
    }
    match disk_back(ring) {
        Some(disk) => Ok(Some((picked, disk))),
        None => Ok(None),
    }
}

/// The numbers that a ring of this order picks of so many reads, and the blocks that the disk has
/// read, each in their order. None unless each read is picked and filled, and nothing is pending
/// then.
pub(super) fn picks_and_reads<R: Abort + AllocGlobal>(
    rt: &R,
    order: Vec<u32>,
    count: u32,
) -> Result<Option<(Vec<u32>, Vec<u32>)>, Fail>
    requires { count ≤ 8 }
{
    let alloc = rt.alloc();
    let mut shelf = shelf_of(rt, 8)?;
    let disk = disk_of(rt, &mut shelf)?;
    let Some((picked, disk)) = picks(alloc, disk, order, count)? else {
        return Ok(None);
    };
    shelf.take_back(disk);
    Ok(Some((picked, blocks_read(alloc, &shelf)?)))
}

/// Whether a ring of this order picks and fills these three, and has then nothing pending.
fn picks_three<R: Abort + AllocGlobal>(
    rt: &R,
    order: [u32; 3],
    wanted: [u32; 3],
) -> Result<(), Fail> {
    let order = Vec::from_array(rt.alloc(), order)?;
    let (picked, read) = picks_and_reads(rt, order, 3)?.ok_or("three picks, and then none")?;
    assert_eq!(rt; picked.as_slice(), wanted.as_slice());
    assert_eq!(rt; read.as_slice(), wanted.as_slice());
    Ok(())
}

#[test]
fn order_2_0_0_picks_2_0_1_and_then_none(rt: HostRuntime) -> Result<(), Fail> {
    picks_three(&rt, [2, 0, 0], [2, 0, 1])
}

#[test]
fn each_order_of_three_reads_is_picked(rt: HostRuntime) -> Result<(), Fail> {
    picks_three(&rt, [0, 0, 0], [0, 1, 2])?;
    picks_three(&rt, [0, 1, 0], [0, 2, 1])?;
    picks_three(&rt, [1, 0, 0], [1, 0, 2])?;
    picks_three(&rt, [1, 1, 0], [1, 2, 0])?;
    picks_three(&rt, [2, 0, 0], [2, 0, 1])?;
    picks_three(&rt, [2, 1, 0], [2, 1, 0])
}
