//! An index of 16 frames, filled and emptied.
ghost use Rattle.std.specs.Prelude.{◌≡◌, ◌+◌, ◌^◌, ◌<◌};

use crate::pages::by_header;
use aio_word::WaitRef;
use buf_pool::{Begun, Look, PoolIndex, Tag};
use page_check::World;
use std::alloc::AllocError;
use std::marker::Brand;
use std::process::Abort;

const FIRST: Tag = Tag {
    relation: 0,
    block: 0,
    checksums: false,
};

fn reference(handle: u32) -> WaitRef
    ensures { result.handle ≡ handle }
{
    WaitRef {
        handle,
        generation: 0,
    }
}

/// Begins blocks of relation 0: whether each answer is Yes.
fn begins_all<W: World>(index: &mut PoolIndex<W>, first: u32, count: u32) -> bool
    requires range { 0 < W.handles }
    requires blocks { first + count < 2 ^ 32 }
{
    for block in first..first + count {
        let tag = by_header(0, block);
        if !matches!(index.begin(tag, reference(0)), Begun::Yes(_)) {
            return false;
        }
    }
    true
}

/// One pin more; whether there was a valid entry.
fn pins_one<W: World>(index: &mut PoolIndex<W>, frame: u32) -> bool {
    match index.pins(frame) {
        Some(pins) if pins < u32::MAX => {
            index.pin(frame);
            true
        }
        _ => false,
    }
}

/// One pin less; whether there was one.
fn unpins_one<W: World>(index: &mut PoolIndex<W>, frame: u32) -> bool {
    match index.pins(frame) {
        Some(pins) if pins > 0 => {
            index.unpin(frame);
            true
        }
        _ => false,
    }
}

/// What an entry in progress answers to its own reference and to another; then what the index
/// answers while its frame is pinned and the others await pages, and after.
fn first_page<W: World, R: Abort + AllocGlobal>(rt: &R) -> Result<(), AllocError>
    requires { W.handles ≡ 2 }
{
    let mut index: PoolIndex<W> = PoolIndex::open(rt.alloc(), 16)?;
    let Begun::Yes(frame) = index.begin(FIRST, reference(0)) else {
        panic!(rt; "a frame is free")
    };
    assert_eq!(rt; index.begin(FIRST, reference(1)), Begun::Busy(reference(0)));
    assert_eq!(rt; index.end(FIRST, reference(1), true), None);
    assert_eq!(rt; index.frame(FIRST, reference(1)), None);
    assert_eq!(rt; index.frame(FIRST, reference(0)), Some(frame));
    assert_eq!(rt; index.end(FIRST, reference(0), true), Some(frame));
    assert_eq!(rt; index.look(FIRST), Look::Hit(frame));
    let further = by_header(1, 0);
    assert!(rt; pins_one(&mut index, frame));
    assert!(rt; begins_all(&mut index, 1, 15));
    assert_eq!(rt; index.begin(further, reference(0)), Begun::NoRoom);
    assert!(rt; unpins_one(&mut index, frame));
    assert_eq!(rt; index.begin(further, reference(0)), Begun::Yes(frame));
    assert_eq!(rt; index.look(FIRST), Look::Absent);
    Ok(())
}

#[test]
fn index_of_16_frames(rt: HostRuntime) -> Result<(), AllocError> {
    first_page::<Brand, _>(&rt)
}

/// Begins 16 blocks, another one, and the first again.
fn begin_too_many<W: World, R: Abort + AllocGlobal>(rt: &R) -> Result<(), AllocError>
    requires { W.handles ≡ 2 }
{
    let mut index: PoolIndex<W> = PoolIndex::open(rt.alloc(), 16)?;
    assert!(rt; begins_all(&mut index, 0, 16));
    let further = by_header(0, 16);
    assert_eq!(rt; index.begin(further, reference(1)), Begun::NoRoom);
    assert_eq!(rt; index.begin(FIRST, reference(1)), Begun::Busy(reference(0)));
    Ok(())
}

#[test]
fn all_in_progress(rt: HostRuntime) -> Result<(), AllocError> {
    begin_too_many::<Brand, _>(&rt)
}

/// Reads every block of a relation of 40,000 through 16 frames, dropping each third page.
fn read_through<W: World, R: Abort + AllocGlobal>(rt: &R) -> Result<(), AllocError>
    requires { W.handles ≡ 2 }
{
    let mut index: PoolIndex<W> = PoolIndex::open(rt.alloc(), 16)?;
    for block in 0..40_000 {
        let tag = by_header(3, block);
        let Begun::Yes(frame) = index.begin(tag, reference(1)) else {
            panic!(rt; "block {block} has no frame")
        };
        let kept = block % 3 != 0;
        let wanted = if kept { Look::Hit(frame) } else { Look::Absent };
        assert_eq!(rt;
            index.end(tag, reference(1), kept),
            Some(frame),
            "block {block}"
        );
        assert_eq!(rt; index.look(tag), wanted, "block {block}");
    }
    Ok(())
}

#[test]
fn blocks_replace_each_other(rt: HostRuntime) -> Result<(), AllocError> {
    read_through::<Brand, _>(&rt)
}

/// Reads blocks of relation 0 one after the other by the handle; whether each found a frame.
fn reads_all<W: World>(index: &mut PoolIndex<W>, handle: u32, first: u32, count: u32) -> bool
    requires range { handle < W.handles }
    requires blocks { first + count < 2 ^ 32 }
{
    for block in first..first + count {
        let tag = by_header(0, block);
        let begun = matches!(index.begin(tag, reference(handle)), Begun::Yes(_));
        if !begun || index.end(tag, reference(handle), true).is_none() {
            return false;
        }
    }
    true
}

/// Pins the page of a block and lets it go; whether it was there.
fn uses<W: World>(index: &mut PoolIndex<W>, block: u32) -> bool {
    match index.look(by_header(0, block)) {
        Look::Hit(frame) => pins_one(index, frame) && unpins_one(index, frame),
        Look::Busy(_) | Look::Absent => false,
    }
}

/// Whether the page of a block is there.
fn has<W: World>(index: &PoolIndex<W>, block: u32) -> bool {
    matches!(index.look(by_header(0, block)), Look::Hit(_))
}

/// Whether the page of each block is there, as the rows have it.
fn check_pages<W: World, R: Abort>(rt: &R, index: &PoolIndex<W>, rows: &[(u32, bool)]) {
    for &(block, there) in rows {
        assert_eq!(rt; has(index, block), there, "block {block}");
    }
}

/// Reads 16 blocks and two more, uses these two and block 2, and reads another one. The frames of the
/// ring are in use, and the hand of the clock has passed blocks 0 and 1. It takes block 3, since
/// block 2 was used.
fn replace_three<W: World, R: Abort + AllocGlobal>(rt: &R) -> Result<(), AllocError>
    requires { W.handles ≡ 2 }
{
    let mut index: PoolIndex<W> = PoolIndex::open(rt.alloc(), 16)?;
    assert!(rt; reads_all(&mut index, 0, 0, 18));
    for block in [16, 17, 2] {
        assert!(rt; uses(&mut index, block), "block {block}");
    }
    assert!(rt; reads_all(&mut index, 0, 18, 1));
    check_pages(rt, &index, &[(0, false), (1, false), (2, true), (3, false)]);
    Ok(())
}

#[test]
fn a_page_in_use_is_not_the_next_to_go(rt: HostRuntime) -> Result<(), AllocError> {
    replace_three::<Brand, _>(&rt)
}

/// Reads 16 blocks and four more. Blocks 16 and 17 take the frames of 0 and 1, and these are the
/// ring. Nobody looks them up, so 18 and 19 take their frames, and all others stay.
fn replace_by_ring<W: World, R: Abort + AllocGlobal>(rt: &R) -> Result<(), AllocError>
    requires { W.handles ≡ 2 }
{
    let mut index: PoolIndex<W> = PoolIndex::open(rt.alloc(), 16)?;
    assert!(rt; reads_all(&mut index, 0, 0, 20));
    let rows = [
        (0, false),
        (1, false),
        (2, true),
        (17, false),
        (18, true),
        (19, true),
    ];
    check_pages(rt, &index, &rows);
    Ok(())
}

#[test]
fn a_page_that_nobody_looks_up_is_the_next_to_go(rt: HostRuntime) -> Result<(), AllocError> {
    replace_by_ring::<Brand, _>(&rt)
}

/// Reads 16 blocks, and then two by a handle of each of two backends. These take the frames of
/// blocks 0 to 3. Another read of each backend takes the frame of its own first page.
fn replace_by_two_rings<W: World, R: Abort + AllocGlobal>(rt: &R) -> Result<(), AllocError>
    requires { W.handles ≡ 32 }
{
    let mut index: PoolIndex<W> = PoolIndex::open(rt.alloc(), 16)?;
    assert!(rt; reads_all(&mut index, 0, 0, 18));
    assert!(rt; reads_all(&mut index, 16, 18, 2));
    check_pages(
        rt,
        &index,
        &[(1, false), (3, false), (4, true), (16, true), (18, true)],
    );
    assert!(rt; reads_all(&mut index, 15, 20, 1));
    assert!(rt; reads_all(&mut index, 31, 21, 1));
    check_pages(
        rt,
        &index,
        &[(4, true), (16, false), (17, true), (18, false), (19, true)],
    );
    Ok(())
}

#[test]
fn each_backend_takes_the_frames_of_its_own_ring(rt: HostRuntime) -> Result<(), AllocError> {
    replace_by_two_rings::<Brand, _>(&rt)
}
