//! As many reads as a pool has frames, and more pages than those.
ghost use Rattle.std.specs.Prelude.{◌≡◌, ◌≤◌, None};

use crate::pages::{LATER, MINE, SEVEN, by_header, pin_seven, visit};
use buf_pool::{Begun, Found, Look, Pool, Tag};
use page_check::World;
use std::alloc::{AllocError, Global};
use std::marker::Brand;
use std::process::Abort;
use std::sync::Wait;
use std::test::Fail;

/// Whether the pool says that the first I/O reads the block.
fn is_mine<W: World, R: Wait>(rt: &R, pool: &Pool<W>, tag: Tag) -> bool {
    match pool.lookup(rt, tag) {
        Found::Hit(pin) => {
            pool.unpin(rt, pin);
            false
        }
        Found::Busy(reference) => reference == MINE,
        Found::Absent => false,
    }
}

/// Begins as many neighbouring blocks as the pool has frames; how many numbers of frames they had.
fn begin_all<W: World, R: Wait>(
    rt: &R,
    alloc: Global,
    pool: &Pool<W>,
    frames: u32,
) -> Result<u32, AllocError>
    requires { W.handles ≡ 2 }
{
    let mut seen = Vec::from_elem(alloc, false, frames as usize)?;
    let mut taken = 0u32;
    for block in 0..frames {
        if let Begun::Yes(frame) = pool.begin(rt, by_header(0, block), MINE)
            && let Some(mark) = seen.get_mut(frame as usize)
            && !*mark
        {
            *mark = true;
            taken = taken.saturating_add(1);
        }
    }
    Ok(taken)
}

/// Begins as many neighbouring blocks as the pool has frames, one more, and one again.
fn fill_pool<W: World, R: Abort + AllocGlobal + Wait>(rt: &R, frames: u32) -> Result<(), AllocError>
    requires handles { W.handles ≡ 2 }
    requires frames { (16 ≤ frames) × (frames ≤ 16384) }
{
    let pool: Pool<W> = Pool::open(rt.alloc(), frames)?;
    assert_eq!(rt;
        begin_all(rt, rt.alloc(), &pool, frames)?,
        frames,
        "{frames} frames"
    );
    let further = by_header(0, frames);
    assert_eq!(rt;
        pool.begin(rt, further, LATER),
        Begun::NoRoom,
        "{frames} frames"
    );
    assert_eq!(rt;
        pool.begin(rt, SEVEN, LATER),
        Begun::Busy(MINE),
        "{frames} frames"
    );
    assert!(rt; is_mine(rt, &pool, SEVEN), "{frames} frames");
    Ok(())
}

#[test]
fn as_many_blocks_are_begun_as_there_are_frames(rt: HostRuntime) -> Result<(), AllocError> {
    // One part; one part with a frame more; parts of 17 and 16; 4 parts of 25; 8 and 128 parts of
    // 16; 4 parts, three of them of 26 and one of 25.
    for frames in [16, 17, 33, 100, 128, 2048, 103] {
        fill_pool::<Brand, _>(&rt, frames)?;
    }
    Ok(())
}

/// Reads forty blocks into the pool.
fn read_forty<W: World, R: Wait>(rt: &R, alloc: Global, pool: &Pool<W>) -> Result<(), AllocError>
    requires { (W.told ≡ None) × (W.handles ≡ 2) }
{
    for block in 10u8..50 {
        visit(rt, alloc, pool, block, MINE)?;
    }
    Ok(())
}

/// A page is there while it is pinned and forty others are read. Once its pin is gone and as many
/// reads are under way as the pool has frames, it is not.
fn pin_and_let_go<W: World, R: Abort + AllocGlobal + Wait>(rt: &R) -> Result<(), Fail>
    requires { (W.told ≡ None) × (W.handles ≡ 2) }
{
    let pool: Pool<W> = Pool::open(rt.alloc(), 16)?;
    visit(rt, rt.alloc(), &pool, 7, MINE)?;
    let pin = pin_seven(rt, &pool).ok_or("no pin")?;
    let read = read_forty(rt, rt.alloc(), &pool);
    let pinned = matches!(pool.peek(rt, SEVEN), Look::Hit(_));
    pool.unpin(rt, pin);
    read?;
    assert!(rt; pinned);
    for block in 100..116 {
        let _ = pool.begin(rt, by_header(0, block), MINE);
    }
    assert!(rt; !matches!(pool.peek(rt, SEVEN), Look::Hit(_)));
    Ok(())
}

#[test]
fn a_pinned_page_stays(rt: HostRuntime) -> Result<(), Fail> {
    pin_and_let_go::<Brand, _>(&rt)
}
