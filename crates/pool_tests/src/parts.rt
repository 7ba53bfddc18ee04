//! Pools of several parts, and pages of several relations.
ghost use Rattle.std.specs.Prelude.{◌≡◌, ◌<◌, ◌≤◌, None};

use crate::pages::{MINE, by_header, page_of, read_into};
use buf_pool::{Begun, Found, Look, Pool, Tag};
use page_check::{Page, World};
use std::alloc::AllocError;
use std::marker::Brand;
use std::ops::Range;
use std::process::Abort;
use std::sync::Wait;
use std::test::Fail;

/// Whether the pool has the page of this tag, which is pinned and let go again.
fn is_there<W: World, R: Wait>(rt: &R, pool: &Pool<W>, tag: Tag) -> bool {
    let seen = matches!(pool.peek(rt, tag), Look::Hit(_));
    match pool.lookup(rt, tag) {
        Found::Hit(pin) => {
            let right = pin.tag() == tag;
            pool.unpin(rt, pin);
            seen && right
        }
        Found::Busy(_) | Found::Absent => false,
    }
}

/// How many pages of a relation are there, of so many blocks.
fn count_there<W: World, R: Wait>(
    rt: &R,
    pool: &Pool<W>,
    relation: u32,
    blocks: Range<u32>,
) -> u32 {
    let mut there = 0u32;
    for block in blocks {
        let tag = by_header(relation, block);
        there = there.saturating_add(u32::from(is_there(rt, pool, tag)));
    }
    there
}

/// Reads as many neighbouring blocks of a relation as the pool has frames, and looks up each when it
/// was read: how many took a frame, and how many are there when all were read.
fn fill_with<W: World, R: Wait>(
    rt: &R,
    pool: &Pool<W>,
    relation: u32,
    frames: u32,
    page: &Page,
) -> (u32, u32)
    requires told { W.told ≡ None }
    requires range { 1 < W.handles }
    requires frames { frames ≤ 16384 }
{
    // Relation and first block are even together: the first part has the frame that is over.
    let first = relation % 2;
    let mut taken = 0u32;
    for block in first..first + frames {
        let tag = by_header(relation, block);
        let read = read_into(rt, pool, tag, page) && is_there(rt, pool, tag);
        taken = taken.saturating_add(u32::from(read));
    }
    (
        taken,
        count_there(rt, pool, relation, first..first + frames),
    )
}

/// Fills a pool with blocks of three relations in turn: all take a frame, and so many of the later
/// ones are left.
fn fill_in_turn<W: World, R: Abort + AllocGlobal + Wait>(
    rt: &R,
    frames: u32,
    left: u32,
) -> Result<(), Fail>
    requires told { W.told ≡ None }
    requires handles { W.handles ≡ 2 }
    requires frames { (16 ≤ frames) × (frames ≤ 16384) }
{
    let pool: Pool<W> = Pool::open(rt.alloc(), frames)?;
    let page = page_of(rt.alloc(), 7)?.ok_or("no sane page")?;
    for (relation, left) in [(0, frames), (1, left), (3, left)] {
        let filled = fill_with(rt, &pool, relation, frames, &page);
        assert_eq!(rt;
            filled,
            (frames, left),
            "{frames} frames, relation {relation}"
        );
    }
    Ok(())
}

// Two parts of 17 and 16 frames, and four of 25. Pages that were looked up before are replaced. Each
// part loses one of the new pages to its ring, once the hand of the clock has passed it.
#[test]
fn each_relation_has_all_frames_in_turn(rt: HostRuntime) -> Result<(), Fail> {
    for (frames, left) in [(33, 31), (100, 96)] {
        fill_in_turn::<Brand, _>(&rt, frames, left)?;
    }
    Ok(())
}

/// So many pages of relation 0, each of which was looked up, are still there after a read of 1,000
/// blocks of relation 1 that nobody looks up.
fn read_beside<W: World, R: Abort + AllocGlobal + Wait>(
    rt: &R,
    frames: u32,
    left: u32,
) -> Result<(), Fail>
    requires told { W.told ≡ None }
    requires handles { W.handles ≡ 2 }
    requires frames { (16 ≤ frames) × (frames ≤ 16384) }
{
    let pool: Pool<W> = Pool::open(rt.alloc(), frames)?;
    let page = page_of(rt.alloc(), 7)?.ok_or("no sane page")?;
    let _ = fill_with(rt, &pool, 0, frames, &page);
    for block in 0..1000 {
        let _ = read_into(rt, &pool, by_header(1, block), &page);
    }
    assert_eq!(rt;
        count_there(rt, &pool, 0, 0..frames),
        left,
        "{frames} frames"
    );
    Ok(())
}

// Each read takes the frame of the one before it in its part, and so each part loses one page.
#[test]
fn a_long_read_leaves_the_pages_that_were_looked_up(rt: HostRuntime) -> Result<(), Fail> {
    for (frames, parts) in [(16, 1), (33, 2), (128, 8)] {
        read_beside::<Brand, _>(&rt, frames, frames - parts)?;
    }
    Ok(())
}

/// Begins as many blocks of one part as it has frames, one more of that part, and one of another.
fn fill_one_part<W: World, R: Abort + AllocGlobal + Wait>(rt: &R) -> Result<(), AllocError>
    requires { W.handles ≡ 2 }
{
    let pool: Pool<W> = Pool::open(rt.alloc(), 32)?;
    for half in 0u32..15 {
        let block = 2 * half;
        let _ = pool.begin(rt, by_header(0, block), MINE);
    }
    let rows = [
        (30, Begun::Yes(15)),
        (32, Begun::NoRoom),
        (1, Begun::Yes(16)),
    ];
    for (block, wanted) in rows {
        let begun = pool.begin(rt, by_header(0, block), MINE);
        assert_eq!(rt; begun, wanted, "block {block}");
    }
    Ok(())
}

// Two parts of 16 frames.
#[test]
fn a_part_runs_out_by_itself(rt: HostRuntime) -> Result<(), AllocError> {
    fill_one_part::<Brand, _>(&rt)
}
