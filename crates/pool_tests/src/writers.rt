//! A read into a frame whose page is still shown by a pin.
ghost use Rattle.std.specs.Prelude.{◌≡◌, ◌<◌, None};

use crate::pages::{MINE, SEVEN, by_header, end_read, page_of, pin_seven, read_into, shows};
use buf_pool::{Begun, Look, Pin, Pool, Tag};
use page_check::{Page, World};
use std::marker::Brand;
use std::process::Abort;
use std::sync::Wait;
use std::test::Fail;

/// The block for which the frame of block 7 is taken.
const NEXT: Tag = Tag {
    relation: 0,
    block: 23,
    checksums: false,
};

/// Begins 16 blocks, the last of them `NEXT`, which takes the one frame that has a page. The index
/// has no pin on that page, and a pin shows it: the read into that frame is refused, and one after
/// it is not.
fn write_under_a_pin<W: World, R: Abort + Wait>(
    rt: &R,
    pool: &Pool<W>,
    pin: Pin<'_, W>,
    page: &Page,
)
    requires told { W.told ≡ None }
    requires range { 1 < W.handles }
{
    let before = pool.peek(rt, SEVEN);
    for block in 8..NEXT.block {
        let _ = pool.begin(rt, by_header(0, block), MINE);
    }
    let taken = pool.begin(rt, NEXT, MINE);
    end_read(rt, pool, NEXT, MINE, Some(page));
    let while_pinned = pool.peek(rt, NEXT);
    let shown = shows(&pin, SEVEN);
    pool.unpin(rt, pin);
    let _ = read_into(rt, pool, NEXT, page);
    let Look::Hit(frame) = before else {
        panic!(rt; "block 7 has a frame")
    };
    assert_eq!(rt; taken, Begun::Yes(frame));
    assert_eq!(rt; while_pinned, Look::Absent);
    assert!(rt; shown);
    assert_eq!(rt; pool.peek(rt, NEXT), Look::Hit(frame));
}

/// Reads block 7 into two pools and pins it in both. The pin of the second is spent at the first,
/// whose index then has no pin on the page.
fn refuse_a_writer<W: World, R: Abort + AllocGlobal + Wait>(rt: &R) -> Result<(), Fail>
    requires { (W.told ≡ None) × (W.handles ≡ 2) }
{
    let pool: Pool<W> = Pool::open(rt.alloc(), 16)?;
    let second: Pool<W> = Pool::open(rt.alloc(), 16)?;
    let page = page_of(rt.alloc(), 7)?.ok_or("no sane page")?;
    let _ = read_into(rt, &pool, SEVEN, &page);
    let _ = read_into(rt, &second, SEVEN, &page);
    let stray = pin_seven(rt, &second).ok_or("no pin")?;
    let Some(pin) = pin_seven(rt, &pool) else {
        second.unpin(rt, stray);
        return Err(Fail::from("no pin"));
    };
    pool.unpin(rt, stray);
    write_under_a_pin(rt, &pool, pin, &page);
    Ok(())
}

#[test]
fn a_frame_that_is_read_refuses_a_writer(rt: HostRuntime) -> Result<(), Fail> {
    refuse_a_writer::<Brand, _>(&rt)
}
