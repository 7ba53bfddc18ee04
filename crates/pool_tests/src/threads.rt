//! Two threads over one pool.
ghost use Rattle.std.specs.Prelude.{◌≡◌, ◌<◌, None};

use crate::pages::{SEVEN, Shown, by_header, page_of, pin_seven, read_into, shows, visit};
use aio_word::WaitRef;
use buf_pool::{Look, Pool};
use page_check::{Page, World};
use std::alloc::{AllocError, Global};
use std::marker::Brand;
use std::process::Abort;
use std::sync::Wait;
use std::test::Fail;
use std::thread;
use std::thread::Threads;

/// Visits 40 blocks in turn, each twice; whether some pin was had, and each showed its block.
fn visit_all<W: World, R: Wait>(
    rt: &R,
    alloc: Global,
    pool: &Pool<W>,
    handle: u32,
) -> Result<bool, AllocError>
    requires told { W.told ≡ None }
    requires range { handle < W.handles }
{
    let reference = WaitRef {
        handle,
        generation: 0,
    };
    let mut some = false;
    for round in 0u32..4000 {
        let block = (round / 2 % 40) as u8;
        match visit(rt, alloc, pool, block, reference)? {
            Shown::Right => some = true,
            Shown::Wrong => return Ok(false),
            Shown::Nothing => {}
        }
    }
    Ok(some)
}

/// Two threads have the pages that they ask for, and the last block is still there.
fn visit_by_two<W: World + Send + Sync, R: Abort + AllocGlobal + Threads + Wait + Sync>(
    rt: &R,
) -> Result<(), AllocError>
    requires { (W.told ≡ None) × (W.handles ≡ 2) }
{
    let alloc = rt.alloc();
    let pool: Pool<W> = Pool::open(alloc, 16)?;
    let shared = &pool;
    let (one, other) = thread::join(
        rt,
        move || -> Result<bool, AllocError>
            requires { (W.told ≡ None) × (W.handles ≡ 2) }
        { visit_all(rt, alloc, shared, 0) },
        move || -> Result<bool, AllocError>
            requires { (W.told ≡ None) × (W.handles ≡ 2) }
        { visit_all(rt, alloc, shared, 1) },
    );
    let last = by_header(0, 39);
    assert!(rt; one? && other?);
    assert!(rt; matches!(pool.peek(rt, last), Look::Hit(_)));
    Ok(())
}

#[test]
fn two_threads_pin_the_pages_that_they_asked_for(rt: HostRuntime) -> Result<(), AllocError> {
    visit_by_two::<Brand, _>(&rt)
}

/// Reads 1,000 other blocks into the pool; whether each found a frame.
fn read_others<W: World, R: Wait>(rt: &R, pool: &Pool<W>, page: &Page) -> bool
    requires told { (W.told ≡ None) × (W.handles ≡ 2) }
{
    for block in 1000..2000 {
        if !read_into(rt, pool, by_header(0, block), page) {
            return false;
        }
    }
    true
}

/// Looks block 7 up 1,000 times; whether each pin showed it.
fn look_at_seven<W: World, R: Wait>(rt: &R, pool: &Pool<W>) -> bool {
    for _ in 0u32..1000 {
        let Some(pin) = pin_seven(rt, pool) else {
            return false;
        };
        let right = shows(&pin, SEVEN);
        pool.unpin(rt, pin);
        if !right {
            return false;
        }
    }
    true
}

/// A pinned page stands and is found while two threads read others and look it up.
fn pin_while_others_are_read<
    W: World + Send + Sync,
    R: Abort + AllocGlobal + Threads + Wait + Sync,
>(rt: &R) -> Result<(), Fail>
    requires { (W.told ≡ None) × (W.handles ≡ 2) }
{
    let pool: Pool<W> = Pool::open(rt.alloc(), 16)?;
    let page = page_of(rt.alloc(), 7)?.ok_or("no sane page")?;
    assert!(rt; read_into(rt, &pool, SEVEN, &page));
    let pin = pin_seven(rt, &pool).ok_or("no pin")?;
    let before = pool.peek(rt, SEVEN);
    let shared = &pool;
    let lent = &page;
    let (read, found) = thread::join(
        rt,
        move || -> bool
            requires { (W.told ≡ None) × (W.handles ≡ 2) }
        { read_others(rt, shared, lent) },
        move || -> bool { look_at_seven(rt, shared) },
    );
    let same = shows(&pin, SEVEN) && pool.peek(rt, SEVEN) == before;
    pool.unpin(rt, pin);
    assert!(rt; read && found && same && matches!(before, Look::Hit(_)));
    Ok(())
}

#[test]
fn a_pinned_page_stands_while_others_are_read(rt: HostRuntime) -> Result<(), Fail> {
    pin_while_others_are_read::<Brand, _>(&rt)
}
