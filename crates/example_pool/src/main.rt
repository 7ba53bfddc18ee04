//! The buffer pool by itself: a block is begun, ended with its page, looked up, pinned and let go.
#![tactic(auto)]

ghost use Rattle.std.specs.Prelude.{◌≡◌, ◌<◌, None};
ghost use Rattle.page_check.specs.Verdict.{IsValid};

use aio_word::WaitRef;
use buf_pool::{Found, Pin, Pool, Tag};
use page_check::{Page, Verdict, World, check};
use read_callbacks::Places;
use std::io;
use std::marker::Brand;
use std::sync::Wait;

/// The block that is followed. Its page is checked by its header alone.
const SEVEN: Tag = Tag {
    relation: 0,
    block: 7,
    checksums: false,
};

/// The I/O that reads each block: handle 0 in its first life.
const READ: WaitRef = WaitRef {
    handle: 0,
    generation: 0,
};

/// The read of a block that was begun is over, and this is its page: the pool takes a copy. It is
/// given no page that is not valid.
#[tactic(auto, using(crate::proofs::ValidByHeader::valid_by_header))]
fn finish<W: World, R: Wait>(rt: &R, pool: &Pool<W>, block: u32, page: &Page)
    requires { (W.told ≡ None) × IsValid page.now }
{
    let mut places = pool;
    places.finish(rt, 0, block, false, READ, Some(page));
}

/// Reads 40 other blocks into the pool's 16 frames, so that each frame without a pin is taken.
fn read_others<W: World, R: Wait>(rt: &R, pool: &Pool<W>, page: &Page)
    requires { (W.told ≡ None) × (0 < W.handles) × IsValid page.now }
{
    for block in 10..50 {
        let tag = Tag { block, ..SEVEN };
        let _ = pool.begin(rt, tag, READ);
        finish(rt, pool, block, page);
    }
}

/// What the pool has of block 7 while it is pinned.
fn show_pinned<W: World, R: Wait + Print>(
    rt: &R,
    pool: &Pool<W>,
    pin: &Pin<'_, W>,
    page: &Page,
) -> io::Result<()>
    requires { (W.told ≡ None) × (0 < W.handles) × IsValid page.now }
{
    println!(rt;
        "look up: block {}, {:?}",
        pin.tag().block,
        check(pin.page())
    )?;
    read_others(rt, pool, page);
    println!(rt; "pinned, 40 others later: {:?}", pool.peek(rt, SEVEN))
}

/// Looks block 7 up. A pin cannot be forgotten: a path without `unpin` is refused.
fn look_up<W: World, R: Wait + Print>(rt: &R, pool: &Pool<W>, page: &Page) -> io::Result<()>
    requires { (W.told ≡ None) × (0 < W.handles) × IsValid page.now }
{
    match pool.lookup(rt, SEVEN) {
        Found::Hit(pin) => {
            let shown = show_pinned(rt, pool, &pin, page);
            pool.unpin(rt, pin);
            shown
        }
        Found::Busy(reference) => println!(rt; "look up: busy with handle {}", reference.handle),
        Found::Absent => println!(rt; "look up: absent"),
    }
}

/// The way of block 7 through the pool, with one page that serves for all blocks.
fn run<W: World, R: Wait + Print + AllocGlobal>(rt: &R, page: &Page) -> io::Result<()>
    requires { (W.told ≡ None) × (0 < W.handles) × IsValid page.now }
{
    let pool: Pool<W> = Pool::open(rt.alloc(), 16)?;
    look_up(rt, &pool, page)?;
    println!(rt; "begin: {:?}", pool.begin(rt, SEVEN, READ))?;
    look_up(rt, &pool, page)?;
    finish(rt, &pool, SEVEN.block, page);
    println!(rt; "begin again: {:?}", pool.begin(rt, SEVEN, READ))?;
    look_up(rt, &pool, page)?;
    read_others(rt, &pool, page);
    println!(rt; "not pinned, 40 others later: {:?}", pool.peek(rt, SEVEN))
}

fn main(rt: HostRuntime) -> io::Result<()> {
    let page = Page::zeroed(rt.alloc())?;
    if check(&page) == Verdict::Bad {
        return println!(rt; "not a valid page");
    }
    run::<Brand, HostRuntime>(&rt, &page)
}
