//! Look-ups that a frame refuses, since its page is written meanwhile.
ghost use Rattle.std.specs.Prelude.{◌≡◌, ◌<◌, None};

use crate::pages::{MINE, by_header, end_read, page_of};
use buf_pool::{Begun, Found, Pool};
use page_check::{Page, World};
use std::marker::Brand;
use std::process::Abort;
use std::sync::Wait;
use std::test::Fail;
use std::thread;
use std::thread::Threads;

/// How often each thread looks a block up.
const LOOK_UPS: u32 = 40_000;

/// Looks 40 blocks up in turn, each twice. Where a block is not there its reading is ended, even if
/// another thread began it, and may be ending it.
fn look_up_and_end<W: World, R: Wait>(rt: &R, pool: &Pool<W>, page: &Page)
    requires told { W.told ≡ None }
    requires range { 1 < W.handles }
{
    for round in 0..LOOK_UPS {
        let tag = by_header(0, round / 2 % 40);
        match pool.lookup(rt, tag) {
            Found::Hit(pin) => pool.unpin(rt, pin),
            Found::Busy(_) | Found::Absent => {
                let _ = pool.begin(rt, tag, MINE);
                end_read(rt, pool, tag, MINE, Some(page));
            }
        }
    }
}

/// Each of 16 reads finds a frame, once two threads have looked up and ended.
fn begin_behind_two<W: World + Send + Sync, R: Abort + AllocGlobal + Threads + Wait + Sync>(
    rt: &R,
) -> Result<(), Fail>
    requires { (W.told ≡ None) × (W.handles ≡ 2) }
{
    let pool: Pool<W> = Pool::open(rt.alloc(), 16)?;
    let page = page_of(rt.alloc(), 7)?.ok_or("no sane page")?;
    let shared = &pool;
    let lent = &page;
    thread::join(
        rt,
        move ||
            requires { (W.told ≡ None) × (W.handles ≡ 2) }
        { look_up_and_end(rt, shared, lent) },
        move ||
            requires { (W.told ≡ None) × (W.handles ≡ 2) }
        { look_up_and_end(rt, shared, lent) },
    );
    for block in 0..16 {
        let answer = pool.begin(rt, by_header(1, block), MINE);
        assert!(rt; matches!(answer, Begun::Yes(_)), "block {block}");
    }
    Ok(())
}

// A pin that stayed would keep its frame for good.
#[test]
fn a_look_up_that_is_refused_leaves_no_pin(rt: HostRuntime) -> Result<(), Fail> {
    begin_behind_two::<Brand, _>(&rt)
}
