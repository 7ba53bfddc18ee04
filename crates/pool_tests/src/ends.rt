//! Ends of reads.
ghost use Rattle.std.specs.Prelude.{◌≡◌, None};

use crate::pages::{LATER, MINE, SEVEN, end_read, page_of};
use aio_word::WaitRef;
use buf_pool::{Begun, Look, Pool};
use page_check::{Page, World};
use std::alloc::AllocError;
use std::marker::Brand;
use std::process::Abort;
use std::sync::Wait;

/// Ends the reading of block 7; what the pool then has of it.
fn end<W: World, R: Wait>(rt: &R, pool: &Pool<W>, reference: WaitRef, page: Option<&Page>) -> Look
    requires { W.told ≡ None }
{
    end_read(rt, pool, SEVEN, reference, page);
    pool.peek(rt, SEVEN)
}

/// Begins the reading of block 7, twice, and ends it: by another reference, without and with a page.
fn end_one_by_one<W: World, R: Abort + AllocGlobal + Wait>(rt: &R) -> Result<(), AllocError>
    requires { (W.told ≡ None) × (W.handles ≡ 2) }
{
    let pool: Pool<W> = Pool::open(rt.alloc(), 16)?;
    let page = page_of(rt.alloc(), 7)?;
    let _ = pool.begin(rt, SEVEN, MINE);
    assert_eq!(rt; end(rt, &pool, LATER, page.as_ref()), Look::Busy(MINE));
    assert_eq!(rt; end(rt, &pool, MINE, None), Look::Absent);
    let _ = pool.begin(rt, SEVEN, MINE);
    assert_eq!(rt; end(rt, &pool, MINE, page.as_ref()), Look::Hit(0));
    assert_eq!(rt; pool.begin(rt, SEVEN, LATER), Begun::Hit(0));
    Ok(())
}

#[test]
fn an_end_is_for_the_entry_of_its_reference(rt: HostRuntime) -> Result<(), AllocError> {
    end_one_by_one::<Brand, _>(&rt)
}
