//! Blocks whose page was checked by its checksum, and the same blocks by their header alone.
ghost use Rattle.std.specs.Prelude.{◌≡◌, None};

use crate::pages::{LATER, MINE, SEVEN, end_read};
use buf_pool::{Begun, Found, Look, Pool, PoolIndex, Tag};
use page_check::{Page, World};
use page_fixtures::checksums::{NUMBERED_SUMS, with_checksum};
use page_fixtures::pages::{EMPTY, PRUNE_XID, page_of, put_bytes};
use std::alloc::AllocError;
use std::marker::Brand;
use std::process::Abort;
use std::sync::Wait;

/// Block 7, whose page is checked by its checksum too.
const VERIFIED: Tag = Tag {
    checksums: true,
    ..SEVEN
};

/// A tag, and the same block checked otherwise.
const EITHER: [(&str, Tag, Tag); 2] = [
    ("by its header", SEVEN, VERIFIED),
    ("by its checksum", VERIFIED, SEVEN),
];

/// A page with this number and with the checksum that block 7 is to have.
fn page_of_seven(number: u32) -> Page {
    let mut page = page_of(EMPTY);
    put_bytes(&mut page, PRUNE_XID, &number.to_le_bytes());
    with_checksum(page, NUMBERED_SUMS[7])
}

/// What a look-up gives.
#[derive(Clone, Copy, Debug, PartialEq, Eq)]
enum LookedUp {
    Hit(Tag),
    Busy,
    Absent,
}

fn look_up<W: World, R: Wait>(rt: &R, pool: &Pool<W>, tag: Tag) -> LookedUp {
    match pool.lookup(rt, tag) {
        Found::Hit(pin) => {
            let tag = pin.tag();
            pool.unpin(rt, pin);
            LookedUp::Hit(tag)
        }
        Found::Busy(_) => LookedUp::Busy,
        Found::Absent => LookedUp::Absent,
    }
}

/// Reads block 7 into the pool so that it is checked in one way, and then in the other. What the
/// pool has of the one is not there for who asks for the other, neither while it is read nor after.
fn read_in_both_ways<W: World, R: Abort + AllocGlobal + Wait>(
    rt: &R,
    row: (&str, Tag, Tag),
) -> Result<(), AllocError>
    requires { (W.told ≡ None) × (W.handles ≡ 2) }
{
    let (name, one, other) = row;
    let pool: Pool<W> = Pool::open(rt.alloc(), 16)?;
    let page = page_of_seven(7);
    assert_eq!(rt; pool.begin(rt, one, MINE), Begun::Yes(0), "{name}");
    assert_eq!(rt;
        look_up(rt, &pool, one),
        LookedUp::Busy,
        "{name}, under way"
    );
    assert_eq!(rt;
        look_up(rt, &pool, other),
        LookedUp::Absent,
        "{name}, under way"
    );
    end_read(rt, &pool, one, MINE, Some(&page));
    assert_eq!(rt; look_up(rt, &pool, one), LookedUp::Hit(one), "{name}");
    assert_eq!(rt; look_up(rt, &pool, other), LookedUp::Absent, "{name}");
    assert_eq!(rt; pool.begin(rt, one, LATER), Begun::Hit(0), "{name}");
    assert_eq!(rt; pool.begin(rt, other, LATER), Begun::Yes(1), "{name}");
    end_read(rt, &pool, other, LATER, Some(&page));
    assert_eq!(rt; pool.peek(rt, one), Look::Hit(0), "{name}, then otherwise");
    assert_eq!(rt;
        pool.peek(rt, other),
        Look::Hit(1),
        "{name}, then otherwise"
    );
    assert_eq!(rt;
        look_up(rt, &pool, other),
        LookedUp::Hit(other),
        "{name}, then otherwise"
    );
    Ok(())
}

#[test]
fn a_page_is_there_for_who_asks_for_its_check(rt: HostRuntime) -> Result<(), AllocError> {
    for row in EITHER {
        read_in_both_ways::<Brand, _>(&rt, row)?;
    }
    Ok(())
}

/// Ends the reading of block 7 without a page, and then with one whose checksum is that of another
/// page. What is under way of the one ends by itself, and the other stays as it is.
fn end_in_both_ways<W: World, R: Abort + AllocGlobal + Wait>(rt: &R) -> Result<(), AllocError>
    requires { (W.told ≡ None) × (W.handles ≡ 2) }
{
    let pool: Pool<W> = Pool::open(rt.alloc(), 16)?;
    let wrong = page_of_seven(8);
    let _ = pool.begin(rt, SEVEN, MINE);
    let _ = pool.begin(rt, VERIFIED, MINE);
    end_read(rt, &pool, VERIFIED, MINE, None);
    assert_eq!(rt; pool.peek(rt, VERIFIED), Look::Absent, "no page");
    assert_eq!(rt; pool.peek(rt, SEVEN), Look::Busy(MINE), "no page");
    let _ = pool.begin(rt, VERIFIED, MINE);
    end_read(rt, &pool, SEVEN, MINE, Some(&wrong));
    assert!(rt;
        matches!(pool.peek(rt, SEVEN), Look::Hit(_)),
        "by its header"
    );
    assert_eq!(rt; pool.peek(rt, VERIFIED), Look::Busy(MINE), "by its header");
    end_read(rt, &pool, VERIFIED, MINE, Some(&wrong));
    assert_eq!(rt; pool.peek(rt, VERIFIED), Look::Absent, "by its checksum");
    Ok(())
}

#[test]
fn an_end_is_for_the_read_that_checked_so(rt: HostRuntime) -> Result<(), AllocError> {
    end_in_both_ways::<Brand, _>(&rt)
}

/// The index has an entry for each.
fn index_both<W: World, R: Abort + AllocGlobal>(
    rt: &R,
    row: (&str, Tag, Tag),
) -> Result<(), AllocError>
    requires { W.handles ≡ 2 }
{
    let (name, one, other) = row;
    let mut index: PoolIndex<W> = PoolIndex::open(rt.alloc(), 16)?;
    assert_eq!(rt; index.begin(one, MINE), Begun::Yes(0), "{name}");
    assert_eq!(rt; index.look(other), Look::Absent, "{name}");
    assert_eq!(rt; index.frame(other, MINE), None, "{name}");
    assert_eq!(rt; index.end(other, MINE, true), None, "{name}");
    assert_eq!(rt; index.look(one), Look::Busy(MINE), "{name}");
    assert_eq!(rt; index.begin(other, MINE), Begun::Yes(1), "{name}");
    assert_eq!(rt; index.end(one, MINE, true), Some(0), "{name}");
    assert_eq!(rt; index.look(one), Look::Hit(0), "{name}");
    assert_eq!(rt; index.look(other), Look::Busy(MINE), "{name}");
    Ok(())
}

#[test]
fn the_index_has_an_entry_for_each_check(rt: HostRuntime) -> Result<(), AllocError> {
    for row in EITHER {
        index_both::<Brand, _>(&rt, row)?;
    }
    Ok(())
}
