//! Pages that show which block they are of, and how they come into a pool.
ghost use Rattle.std.specs.Prelude.{◌≡◌, ◌<◌, None};

use aio_word::WaitRef;
use buf_pool::{Begun, Found, Pin, Pool, Tag};
use page_check::{Page, Verdict, World, check, check_as, header};
use read_callbacks::Places;
use std::alloc::{AllocError, Global};
use std::sync::Wait;

pub(crate) const SEVEN: Tag = Tag {
    relation: 0,
    block: 7,
    checksums: false,
};

pub(crate) const MINE: WaitRef = WaitRef {
    handle: 1,
    generation: 0,
};

/// A block whose page is checked by its header alone.
pub(crate) fn by_header(relation: u32, block: u32) -> Tag {
    Tag {
        relation,
        block,
        checksums: false,
    }
}

/// The same handle in its next life.
pub(crate) const LATER: WaitRef = WaitRef {
    handle: 1,
    generation: 1,
};

/// An empty heap page with the block's number in the last four bytes of its header and in its last
/// byte.
pub(crate) fn page_of(alloc: Global, block: u8) -> Result<Option<Page>, AllocError> {
    let mut page = Page::zeroed(alloc)?;
    let bytes = page.bytes_mut();
    // Lower 24, upper and special 8192, page size 8192 with version 4.
    for (at, byte) in [
        (12, 24),
        (15, 32),
        (17, 32),
        (18, 4),
        (19, 32),
        (20, block),
        (8191, block),
    ] {
        if at < bytes.len() {
            bytes[at] = byte;
        }
    }
    match check(&page) {
        Verdict::Sane => Ok(Some(page)),
        Verdict::Zero | Verdict::Bad => Ok(None),
    }
}

/// Ends the reading of a block. A page that is not valid as this block is no page.
pub(crate) fn end_read<W: World, R: Wait>(
    rt: &R,
    pool: &Pool<W>,
    tag: Tag,
    reference: WaitRef,
    page: Option<&Page>,
)
    requires { W.told ≡ None }
{
    let Tag {
        relation,
        block,
        checksums,
    } = tag;
    let mut places = pool;
    match page {
        Some(page) if check_as(page, block, checksums) != Verdict::Bad => {
            places.finish(rt, relation, block, checksums, reference, Some(page));
        }
        _ => places.finish(rt, relation, block, checksums, reference, None),
    }
}

/// Whether a look-up gave a pin, and whether that showed the block.
#[derive(Clone, Copy, PartialEq, Eq)]
pub(crate) enum Shown {
    Right,
    Wrong,
    Nothing,
}

/// Whether the pin shows the block, from its header to its last byte.
pub(crate) fn shows<W: World>(pin: &Pin<'_, W>, tag: Tag) -> bool {
    let last = pin.page().bytes().last().copied();
    pin.tag() == tag
        && header(pin.page()).prune_xid == tag.block
        && last.map(u32::from) == Some(tag.block)
}

/// Looks the block up, and reads it into the pool where it is not there.
pub(crate) fn visit<W: World, R: Wait>(
    rt: &R,
    alloc: Global,
    pool: &Pool<W>,
    block: u8,
    reference: WaitRef,
) -> Result<Shown, AllocError>
    requires told { W.told ≡ None }
    requires range { reference.handle < W.handles }
{
    let tag = by_header(0, u32::from(block));
    match pool.lookup(rt, tag) {
        Found::Hit(pin) => {
            let right = shows(&pin, tag);
            pool.unpin(rt, pin);
            Ok(if right { Shown::Right } else { Shown::Wrong })
        }
        Found::Busy(_) => Ok(Shown::Nothing),
        Found::Absent => {
            if let Begun::Yes(_) = pool.begin(rt, tag, reference) {
                let page = page_of(alloc, block)?;
                end_read(rt, pool, tag, reference, page.as_ref());
            }
            Ok(Shown::Nothing)
        }
    }
}

/// Reads the page of the tag into the pool; whether a frame was taken for it.
pub(crate) fn read_into<W: World, R: Wait>(rt: &R, pool: &Pool<W>, tag: Tag, page: &Page) -> bool
    requires told { W.told ≡ None }
    requires range { 1 < W.handles }
{
    if !matches!(pool.begin(rt, tag, MINE), Begun::Yes(_)) {
        return false;
    }
    end_read(rt, pool, tag, MINE, Some(page));
    true
}

/// A pin on block 7.
pub(crate) fn pin_seven<'p, W: World, R: Wait>(rt: &R, pool: &'p Pool<W>) -> Option<Pin<'p, W>> {
    match pool.lookup(rt, SEVEN) {
        Found::Hit(pin) => Some(pin),
        Found::Busy(_) | Found::Absent => None,
    }
}
