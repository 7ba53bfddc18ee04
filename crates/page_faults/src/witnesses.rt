//! Which block the tuples of a page name as their own.
ghost use Rattle.std.specs.Prelude.{◌≡◌, ◌&&◌, ◌++◌, ◌∷◌, [], ℕ, List, length, take, OnOk};
ghost use Rattle.page_check.specs.LinePointers.{line_pointer_count};
ghost use Rattle.page_faults.specs.Places.{placed_items};
ghost use Rattle.page_faults.specs.ItemFaults.{header_of_item};
ghost use Rattle.page_faults.specs.Misplaced.{names_itself, is_at, AreWitnesses};
ghost use Rattle.page_faults.specs.Misplaced.{misplaced_faults};

use crate::header::is_verified;
use crate::report::report;
use crate::tuples::is_frozen;
use crate::{CheckOptions, Fault};
use heap_tuple::TupleHeader;
use page_check::Page;
use std::alloc::AllocError;

/// What is kept of the tuples that name themselves.
#[derive(Clone, Copy, Debug, PartialEq, Eq)]
pub(crate) struct Witnesses {
    /// The block that the first names, if there is one.
    pub(crate) named: Option<u32>,
    /// Whether all name that block, each under its own number.
    pub(crate) agree: bool,
}

#[inline]
pub(crate) fn names_itself(header: &TupleHeader) -> bool
    ensures { result ≡ names_itself header.now }
{
    header.xmax == 0 && header.xmin > 2 && !is_frozen(header)
}

#[inline]
fn is_at(header: &TupleHeader, block: u32, index: u16) -> bool
    ensures { result ≡ is_at header.now block index }
{
    header.block == block && u32::from(header.position) == u32::from(index) + 1
}

// Whether all of these and a tuple more are of the block.
#[inline]
fn agree_on(witnesses: &Witnesses, block: u32, index: u16, header: &TupleHeader) -> bool
    ensures { result ≡ (witnesses.now.agree && is_at header.now block index) }
{
    witnesses.agree && is_at(header, block, index)
}

/// None so far.
pub(crate) fn no_witnesses() -> Witnesses
    ensures { (page : List ℕ) → AreWitnesses page [] result }
{
    Witnesses {
        named: None,
        agree: true,
    }
}

/// Adds the tuple of the item at an index, if it is one that names itself.
#[inline]
pub(crate) fn add_tuple(witnesses: &mut Witnesses, index: u16, header: &TupleHeader)
    ensures { (page items : List ℕ) → header.now ≡ header_of_item page index
        → AreWitnesses page items witnesses.old
        → AreWitnesses page (items ++ index ∷ []) witnesses.new }
{
    if !names_itself(header) {
        return;
    }
    let named = witnesses.named.unwrap_or(header.block);
    witnesses.agree = agree_on(witnesses, named, index, header);
    witnesses.named = Some(named);
}

/// Reports a page whose tuples name another block. Where checksums are looked at and its own is
/// right, it was written as this one: a checksum covers the number of the block.
#[inline]
#[tactic(auto, unfolding(crate::specs::Misplaced::misplaced_faults))]
pub(crate) fn check_witnesses(
    options: &CheckOptions,
    witnesses: &Witnesses,
    block: u32,
    page: &Page,
    found: &mut Vec<Fault>,
) -> Result<(), AllocError>
    requires { AreWitnesses page.now (placed_items page.now (line_pointer_count page.now))
        witnesses.now }
    ensures ok { OnOk result
        (found.new.items ≡ found.old.items ++ misplaced_faults options.now block page.now) }
    ensures prefix { take (length found.old.items) found.new.items ≡ found.old.items }
{
    match witnesses.named {
        Some(named) => {
            let wrong = named != block && witnesses.agree && !is_verified(options, block, page);
            report(found, wrong, Fault::Misplaced { block: named })
        }
        None => Ok(()),
    }
}
