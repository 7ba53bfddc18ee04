//! The rules on a page's items.
ghost use Rattle.std.specs.Prelude.{◌≡◌, ◌++◌, ◌∷◌, [], ◌+◌, ◌<◌, length, take, OnOk};
ghost use Rattle.page_check.specs.Fields.{header_of};
ghost use Rattle.page_check.specs.Verdict.{IsValid};
ghost use Rattle.page_check.specs.LinePointers.{line_pointer_count, line_pointer_of};
ghost use Rattle.page_faults.specs.Places.{AreOwners, placed_items};
ghost use Rattle.page_faults.specs.ItemFaults.{is_wrong_unused, is_wrong_redirect, names_normal};
ghost use Rattle.page_faults.specs.ItemFaults.{item_faults, items_faults};
ghost use Rattle.page_faults.specs.Misplaced.{AreWitnesses, misplaced_faults};

use crate::good_items::are_good_in_order;
use crate::places::{PIECES, Place, take_place};
use crate::report::report;
use crate::tuples::check_tuple;
use crate::witnesses::{Witnesses, add_tuple, check_witnesses, no_witnesses};
use crate::{CheckOptions, Fault};
use heap_tuple::read_header;
use page_check::{Kind, LinePointer, Page, count, line_pointer};
use std::alloc::AllocError;

#[inline]
pub(crate) fn is_wrong_unused(pointer: LinePointer) -> bool
    ensures { result ≡ is_wrong_unused pointer }
{
    pointer.offset != 0 || pointer.length != 0
}

#[tactic(auto, unfolding(crate::specs::ItemFaults::names_normal))]
fn names_normal(page: &Page, number: u16) -> bool
    requires { IsValid page.now }
    ensures { result ≡ names_normal page.now number }
{
    number >= 1 && number <= count(page) && line_pointer(page, number - 1).kind == Kind::Normal
}

pub(crate) fn is_wrong_redirect(page: &Page, pointer: LinePointer) -> bool
    requires { IsValid page.now }
    ensures { result ≡ is_wrong_redirect page.now pointer }
{
    pointer.length != 0 || !names_normal(page, pointer.offset)
}

// Reports what is wrong with the normal item at an index, and writes down what it has.
#[inline]
fn check_normal(
    options: &CheckOptions,
    page: &Page,
    index: u16,
    owners: &mut [u16],
    witnesses: &mut Witnesses,
    found: &mut Vec<Fault>,
) -> Result<(), AllocError>
    requires valid { IsValid page.now }
    requires heap { (header_of page.now).special ≡ 8192 }
    requires index { index < line_pointer_count page.now }
    requires few { index < 2042 }
    requires normal { (line_pointer_of page.now index).kind ≡ Kind.Normal }
    requires owners { AreOwners page.now (placed_items page.now index) owners.old }
    requires witnesses { AreWitnesses page.now (placed_items page.now index) witnesses.old }
    ensures ok { OnOk result
        (found.new.items ≡ found.old.items ++ item_faults options.now page.now index) }
    ensures prefix { take (length found.old.items) found.new.items ≡ found.old.items }
    ensures owners { AreOwners page.now (placed_items page.now (index + 1)) owners.new }
    ensures witnesses { AreWitnesses page.now (placed_items page.now (index + 1)) witnesses.new }
{
    let pointer = line_pointer(page, index);
    let item = index + 1;
    match take_place(page, index, pointer, owners) {
        Place::Own => {
            let header = read_header(page.bytes(), usize::from(pointer.offset));
            add_tuple(witnesses, index, &header);
            check_tuple(options, item, pointer.length, &header, found)
        }
        Place::Taken(other) => {
            found.push(Fault::Overlap { item, other })?;
            Ok(())
        }
        Place::Outside => {
            found.push(Fault::Item { item, pointer })?;
            Ok(())
        }
    }
}

// Reports what is wrong with the item at an index.
#[inline]
fn check_item(
    options: &CheckOptions,
    page: &Page,
    index: u16,
    owners: &mut [u16],
    witnesses: &mut Witnesses,
    found: &mut Vec<Fault>,
) -> Result<(), AllocError>
    requires valid { IsValid page.now }
    requires heap { (header_of page.now).special ≡ 8192 }
    requires index { index < line_pointer_count page.now }
    requires few { index < 2042 }
    requires owners { AreOwners page.now (placed_items page.now index) owners.old }
    requires witnesses { AreWitnesses page.now (placed_items page.now index) witnesses.old }
    ensures ok { OnOk result
        (found.new.items ≡ found.old.items ++ item_faults options.now page.now index) }
    ensures prefix { take (length found.old.items) found.new.items ≡ found.old.items }
    ensures owners { AreOwners page.now (placed_items page.now (index + 1)) owners.new }
    ensures witnesses { AreWitnesses page.now (placed_items page.now (index + 1)) witnesses.new }
{
    let pointer = line_pointer(page, index);
    let item = index + 1;
    match pointer.kind {
        Kind::Normal => check_normal(options, page, index, owners, witnesses, found),
        Kind::Unused => report(
            found,
            is_wrong_unused(pointer),
            Fault::Item { item, pointer },
        ),
        Kind::Redirect => {
            let wrong = is_wrong_redirect(page, pointer);
            report(found, wrong, Fault::Item { item, pointer })
        }
        Kind::Dead => Ok(()),
    }
}

/// Reports what is wrong with the items of a page without a special space, and at the end whether
/// it is misplaced. Where an item is not below the one before it, or has a fault, it has 2048 bytes
/// on the stack, which it fills with zeros once.
pub(crate) fn check_items(
    options: &CheckOptions,
    block: u32,
    page: &Page,
    found: &mut Vec<Fault>,
) -> Result<(), AllocError>
    requires valid { IsValid page.now }
    requires heap { (header_of page.now).special ≡ 8192 }
    ensures ok { OnOk result (found.new.items ≡ found.old.items
        ++ (items_faults options.now page.now (line_pointer_count page.now)
        ++ misplaced_faults options.now block page.now)) }
    ensures prefix { take (length found.old.items) found.new.items ≡ found.old.items }
{
    if are_good_in_order(options, block, page) {
        return Ok(());
    }
    check_each(options, block, page, found)
}

// The same by one look at each item, with a table of the bytes that they have.
#[inline(never)]
fn check_each(
    options: &CheckOptions,
    block: u32,
    page: &Page,
    found: &mut Vec<Fault>,
) -> Result<(), AllocError>
    requires valid { IsValid page.now }
    requires heap { (header_of page.now).special ≡ 8192 }
    ensures ok { OnOk result (found.new.items ≡ found.old.items
        ++ (items_faults options.now page.now (line_pointer_count page.now)
        ++ misplaced_faults options.now block page.now)) }
    ensures prefix { take (length found.old.items) found.new.items ≡ found.old.items }
{
    let mut owners = [0; PIECES];
    let mut witnesses = no_witnesses();
    for index in 0..count(page) {
        check_item(options, page, index, &mut owners, &mut witnesses, found)?;
    }
    check_witnesses(options, &witnesses, block, page, found)
}
