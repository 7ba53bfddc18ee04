//! A quick look at a page's items, which most pages pass.
ghost use Rattle.std.specs.Prelude.{◌≡◌, ℕ, ◌+◌, ◌<◌, ◌≤◌, false, [], true, IfSome, Some, None};
ghost use Rattle.std.specs.Prelude.{if◌then◌else◌};
ghost use Rattle.page_check.specs.declared.fields.PageHeader.{PageHeader};
ghost use Rattle.page_check.specs.Fields.{header_of};
ghost use Rattle.page_check.specs.Verdict.{IsValid};
ghost use Rattle.page_check.specs.LinePointers.{line_pointer_count, line_pointer_of};
ghost use Rattle.heap_tuple.specs.Tuples.{is_normal};
ghost use Rattle.page_faults.specs.Places.{is_outside};
ghost use Rattle.page_faults.specs.ItemFaults.{header_of_item, items_faults};
ghost use Rattle.page_faults.specs.Misplaced.{misplaced_faults};
ghost use Rattle.page_faults.specs.GoodItems.{AreGood, IsGoodTuple, is_wrong_other};

use crate::CheckOptions;
use crate::items::{is_wrong_redirect, is_wrong_unused};
use crate::places::SHORTEST;
use crate::tuples::has_fault;
use crate::witnesses::names_itself;
use heap_tuple::{TupleHeader, read_header};
use page_check::{Kind, LinePointer, PAGE_SIZE, Page, count, header, line_pointer};

#[inline]
fn is_normal(kind: Kind) -> bool
    ensures { result ≡ is_normal kind }
{
    kind == Kind::Normal
}

// A tuple without a fault, which names this block if it names itself.
#[inline]
fn is_good_tuple(options: &CheckOptions, block: u32, len: u16, header: &TupleHeader) -> bool
    ensures { result ≡ true → IsGoodTuple options.now block len header.now }
{
    !has_fault(options, len, header) && (header.block == block || !names_itself(header))
}

// The item begins in the free space or between pieces, has no room for the header of a tuple, or
// passes the begin of those before it.
#[inline]
fn is_out_of_order(upper: u16, begin: usize, pointer: LinePointer) -> bool
    ensures { result ≡ false → (header : PageHeader) → header.upper ≡ upper
        → begin ≤ header.special
        → (is_outside header pointer ≡ false) × (pointer.offset + pointer.length ≤ begin) }
{
    pointer.offset < upper
        || pointer.offset % 8 != 0
        || pointer.length < SHORTEST
        || usize::from(pointer.offset) + usize::from(pointer.length) > begin
}

// Where the normal item at an index begins, in bytes from the start of the page: none where it has
// a fault, or passes the begin of those before it.
#[inline]
fn begin_of(
    options: &CheckOptions,
    block: u32,
    page: &Page,
    upper: u16,
    index: u16,
    begin: usize,
) -> Option<usize>
    requires valid { IsValid page.now }
    requires heap { (header_of page.now).special ≡ 8192 }
    requires upper { (header_of page.now).upper ≡ upper }
    requires index { index < line_pointer_count page.now }
    requires normal { is_normal (line_pointer_of page.now index).kind ≡ true }
    requires within { begin ≤ 8192 }
    ensures { AreGood options.now block page.now index begin → IfSome result (λ next.
        AreGood options.now block page.now (index + 1) next) }
{
    let pointer = line_pointer(page, index);
    if is_out_of_order(upper, begin, pointer) {
        return None;
    }
    let first = usize::from(pointer.offset);
    let tuple = read_header(page.bytes(), first);
    if !is_good_tuple(options, block, pointer.length, &tuple) {
        return None;
    }
    Some(first)
}

// Whether the line pointer at an index, which is not normal, is wrong.
#[inline(never)]
fn is_wrong_other(page: &Page, index: u16) -> bool
    requires valid { IsValid page.now }
    requires index { index < line_pointer_count page.now }
    ensures { result ≡ is_wrong_other page.now (line_pointer_of page.now index) }
{
    let pointer = line_pointer(page, index);
    match pointer.kind {
        Kind::Unused => is_wrong_unused(pointer),
        Kind::Redirect => is_wrong_redirect(page, pointer),
        Kind::Normal | Kind::Dead => false,
    }
}

#[inline]
fn begin_unless(wrong: bool, begin: usize) -> Option<usize>
    ensures { result ≡ (if wrong then None else Some begin) }
{
    if wrong { None } else { Some(begin) }
}

// The same of any item: one without bytes begins nowhere.
#[inline]
fn begin_with(
    options: &CheckOptions,
    block: u32,
    page: &Page,
    upper: u16,
    index: u16,
    begin: usize,
) -> Option<usize>
    requires valid { IsValid page.now }
    requires heap { (header_of page.now).special ≡ 8192 }
    requires upper { (header_of page.now).upper ≡ upper }
    requires index { index < line_pointer_count page.now }
    requires within { begin ≤ 8192 }
    ensures { AreGood options.now block page.now index begin → IfSome result (λ next.
        AreGood options.now block page.now (index + 1) next) }
{
    let pointer = line_pointer(page, index);
    if is_normal(pointer.kind) {
        return begin_of(options, block, page, upper, index, begin);
    }
    begin_unless(is_wrong_other(page, index), begin)
}

/// Whether each item is below those before it, as a page is filled, none has a fault, and the page
/// is not misplaced. It keeps no table of bytes.
pub(crate) fn are_good_in_order(options: &CheckOptions, block: u32, page: &Page) -> bool
    requires valid { IsValid page.now }
    requires heap { (header_of page.now).special ≡ 8192 }
    ensures faults { result ≡ true
        → items_faults options.now page.now (line_pointer_count page.now) ≡ [] }
    ensures misplaced { result ≡ true → misplaced_faults options.now block page.now ≡ [] }
{
    let upper = header(page).upper;
    let mut begin = PAGE_SIZE;
    for index in 0..count(page) {
        match begin_with(options, block, page, upper, index, begin) {
            Some(next) => begin = next,
            None => return false,
        }
    }
    true
}
