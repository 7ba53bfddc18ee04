//! The lines of a page's tuples, each written from its end to its start.
ghost use Rattle.std.specs.Prelude.{◌≡◌, ◌++◌, ◌<◌, ◌≤◌, ◌+◌, ◌-◌, ◌*◌, length, drop};
ghost use Rattle.page_check.specs.Verdict.{IsValid};
ghost use Rattle.page_check.specs.LinePointers.{line_pointer_count};
ghost use Rattle.heap_tuple.specs.Tuples.{step_of, tuple_of};
ghost use Rattle.heap_tuple.specs.TuplesText.{tuples_text_up_to, chains_line, ctid_part};
ghost use Rattle.heap_tuple.specs.TuplesText.{inside_line, item_text, texts_from};
ghost use Rattle.heap_tuple.specs.TuplesText.{marks_part, outside_line, step_part, tuple_line};
ghost use Rattle.heap_tuple.specs.TuplesText.{tuple_part, xids_part};

use crate::chains::Chains;
use crate::{TupleHeader, step, tuple};
use heap_scan::backward::{put, put_number};
use heap_scan::{ITEM_ROOM, put_item, put_page_line};
use page_check::{Kind, Page, count, line_pointer};

/// At most so many bytes has the line of a tuple.
const TUPLE_ROOM: usize = 192;

/// At most so many bytes have the lines of one item.
pub(crate) const LINES_ROOM: usize = ITEM_ROOM + TUPLE_ROOM;

// ` step J`, or nothing.
#[inline]
fn put_step(buf: &mut [u8], end: usize, step: Option<u16>) -> usize
    requires room { 16 ≤ end }
    requires within { end ≤ length buf.old }
    ensures start { (result ≤ end) × (end ≤ result + 16) }
    ensures written { drop result buf.new ≡ step_part step ++ drop end buf.old }
{
    match step {
        Some(next) => {
            let at = put_number(buf, end, u32::from(next) + 1);
            put(buf, at, b" step ")
        }
        None => end,
    }
}

// `) attrs K mask M hoff H`, the step and the end of the line.
fn put_marks(buf: &mut [u8], end: usize, header: &TupleHeader, step: Option<u16>) -> usize
    requires room { 80 ≤ end }
    requires within { end ≤ length buf.old }
    ensures start { (result ≤ end) × (end ≤ result + 80) }
    ensures written { drop result buf.new ≡ marks_part header.now step ++ drop end buf.old }
{
    let at = put(buf, end, b"\n");
    let at = put_step(buf, at, step);
    let at = put_number(buf, at, u32::from(header.hoff));
    let at = put(buf, at, b" hoff ");
    let at = put_number(buf, at, u32::from(header.mask));
    let at = put(buf, at, b" mask ");
    let at = put_number(buf, at, u32::from(header.attrs));
    put(buf, at, b") attrs ")
}

// ` field3 C ctid (D,P`.
fn put_ctid(buf: &mut [u8], end: usize, header: &TupleHeader) -> usize
    requires room { 50 ≤ end }
    requires within { end ≤ length buf.old }
    ensures start { (result ≤ end) × (end ≤ result + 50) }
    ensures written { drop result buf.new ≡ ctid_part header.now ++ drop end buf.old }
{
    let at = put_number(buf, end, u32::from(header.position));
    let at = put(buf, at, b",");
    let at = put_number(buf, at, header.block);
    let at = put(buf, at, b" ctid (");
    let at = put_number(buf, at, header.field3);
    put(buf, at, b" field3 ")
}

// `tuple I xmin A xmax B`.
fn put_xids(buf: &mut [u8], end: usize, number: u32, header: &TupleHeader) -> usize
    requires room { 50 ≤ end }
    requires within { end ≤ length buf.old }
    ensures start { (result ≤ end) × (end ≤ result + 50) }
    ensures written { drop result buf.new ≡ xids_part number header.now ++ drop end buf.old }
{
    let at = put_number(buf, end, header.xmax);
    let at = put(buf, at, b" xmax ");
    let at = put_number(buf, at, header.xmin);
    let at = put(buf, at, b" xmin ");
    let at = put_number(buf, at, number);
    put(buf, at, b"tuple ")
}

// The line of an item that is inside the page.
fn put_inside(
    buf: &mut [u8],
    end: usize,
    number: u32,
    header: &TupleHeader,
    step: Option<u16>,
) -> usize
    requires room { 192 ≤ end }
    requires within { end ≤ length buf.old }
    ensures start { (result ≤ end) × (end ≤ result + 192) }
    ensures written { drop result buf.new ≡ inside_line number header.now step ++ drop end buf.old }
{
    let at = put_marks(buf, end, header, step);
    let at = put_ctid(buf, at, header);
    put_xids(buf, at, number, header)
}

// The line of a normal item that is not.
fn put_outside(buf: &mut [u8], end: usize, number: u32) -> usize
    requires room { 192 ≤ end }
    requires within { end ≤ length buf.old }
    ensures start { (result ≤ end) × (end ≤ result + 192) }
    ensures written { drop result buf.new ≡ outside_line number ++ drop end buf.old }
{
    let at = put(buf, end, b" outside\n");
    let at = put_number(buf, at, number);
    put(buf, at, b"tuple ")
}

// The line of the tuple at an index.
fn put_tuple(buf: &mut [u8], end: usize, page: &Page, block: u32, index: u16) -> usize
    requires valid { IsValid page.now }
    requires index { index < line_pointer_count page.now }
    requires room { 192 ≤ end }
    requires within { end ≤ length buf.old }
    ensures start { (result ≤ end) × (end ≤ result + 192) }
    ensures written { drop result buf.new
        ≡ tuple_line (index + 1) (tuple_of page.now index) (step_of page.now block index)
        ++ drop end buf.old }
{
    let number = u32::from(index) + 1;
    match tuple(page, index) {
        Some(header) => put_inside(buf, end, number, &header, step(page, block, index)),
        None => put_outside(buf, end, number),
    }
}

// The line of the tuple at an index, where the item is normal.
fn put_part(buf: &mut [u8], end: usize, page: &Page, block: u32, index: u16, kind: Kind) -> usize
    requires valid { IsValid page.now }
    requires index { index < line_pointer_count page.now }
    requires room { 192 ≤ end }
    requires within { end ≤ length buf.old }
    ensures start { (result ≤ end) × (end ≤ result + 192) }
    ensures written { drop result buf.new
        ≡ tuple_part kind
        (tuple_line (index + 1) (tuple_of page.now index) (step_of page.now block index))
        ++ drop end buf.old }
{
    match kind {
        Kind::Normal => put_tuple(buf, end, page, block, index),
        Kind::Unused | Kind::Redirect | Kind::Dead => end,
    }
}

// The lines of the item at an index.
#[tactic(auto, unfolding(crate::specs::TuplesText::item_text))]
fn put_lines(buf: &mut [u8], end: usize, page: &Page, block: u32, index: u16) -> usize
    requires valid { IsValid page.now }
    requires index { index < line_pointer_count page.now }
    requires room { 240 ≤ end }
    requires within { end ≤ length buf.old }
    ensures start { (result ≤ end) × (end ≤ result + 224) }
    ensures written { drop result buf.new ≡ item_text page.now block index ++ drop end buf.old }
{
    let pointer = line_pointer(page, index);
    let at = put_part(buf, end, page, block, index, pointer.kind);
    put_item(buf, at, u32::from(index) + 1, pointer)
}

/// Writes the lines of the items from one index up to another at the end of the buffer, and says
/// where they start.
pub(crate) fn put_items(buf: &mut [u8], page: &Page, block: u32, from: u16, to: u16) -> usize
    requires valid { IsValid page.now }
    requires order { from ≤ to }
    requires in_page { to ≤ line_pointer_count page.now }
    requires room { 96 + 224 * (to - from) ≤ length buf.old }
    ensures start { (96 ≤ result) × (result ≤ length buf.new) }
    ensures written { drop result buf.new ≡ texts_from page.now block from (to - from) }
{
    let mut left = to;
    let mut at = buf.len();
    while left > from {
        left -= 1;
        at = put_lines(buf, at, page, block, left);
    }
    at
}

/// Writes `chains N longest L` at the end of the buffer, and says where it starts.
pub(crate) fn put_chains(buf: &mut [u8], chains: &Chains) -> usize
    requires { 64 ≤ length buf.old }
    ensures start { (result ≤ length buf.new) × (length buf.new ≤ result + 64) }
    ensures written { drop result buf.new ≡ chains_line chains.now.roots chains.now.longest }
{
    let at = put(buf, buf.len(), b"\n");
    let at = put_number(buf, at, u32::from(chains.longest));
    let at = put(buf, at, b" longest ");
    let at = put_number(buf, at, u32::from(chains.roots));
    put(buf, at, b"chains ")
}

/// Writes the first line of a page that is not new and the lines of so many items at the end of the
/// buffer, and says where they start.
pub(crate) fn put_first_lines(
    buf: &mut [u8],
    relation: u32,
    block: u32,
    page: &Page,
    items: u16,
) -> usize
    requires valid { IsValid page.now }
    requires in_page { items ≤ line_pointer_count page.now }
    requires room { 96 + 224 * items ≤ length buf.old }
    ensures start { result ≤ length buf.new }
    ensures written { drop result buf.new ≡ tuples_text_up_to relation block page.now items }
{
    let at = put_items(buf, page, block, 0, items);
    put_page_line(buf, at, relation, block, page)
}
