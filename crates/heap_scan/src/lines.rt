//! The lines of a page's text, each written from its end to its start.
ghost use Rattle.std.specs.Prelude.{◌≡◌, ◌++◌, ◌<◌, ◌≤◌, ◌+◌, ◌-◌, ◌*◌, length, drop, codes, decimal};
ghost use Rattle.page_check.specs.Fields.{header_of};
ghost use Rattle.page_check.specs.Verdict.{IsValid};
ghost use Rattle.page_check.specs.LinePointers.{line_pointer_count, line_pointer_of};
ghost use Rattle.heap_scan.specs.PageText.{text_up_to, item_line, lines_from, page_line};
ghost use Rattle.heap_scan.specs.PageText.{new_line, damaged_line};

use crate::backward::{
    put, put_item_word, put_number, put_short_number_blank, put_short_number_newline, put_word,
};
use page_check::{LinePointer, Page, PageHeader, count, header, line_pointer_at};

/// At most so many bytes has the line of a page.
pub const PAGE_ROOM: usize = 96;

/// At most so many bytes has the line of a line pointer.
pub const ITEM_ROOM: usize = 32;

// The line of a line pointer, where each number has at most four digits.
#[inline]
fn put_short_item(buf: &mut [u8], end: usize, number: u16, pointer: &LinePointer) -> usize
    requires room { 40 ≤ end }
    requires within { end ≤ length buf.old }
    requires number { number < 10000 }
    requires offset { pointer.now.offset < 10000 }
    requires length { pointer.now.length < 10000 }
    ensures start { (result ≤ end) × (end ≤ result + 32) }
    ensures written { drop result buf.new ≡ item_line (number, pointer.now) ++ drop end buf.old }
{
    let at = put_short_number_newline(buf, end, pointer.length);
    let at = put_short_number_blank(buf, at, pointer.offset);
    let at = put_word(buf, at, pointer.kind);
    let at = put_short_number_blank(buf, at, number);
    put_item_word(buf, at)
}

// The same with a number of at most five digits, and any offset and length. On a page of 8192 bytes
// only those of a damaged page are so large.
#[cold]
#[inline(never)]
fn put_long_item(buf: &mut [u8], end: usize, number: u32, pointer: LinePointer) -> usize
    requires room { 40 ≤ end }
    requires within { end ≤ length buf.old }
    requires number { number < 100000 }
    ensures start { (result ≤ end) × (end ≤ result + 32) }
    ensures written { drop result buf.new ≡ item_line (number, pointer) ++ drop end buf.old }
{
    let at = put(buf, end, b"\n");
    let at = put_number(buf, at, u32::from(pointer.length));
    let at = put(buf, at, b" ");
    let at = put_number(buf, at, u32::from(pointer.offset));
    let at = put_word(buf, at, pointer.kind);
    let at = put(buf, at, b" ");
    let at = put_number(buf, at, number);
    put_item_word(buf, at)
}

/// Writes the line of a line pointer, whose number has at most five digits, so that it ends at
/// `end`.
#[inline]
pub fn put_item(buf: &mut [u8], end: usize, number: u32, pointer: LinePointer) -> usize
    requires room { 40 ≤ end }
    requires within { end ≤ length buf.old }
    requires short { number < 100000 }
    ensures start { (result ≤ end) × (end ≤ result + 32) }
    ensures written { drop result buf.new ≡ item_line (number, pointer) ++ drop end buf.old }
{
    if number < 10000 && pointer.offset < 8192 && pointer.length < 8192 {
        return put_short_item(buf, end, number as u16, &pointer);
    }
    put_long_item(buf, end, number, pointer)
}

// The same with any offset and length of the line pointer at an index of a page's bytes. It is read
// once more, so that other line pointers need not be kept for this call.
#[cold]
#[inline(never)]
fn put_long_item_at(buf: &mut [u8], end: usize, bytes: &[u8], index: u16) -> usize
    requires room { 40 ≤ end }
    requires within { end ≤ length buf.old }
    requires number { index < 9999 }
    requires in_page { 28 + 4 * index ≤ length bytes.now }
    ensures start { (result ≤ end) × (end ≤ result + 32) }
    ensures written { drop result buf.new
        ≡ item_line (index + 1, line_pointer_of bytes.now index) ++ drop end buf.old }
{
    put_long_item(
        buf,
        end,
        u32::from(index) + 1,
        line_pointer_at(bytes, index),
    )
}

// The line of the line pointer at an index of a page's bytes.
#[inline]
fn put_item_at(buf: &mut [u8], end: usize, bytes: &[u8], index: u16) -> usize
    requires room { 40 ≤ end }
    requires within { end ≤ length buf.old }
    requires number { index < 9999 }
    requires in_page { 28 + 4 * index ≤ length bytes.now }
    ensures start { (result ≤ end) × (end ≤ result + 32) }
    ensures written { drop result buf.new
        ≡ item_line (index + 1, line_pointer_of bytes.now index) ++ drop end buf.old }
{
    let pointer = line_pointer_at(bytes, index);
    if pointer.offset < 8192 && pointer.length < 8192 {
        return put_short_item(buf, end, index + 1, &pointer);
    }
    put_long_item_at(buf, end, bytes, index)
}

/// Writes the lines of the line pointers from one index up to another at the end of the buffer, and
/// says where they start.
pub(crate) fn put_items(buf: &mut [u8], page: &Page, from: u16, to: u16) -> usize
    requires valid { IsValid page.now }
    requires order { from ≤ to }
    requires in_page { to ≤ line_pointer_count page.now }
    requires room { 96 + 32 * (to - from) ≤ length buf.old }
    ensures start { (96 ≤ result) × (result ≤ length buf.new) }
    ensures written { drop result buf.new
        ≡ lines_from (line_pointer_of page.now) from (to - from) }
{
    let bytes = page.bytes();
    let mut left = to;
    let mut at = buf.len();
    while left > from {
        left -= 1;
        at = put_item_at(buf, at, bytes, left);
    }
    at
}

// `page R B`, with which each first line begins.
fn put_place(buf: &mut [u8], end: usize, relation: u32, block: u32) -> usize
    requires room { 31 ≤ end }
    requires within { end ≤ length buf.old }
    ensures start { result ≤ end }
    ensures written { drop result buf.new ≡
        codes "page " ++ (decimal relation ++ (codes " " ++ (decimal block ++ drop end buf.old))) }
{
    let at = put_number(buf, end, block);
    let at = put(buf, at, b" ");
    let at = put_number(buf, at, relation);
    put(buf, at, b"page ")
}

// ` lower L upper U special S`.
fn put_bounds(buf: &mut [u8], end: usize, header: &PageHeader) -> usize
    requires room { 50 ≤ end }
    requires within { end ≤ length buf.old }
    ensures start { (result ≤ end) × (end ≤ result + 38) }
    ensures written { drop result buf.new ≡ codes " lower " ++ (decimal header.now.lower
        ++ (codes " upper " ++ (decimal header.now.upper
        ++ (codes " special " ++ (decimal header.now.special ++ drop end buf.old))))) }
{
    let at = put_number(buf, end, u32::from(header.special));
    let at = put(buf, at, b" special ");
    let at = put_number(buf, at, u32::from(header.upper));
    let at = put(buf, at, b" upper ");
    let at = put_number(buf, at, u32::from(header.lower));
    put(buf, at, b" lower ")
}

/// Writes the line of a page that is not new, so that it ends at `end`.
pub fn put_page_line(buf: &mut [u8], end: usize, relation: u32, block: u32, page: &Page) -> usize
    requires room { 96 ≤ end }
    requires within { end ≤ length buf.old }
    ensures start { result ≤ end }
    ensures written { drop result buf.new ≡
        page_line relation block (header_of page.now) (line_pointer_count page.now)
        ++ drop end buf.old }
{
    let at = put(buf, end, b"\n");
    let at = put_number(buf, at, u32::from(count(page)));
    let at = put(buf, at, b" items ");
    let at = put_bounds(buf, at, &header(page));
    put_place(buf, at, relation, block)
}

// The line of a new page, at the end of the buffer.
fn put_new_line(buf: &mut [u8], relation: u32, block: u32) -> usize
    requires { 96 ≤ length buf.old }
    ensures start { result ≤ length buf.new }
    ensures written { drop result buf.new ≡ new_line relation block }
{
    let at = put(buf, buf.len(), b" new\n");
    put_place(buf, at, relation, block)
}

/// Writes the line of a damaged page at the end of the buffer, and says where it starts.
pub(crate) fn put_damaged_line(buf: &mut [u8], relation: u32, block: u32, page: &Page) -> usize
    requires { 96 ≤ length buf.old }
    ensures start { result ≤ length buf.new }
    ensures written { drop result buf.new ≡ damaged_line relation block (header_of page.now) }
{
    let header = header(page);
    let at = put(buf, buf.len(), b"\n");
    let at = put_bounds(buf, at, &header);
    let at = put_number(buf, at, u32::from(header.flags));
    let at = put(buf, at, b" damaged flags ");
    put_place(buf, at, relation, block)
}

/// Writes the first line of a valid page and the lines of so many line pointers at the end of the
/// buffer, and says where they start. A valid page is new exactly where its upper is 0, so the check
/// is not made again.
pub(crate) fn put_first_lines(
    buf: &mut [u8],
    relation: u32,
    block: u32,
    page: &Page,
    items: u16,
) -> usize
    requires valid { IsValid page.now }
    requires in_page { items ≤ line_pointer_count page.now }
    requires room { 96 + 32 * items ≤ length buf.old }
    ensures start { result ≤ length buf.new }
    ensures written { drop result buf.new ≡ text_up_to relation block page.now items }
{
    if header(page).upper == 0 {
        return put_new_line(buf, relation, block);
    }
    let at = put_items(buf, page, 0, items);
    put_page_line(buf, at, relation, block, page)
}
