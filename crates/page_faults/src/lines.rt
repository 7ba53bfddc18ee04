//! The lines of faults, each written from its end to its start.
ghost use Rattle.std.specs.Prelude.{◌≡◌, ◌++◌, ◌<◌, ◌≤◌, ◌+◌, length, drop, codes, decimal, true};
ghost use Rattle.std.specs.Fmt.{digit_glyph};
ghost use Rattle.heap_scan.specs.PageText.{kind_word};
ghost use Rattle.page_faults.specs.FaultsText.{hex, header_text, lsn_text, item_text};
ghost use Rattle.page_faults.specs.FaultsText.{item_number_text, what_text, fault_line};

use crate::{Fault, Lsn};
use heap_scan::backward::{put, put_number};
use page_check::{Kind, LinePointer};

/// At most so many bytes has the line of a fault.
pub(crate) const LINE_ROOM: usize = 128;

/// How many hexadecimal digits a number of 32 bits has at most.
const HEX_DIGITS: usize = 8;

fn hex_digit(digit: u32) -> u8
    requires { digit < 16 }
    ensures { result ≡ digit_glyph true digit }
{
    let digit = digit as u8;
    if digit < 10 {
        b'0' + digit
    } else {
        b'A' - 10 + digit
    }
}

// A number in hexadecimal, upper case, without leading zeros.
fn put_hex(buf: &mut [u8], end: usize, number: u32) -> usize
    requires room { 8 ≤ end }
    requires within { end ≤ length buf.old }
    ensures start { (result ≤ end) × (end ≤ result + 8) }
    ensures written { drop result buf.new ≡ hex number ++ drop end buf.old }
{
    let mut rest = number;
    for count in 0..HEX_DIGITS {
        let at = end - 1 - count;
        buf[at] = hex_digit(rest % 16);
        rest /= 16;
        if rest == 0 {
            return at;
        }
    }
    end - HEX_DIGITS
}

// The word for a kind of line pointer.
fn put_kind(buf: &mut [u8], end: usize, kind: Kind) -> usize
    requires room { 8 ≤ end }
    requires within { end ≤ length buf.old }
    ensures start { (result ≤ end) × (end ≤ result + 8) }
    ensures written { drop result buf.new ≡ kind_word kind ++ drop end buf.old }
{
    match kind {
        Kind::Unused => put(buf, end, b"unused"),
        Kind::Normal => put(buf, end, b"normal"),
        Kind::Redirect => put(buf, end, b"redirect"),
        Kind::Dead => put(buf, end, b"dead"),
    }
}

// `header flags N lower N upper N special N`.
fn put_header(buf: &mut [u8], end: usize, flags: u16, lower: u16, upper: u16, special: u16) -> usize
    requires room { 90 ≤ end }
    requires within { end ≤ length buf.old }
    ensures start { (result ≤ end) × (end ≤ result + 80) }
    ensures written { drop result buf.new
        ≡ header_text flags lower upper special ++ drop end buf.old }
{
    let at = put_number(buf, end, u32::from(special));
    let at = put(buf, at, b" special ");
    let at = put_number(buf, at, u32::from(upper));
    let at = put(buf, at, b" upper ");
    let at = put_number(buf, at, u32::from(lower));
    let at = put(buf, at, b" lower ");
    let at = put_number(buf, at, u32::from(flags));
    put(buf, at, b"header flags ")
}

// `checksum N expected N`.
fn put_checksum(buf: &mut [u8], end: usize, stored: u16, computed: u16) -> usize
    requires room { 90 ≤ end }
    requires within { end ≤ length buf.old }
    ensures start { (result ≤ end) × (end ≤ result + 80) }
    ensures written { drop result buf.new ≡ what_text (Fault.Checksum stored computed)
        ++ drop end buf.old }
{
    let at = put_number(buf, end, u32::from(computed));
    let at = put(buf, at, b" expected ");
    let at = put_number(buf, at, u32::from(stored));
    put(buf, at, b"checksum ")
}

// `lsn HEX/HEX`.
fn put_lsn(buf: &mut [u8], end: usize, lsn: Lsn) -> usize
    requires room { 90 ≤ end }
    requires within { end ≤ length buf.old }
    ensures start { (result ≤ end) × (end ≤ result + 80) }
    ensures written { drop result buf.new ≡ lsn_text lsn.high lsn.low ++ drop end buf.old }
{
    let at = put_hex(buf, end, lsn.low);
    let at = put(buf, at, b"/");
    let at = put_hex(buf, at, lsn.high);
    put(buf, at, b"lsn ")
}

// A word and a number.
fn put_word_number(buf: &mut [u8], end: usize, word: &[u8], number: u32) -> usize
    requires room { 90 ≤ end }
    requires word { length word.now ≤ 10 }
    requires within { end ≤ length buf.old }
    ensures start { (result ≤ end) × (end ≤ result + 20) }
    ensures written { drop result buf.new ≡ word.now ++ decimal number ++ drop end buf.old }
{
    let at = put_number(buf, end, number);
    put(buf, at, word)
}

// `item I KIND OFFSET LENGTH`.
fn put_item(buf: &mut [u8], end: usize, item: u16, pointer: LinePointer) -> usize
    requires room { 90 ≤ end }
    requires within { end ≤ length buf.old }
    ensures start { (result ≤ end) × (end ≤ result + 80) }
    ensures written { drop result buf.new ≡ item_text item pointer ++ drop end buf.old }
{
    let at = put_number(buf, end, u32::from(pointer.length));
    let at = put(buf, at, b" ");
    let at = put_number(buf, at, u32::from(pointer.offset));
    let at = put(buf, at, b" ");
    let at = put_kind(buf, at, pointer.kind);
    let at = put(buf, at, b" ");
    let at = put_number(buf, at, u32::from(item));
    put(buf, at, b"item ")
}

// `item I WORD N`.
fn put_item_number(buf: &mut [u8], end: usize, item: u16, word: &[u8], number: u32) -> usize
    requires room { 60 ≤ end }
    requires word { length word.now ≤ 10 }
    requires within { end ≤ length buf.old }
    ensures start { (result ≤ end) × (end ≤ result + 40) }
    ensures written { drop result buf.new
        ≡ item_number_text item word.now number ++ drop end buf.old }
{
    let at = put_number(buf, end, number);
    let at = put(buf, at, word);
    let at = put_number(buf, at, u32::from(item));
    put(buf, at, b"item ")
}

// `item I hoff N expected N`.
fn put_hoff(buf: &mut [u8], end: usize, item: u16, hoff: u8, expected: u32) -> usize
    requires room { 90 ≤ end }
    requires within { end ≤ length buf.old }
    ensures start { (result ≤ end) × (end ≤ result + 80) }
    ensures written { drop result buf.new ≡ what_text (Fault.Hoff item hoff expected)
        ++ drop end buf.old }
{
    let at = put_number(buf, end, expected);
    let at = put(buf, at, b" expected ");
    put_item_number(buf, at, item, b" hoff ", u32::from(hoff))
}

// What is told of a fault.
fn put_what(buf: &mut [u8], end: usize, fault: Fault) -> usize
    requires room { 90 ≤ end }
    requires within { end ≤ length buf.old }
    ensures start { (result ≤ end) × (end ≤ result + 80) }
    ensures written { drop result buf.new ≡ what_text fault ++ drop end buf.old }
{
    match fault {
        Fault::Header {
            flags,
            lower,
            upper,
            special,
        } => put_header(buf, end, flags, lower, upper, special),
        Fault::Checksum { stored, computed } => put_checksum(buf, end, stored, computed),
        Fault::Lsn { lsn } => put_lsn(buf, end, lsn),
        Fault::Version { version } => put_word_number(buf, end, b"version ", u32::from(version)),
        Fault::Lower { lower } => put_word_number(buf, end, b"lower ", u32::from(lower)),
        Fault::Item { item, pointer } => put_item(buf, end, item, pointer),
        Fault::Overlap { item, other } => {
            put_item_number(buf, end, item, b" overlaps ", u32::from(other))
        }
        Fault::Hoff {
            item,
            hoff,
            expected,
        } => put_hoff(buf, end, item, hoff, expected),
        Fault::Mask { item, mask } => put_item_number(buf, end, item, b" mask ", u32::from(mask)),
        Fault::Xmin { item, xmin } => put_item_number(buf, end, item, b" xmin ", xmin),
        Fault::Xmax { item, xmax } => put_item_number(buf, end, item, b" xmax ", xmax),
        Fault::Misplaced { block } => put_word_number(buf, end, b"misplaced ", block),
    }
}

/// Writes the line of a fault at the end of the buffer, and says where it starts.
#[tactic(auto, unfolding(crate::specs::FaultsText::fault_line))]
pub(crate) fn put_fault(buf: &mut [u8], relation: u32, block: u32, fault: Fault) -> usize
    requires { 128 ≤ length buf.old }
    ensures start { result ≤ length buf.new }
    ensures written { drop result buf.new ≡ fault_line relation block fault }
{
    let at = put(buf, buf.len(), b"\n");
    let at = put_what(buf, at, fault);
    let at = put(buf, at, b" ");
    let at = put_number(buf, at, block);
    let at = put(buf, at, b" ");
    let at = put_number(buf, at, relation);
    put(buf, at, b"fault ")
}
