//! Pieces of a text that is written from its end to its start, for whoever writes lines.
//!
//! Backward, a number needs no count of its digits before it is written. Each call writes one
//! piece so that it ends at `end`, says where the piece starts, and leaves what stands behind it.
ghost use Rattle.std.specs.Prelude.{◌≡◌, ◌++◌, ◌∷◌, ◌<◌, ◌≤◌, ◌+◌, ◌-◌, ◌/◌, ◌%◌, length};
ghost use Rattle.std.specs.Prelude.{drop, decimal, codes};
ghost use Rattle.heap_scan.specs.PageText.{kind_word};

use crate::numbers::DECIMALS;
use itoa::write_digits;
use page_check::Kind;
use std::simd::prelude::*;

/// Writes a piece so that it ends at `end`, and says where it starts. What stands behind it stays.
#[inline]
pub fn put(buf: &mut [u8], end: usize, piece: &[u8]) -> usize
    requires room { length piece.now ≤ end }
    requires within { end ≤ length buf.old }
    ensures start { result + length piece.now ≡ end }
    ensures written { drop result buf.new ≡ piece.now ++ drop end buf.old }
{
    let start = end - piece.len();
    buf[start..end].copy_from_slice(piece);
    start
}

// A number at the end of eight bytes, and how long it is.
#[inline]
fn padded_number(number: u16) -> (u8x8, usize)
    requires { number < 10000 }
    ensures size { (length result.0 ≡ 8) × (result.1 ≤ 4) }
    ensures len { result.1 ≡ length (decimal number) }
    ensures text { drop (8 - result.1) result.0 ≡ decimal number }
{
    let entry = DECIMALS[number as usize];
    (
        u64x1::splat(entry << 8).to_le_bytes(),
        (entry % 256) as usize - 1,
    )
}

// A number of at most four digits, by one copy of eight bytes: those before the digits are written
// over later.
#[inline]
fn put_short_number(buf: &mut [u8], end: usize, number: u16) -> usize
    requires short { number < 10000 }
    requires room { 8 ≤ end }
    requires within { end ≤ length buf.old }
    ensures start { result + length (decimal number) ≡ end }
    ensures written { drop result buf.new ≡ decimal number ++ drop end buf.old }
{
    let (text, len) = padded_number(number);
    text.copy_to_slice(&mut buf[end - 8..]);
    end - len
}

// The two digits of a number below 100, by one copy of eight bytes: the digits of 100 more, of which
// the first is written over later.
#[inline]
fn put_two_digits(buf: &mut [u8], end: usize, number: u16) -> usize
    requires short { number < 100 }
    requires room { 8 ≤ end }
    requires within { end ≤ length buf.old }
    ensures start { result + 2 ≡ end }
    ensures written { drop result buf.new
        ≡ (48 + number / 10) ∷ (48 + number % 10) ∷ drop end buf.old }
{
    let _ = put_short_number(buf, end, 100 + number);
    end - 2
}

// The last four digits of a number of more than four.
#[inline]
fn put_last_digits(buf: &mut [u8], end: usize, number: u32) -> usize
    requires long { 10000 ≤ number }
    requires room { 10 ≤ end }
    requires within { end ≤ length buf.old }
    ensures start { result + 4 ≡ end }
    ensures written { decimal (number / 10000) ++ drop result buf.new
        ≡ decimal number ++ drop end buf.old }
{
    let at = put_two_digits(buf, end, (number % 100) as u16);
    put_two_digits(buf, at, (number / 100 % 100) as u16)
}

// A number of more than four digits, where there is room for whole copies.
#[inline]
fn put_long_number(buf: &mut [u8], end: usize, number: u32) -> usize
    requires long { 10000 ≤ number }
    requires room { 16 ≤ end }
    requires within { end ≤ length buf.old }
    ensures start { result + length (decimal number) ≡ end }
    ensures written { drop result buf.new ≡ decimal number ++ drop end buf.old }
{
    let at = put_last_digits(buf, end, number);
    let front = number / 10000;
    if front < 10000 {
        return put_short_number(buf, at, front as u16);
    }
    let at = put_last_digits(buf, at, front);
    put_short_number(buf, at, (front / 10000) as u16)
}

// A number of any length, where there is little room.
#[cold]
#[inline(never)]
fn put_number_in_little_room(buf: &mut [u8], end: usize, number: u32) -> usize
    requires room { 10 ≤ end }
    requires within { end ≤ length buf.old }
    ensures start { result + length (decimal number) ≡ end }
    ensures written { drop result buf.new ≡ decimal number ++ drop end buf.old }
{
    write_digits(u64::from(number), buf, end)
}

/// The same for a number in decimal: at most ten digits, and of one below 100000 at most five.
#[inline]
pub fn put_number(buf: &mut [u8], end: usize, number: u32) -> usize
    requires room { 10 ≤ end }
    requires within { end ≤ length buf.old }
    ensures start { result + length (decimal number) ≡ end }
    ensures long { length (decimal number) ≤ 10 }
    ensures short { number < 100000 → length (decimal number) ≤ 5 }
    ensures written { drop result buf.new ≡ decimal number ++ drop end buf.old }
{
    if number < 10000 {
        put_short_number(buf, end, number as u16)
    } else if end < 16 {
        put_number_in_little_room(buf, end, number)
    } else {
        put_long_number(buf, end, number)
    }
}

// A number and a blank at the end of eight bytes, and how long they are.
#[inline]
fn padded_number_blank(number: u16) -> (u8x8, usize)
    requires { number < 10000 }
    ensures size { (length result.0 ≡ 8) × (result.1 ≤ 5) }
    ensures len { result.1 ≡ length (decimal number) + 1 }
    ensures text { drop (8 - result.1) result.0 ≡ decimal number ++ codes " " }
{
    let entry = DECIMALS[number as usize];
    (u64x1::splat(entry).to_le_bytes(), (entry % 256) as usize)
}

/// Writes a number below 10000 and a blank behind it so that they end at `end`, by one copy of eight
/// bytes: those before the digits are written over later.
#[inline]
pub(crate) fn put_short_number_blank(buf: &mut [u8], end: usize, number: u16) -> usize
    requires short { number < 10000 }
    requires room { 8 ≤ end }
    requires within { end ≤ length buf.old }
    ensures start { result + (length (decimal number) + 1) ≡ end }
    ensures long { end ≤ result + 5 }
    ensures written { drop result buf.new ≡ decimal number ++ (codes " " ++ drop end buf.old) }
{
    let (text, len) = padded_number_blank(number);
    text.copy_to_slice(&mut buf[end - 8..]);
    end - len
}

/// The same with the end of the line in place of the blank.
#[inline]
pub(crate) fn put_short_number_newline(buf: &mut [u8], end: usize, number: u16) -> usize
    requires short { number < 10000 }
    requires room { 8 ≤ end }
    requires within { end ≤ length buf.old }
    ensures start { (result ≤ end) × (end ≤ result + 5) }
    ensures written { drop result buf.new ≡ decimal number ++ (codes "\n" ++ drop end buf.old) }
{
    let start = put_short_number_blank(buf, end, number);
    buf[end - 1] = b'\n';
    start
}

/// Writes `item ` so that it ends at `end`, by one copy of eight bytes: those before it are written
/// over later.
#[inline]
pub(crate) fn put_item_word(buf: &mut [u8], end: usize) -> usize
    requires room { 8 ≤ end }
    requires within { end ≤ length buf.old }
    ensures start { result + 5 ≡ end }
    ensures written { drop result buf.new ≡ codes "item " ++ drop end buf.old }
{
    u8x8::from_array(*b"   item ").copy_to_slice(&mut buf[end - 8..]);
    end - 5
}

// The words for the kinds and a blank, each at the end of 16 bytes, of which the first says how
// long they are.
static KIND_WORDS: [[u8; 16]; 4] = [
    *b"\x07        unused ",
    *b"\x07        normal ",
    *b"\x09      redirect ",
    *b"\x05          dead ",
];

// The word for a kind and a blank, and how long they are.
#[inline]
fn padded_word(kind: Kind) -> (u8x16, usize)
    ensures size { (length result.0 ≡ 16) × (result.1 ≤ 9) }
    ensures word { drop (16 - result.1) result.0 ≡ kind_word kind ++ codes " " }
{
    let word = KIND_WORDS[kind as usize];
    (u8x16::from_array(word), usize::from(word[0]))
}

// The word for a kind and a blank, by one copy of 16 bytes: those before the word are written over
// later.
#[inline]
pub(crate) fn put_word(buf: &mut [u8], end: usize, kind: Kind) -> usize
    requires room { 16 ≤ end }
    requires within { end ≤ length buf.old }
    ensures start { (result ≤ end) × (end ≤ result + 9) }
    ensures written { drop result buf.new ≡ kind_word kind ++ (codes " " ++ drop end buf.old) }
{
    let (word, len) = padded_word(kind);
    word.copy_to_slice(&mut buf[end - 16..]);
    end - len
}
