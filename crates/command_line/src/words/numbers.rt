//! The numbers that words stand for.
ghost use Rattle.std.specs.Prelude.{◌≡◌, ◌≤◌, IfSome};
ghost use Rattle.std.specs.List.{list_all};
ghost use Rattle.std.specs.Char.{is_ascii_digit, is_digit};
ghost use Rattle.clap.specs.Words.{rows_of, found_of, first_of};
ghost use Rattle.command_line.specs.Numbers.{hexadecimal_of, is_hexadecimal, is_number, lsn_of};
ghost use Rattle.command_line.specs.Numbers.{lsn_if_given, number_if_given, number_or};
ghost use Rattle.command_line.specs.Numbers.{number_within as number_read};

use super::values::{is_count, text_of};
use clap::ArgMatches;
use page_faults::Lsn;

fn all_digits(word: &str) -> bool
    ensures { result ≡ list_all is_ascii_digit word.now }
{
    word.as_bytes().iter().all(|byte| byte.is_ascii_digit())
}

fn is_number(word: &str, digits: usize) -> bool
    ensures { result ≡ is_number digits word.now }
{
    is_count(word.len(), digits) && all_digits(word)
}

// A number of 1 to so many digits that lies in a range.
fn number_within(word: &str, digits: usize, least: u32, most: u32) -> Option<u32>
    ensures number { result ≡ number_read digits least most word.now }
    ensures within { IfSome result (λ n. (least ≤ n) × (n ≤ most)) }
{
    if !is_number(word, digits) {
        return None;
    }
    let Ok(number) = word.parse::<u32>() else {
        return None;
    };
    if least <= number && number <= most {
        Some(number)
    } else {
        None
    }
}

/// The number of an option, or its default where the option is not given.
pub fn number(
    matches: &ArgMatches<'_>,
    name: &str,
    least: u32,
    most: u32,
    default: u32,
) -> Option<u32>
    ensures number { result ≡
        number_or least most default (first_of name.now (rows_of (found_of matches.now))) }
    ensures within { least ≤ default → default ≤ most
        → IfSome result (λ n. (least ≤ n) × (n ≤ most)) }
{
    match text_of(matches, name) {
        None => Some(default),
        Some(word) => number_within(word, 7, least, most),
    }
}

/// The number of an option that has no default.
pub fn number_given(
    matches: &ArgMatches<'_>,
    name: &str,
    digits: usize,
    least: u32,
    most: u32,
) -> Option<Option<u32>>
    ensures number { result ≡
        number_if_given digits least most (first_of name.now (rows_of (found_of matches.now))) }
    ensures within { IfSome result (λ given. IfSome given (λ n. (least ≤ n) × (n ≤ most))) }
{
    match text_of(matches, name) {
        None => Some(None),
        Some(word) => Some(Some(number_within(word, digits, least, most)?)),
    }
}

fn all_hexadecimal(word: &str) -> bool
    ensures { result ≡ list_all (λ c. is_digit c 16) word.now }
{
    word.as_bytes()
        .iter()
        .all(|byte| char::from(*byte).is_digit(16))
}

fn is_hexadecimal(word: &str) -> bool
    ensures { result ≡ is_hexadecimal word.now }
{
    is_count(word.len(), 8) && all_hexadecimal(word)
}

// A hexadecimal number of 1 to 8 digits.
fn hexadecimal(word: &str) -> Option<u32>
    ensures { result ≡ hexadecimal_of word.now }
{
    if !is_hexadecimal(word) {
        return None;
    }
    match u32::from_str_radix(word, 16) {
        Ok(number) => Some(number),
        Err(_) => None,
    }
}

// Two hexadecimal numbers with a slash between them.
fn lsn(word: &str) -> Option<Lsn>
    ensures { result ≡ lsn_of word.now }
{
    let (high, low) = word.split_once('/')?;
    Some(Lsn {
        high: hexadecimal(high)?,
        low: hexadecimal(low)?,
    })
}

/// The place in the write-ahead log that an option gives.
pub fn lsn_given(matches: &ArgMatches<'_>, name: &str) -> Option<Option<Lsn>>
    ensures { result ≡ lsn_if_given (first_of name.now (rows_of (found_of matches.now))) }
{
    match text_of(matches, name) {
        None => Some(None),
        Some(word) => Some(Some(lsn(word)?)),
    }
}
