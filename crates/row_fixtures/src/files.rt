//! Files of pages, each page by a letter.
use page_check::{PAGE_SIZE, Page};
use page_fixtures::checksums::{page_as, with_checksum};
use page_fixtures::files::{Files, one_file};
use page_fixtures::pages::{DAMAGED, EMPTY, FLAGGED, Parts, ZEROS, bytes_of, page_of};
use std::alloc::{AllocError, Global};
use std::test::Fail;

// Marks blocks 0, 1 and 3 as visible, and 4 as visible and frozen.
const MARKED: Parts<'static> = &[(12, &[24, 0, 0, 32, 0, 32, 4, 32]), (24, &[0x45, 3])];

// Marks block 32671, the last one of a page, as visible and frozen.
const LAST_MARKED: Parts<'static> = &[(12, &[24, 0, 0, 32, 0, 32, 4, 32]), (8191, &[0xc0])];

// Marks the first block of a page as visible.
const FIRST_MARKED: Parts<'static> = &[(12, &[24, 0, 0, 32, 0, 32, 4, 32]), (24, &[1])];

// The page that a letter stands for.
fn page_parts(letter: u8) -> Result<Parts<'static>, Fail> {
    match letter {
        b'E' => Ok(EMPTY),
        b'Z' => Ok(ZEROS),
        b'D' => Ok(DAMAGED),
        b'F' => Ok(FLAGGED),
        b'M' => Ok(MARKED),
        b'L' => Ok(LAST_MARKED),
        b'O' => Ok(FIRST_MARKED),
        _ => Err(Fail::from("no page has this letter")),
    }
}

// A page with this checksum, or with that of the block which is next in these bytes.
fn summed_page(parts: Parts<'_>, sum: &str, bytes: &[u8]) -> Result<Page, Fail> {
    match sum {
        "" => Ok(page_of(parts)),
        "own" => Ok(page_as(parts, (bytes.len() / PAGE_SIZE).min(1000) as u32)),
        _ => Ok(with_checksum(page_of(parts), sum.parse()?)),
    }
}

// Appends these pages, each by its letter, with this checksum.
fn push_pages(bytes: &mut Vec<u8>, pages: &str, sum: &str) -> Result<(), Fail> {
    let mut times = 0usize;
    for letter in pages.as_bytes() {
        if letter.is_ascii_digit() {
            times = times
                .wrapping_mul(10)
                .wrapping_add(usize::from(letter & 15));
            continue;
        }
        if *letter == b'.' {
            bytes.extend_from_slice(&[0; 100])?;
            continue;
        }
        let parts = page_parts(*letter)?;
        for _ in 0..times.max(1) {
            let page = summed_page(parts, sum, bytes.as_slice())?;
            bytes.extend_from_slice(page.bytes())?;
        }
        times = 0;
    }
    Ok(())
}

/// The two parts of a word, with this character between them.
pub(crate) fn halves(word: &str, between: char) -> (&str, &str) {
    let mut parts = word.split(between);
    (parts.next().unwrap_or(""), parts.next().unwrap_or(""))
}

/// The bytes of these pages, each by its letter, with a number before it where it comes so often. A
/// `.` is a part of a block. Behind a `@` stands their checksum, and behind a comma are more pages.
pub fn pages_file(alloc: Global, pages: &str) -> Result<Vec<u8>, Fail> {
    let mut bytes = Vec::new(alloc);
    for part in pages.split(',') {
        let (letters, sum) = halves(part, '@');
        push_pages(&mut bytes, letters, sum)?;
    }
    Ok(bytes)
}

/// A file of so many empty pages.
pub fn empty_file(alloc: Global, pages: usize) -> Result<Vec<u8>, AllocError> {
    bytes_of(alloc, vec![in alloc; EMPTY; pages]?.as_slice())
}

/// Two files of these names.
pub fn two_files(
    alloc: Global,
    (name, file): (&str, Vec<u8>),
    (second, other): (&str, Vec<u8>),
) -> Result<Files, AllocError> {
    let mut files = one_file(alloc, name, file)?;
    files.push((String::from_str(alloc, second)?, other))?;
    Ok(files)
}
