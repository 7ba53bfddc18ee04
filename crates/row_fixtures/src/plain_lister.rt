//! A reference lister: plain and slow.
use page_check::DamagedPages;
use page_fixtures::checksums::plain_checksum;
use std::alloc::Global;
use std::test::Fail;

// A number of `size` bytes, the lowest first.
fn number(bytes: &[u8], offset: usize, size: usize) -> u32 {
    let (mut value, mut unit) = (0u32, 1u32);
    for byte in bytes.get(offset..).unwrap_or(&[]).iter().take(size) {
        value = value.wrapping_add(unit.wrapping_mul(u32::from(*byte)));
        unit = unit.wrapping_mul(256);
    }
    value
}

// Appends the text of a line pointer.
fn list_item(text: &mut String, item: u32, pointer: u32) -> Result<(), Fail> {
    let word = ["unused", "normal", "redirect", "dead"][(pointer / 32768 % 4) as usize];
    let (offset, length) = (pointer % 32768, pointer / 131072);
    writeln!(text, "item {item} {word} {offset} {length}")?;
    Ok(())
}

fn is_new(page: &[u8]) -> bool {
    page.iter().all(|byte| *byte == 0)
}

fn has_sane_header(page: &[u8]) -> bool {
    let (flags, lower) = (number(page, 10, 2), number(page, 12, 2));
    let (upper, special) = (number(page, 14, 2), number(page, 16, 2));
    let in_order = lower <= upper && upper <= special && special <= 8192;
    upper != 0 && flags <= 7 && in_order && special % 8 == 0
}

/// Whether it is a valid page, by its checksum too where those are verified.
pub fn is_valid_page(block: u32, page: &[u8], checksums: bool) -> bool {
    if is_new(page) || !checksums {
        return is_new(page) || has_sane_header(page);
    }
    has_sane_header(page) && number(page, 8, 2) == u32::from(plain_checksum(page, block))
}

// How many line pointers a page has.
fn item_count(page: &[u8]) -> u32 {
    (number(page, 12, 2).saturating_sub(24) / 4).min(2042)
}

// Appends the text of a valid page.
fn list_page(text: &mut String, relation: usize, block: u32, page: &[u8]) -> Result<(), Fail> {
    if is_new(page) {
        writeln!(text, "page {relation} {block} new")?;
        return Ok(());
    }
    let (lower, upper, special) = (
        number(page, 12, 2),
        number(page, 14, 2),
        number(page, 16, 2),
    );
    let items = item_count(page);
    writeln!(
        text,
        "page {relation} {block} lower {lower} upper {upper} special {special} items {items}"
    )?;
    for index in 0..items {
        list_item(text, index + 1, number(page, 24 + 4 * index as usize, 4))?;
    }
    Ok(())
}

/// What is asked for: the first and the last block, and files by their numbers.
#[derive(Drop)]
pub struct RandomRequest {
    pub from: Option<u32>,
    pub to: Option<u32>,
    pub files: Vec<usize>,
    /// Whether checksums are verified.
    pub checksums: bool,
    /// What becomes of damaged pages.
    pub damaged: DamagedPages,
    /// Whether faults are told in place of a listing.
    pub check: bool,
}

/// What a run has shown, and of what.
#[derive(Drop)]
struct Shown {
    text: String,
    said: String,
    pages: u32,
    new: u32,
    faults: u32,
}

impl Shown {
    fn nothing(alloc: Global) -> Shown {
        Shown {
            text: String::new(alloc),
            said: String::new(alloc),
            pages: 0,
            new: 0,
            faults: 0,
        }
    }

    // Counts a fault, whose line begins so.
    fn begin_fault(&mut self, relation: usize, block: u32) -> Result<(), Fail> {
        self.faults = self.faults.saturating_add(1);
        write!(self.text, "fault {relation} {block} ")?;
        Ok(())
    }
}

// Appends the flags, and where the parts of a page begin.
fn list_header(text: &mut String, page: &[u8]) -> Result<(), Fail> {
    let (flags, lower) = (number(page, 10, 2), number(page, 12, 2));
    let (upper, special) = (number(page, 14, 2), number(page, 16, 2));
    writeln!(
        text,
        " flags {flags} lower {lower} upper {upper} special {special}"
    )?;
    Ok(())
}

// Appends the faults of a page whose normal items are in their places, and whose tuples are zeros.
fn check_page(
    shown: &mut Shown,
    relation: usize,
    block: u32,
    page: &[u8],
    checksums: bool,
) -> Result<(), Fail> {
    shown.pages = shown.pages.saturating_add(1);
    if is_new(page) {
        shown.new = shown.new.saturating_add(1);
        return Ok(());
    }
    let sane = has_sane_header(page);
    if !sane {
        shown.begin_fault(relation, block)?;
        shown.text.push_str("header")?;
        list_header(&mut shown.text, page)?;
    }
    if checksums {
        let (stored, sum) = (number(page, 8, 2), u32::from(plain_checksum(page, block)));
        if stored != sum {
            shown.begin_fault(relation, block)?;
            writeln!(shown.text, "checksum {stored} expected {sum}")?;
        }
    }
    for index in 0..if sane { item_count(page) } else { 0 } {
        let pointer = number(page, 24 + 4 * index as usize, 4);
        if pointer / 32768 % 4 == 1 {
            shown.begin_fault(relation, block)?;
            writeln!(shown.text, "item {} hoff 0 expected 24", index + 1)?;
        }
    }
    Ok(())
}

// Shows what a block gives, and says the status, 0 where the run goes on.
fn reference_block(
    shown: &mut Shown,
    relation: usize,
    block: u32,
    page: &[u8],
    asked: &RandomRequest,
) -> Result<u8, Fail> {
    if asked.check {
        check_page(shown, relation, block, page, asked.checksums)?;
        return Ok(0);
    }
    if is_valid_page(block, page, asked.checksums) {
        list_page(&mut shown.text, relation, block, page)?;
        return Ok(0);
    }
    match asked.damaged {
        DamagedPages::Refuse => {
            writeln!(shown.said, "invalid page {relation} {block}")?;
            return Ok(1);
        }
        DamagedPages::Zero => {
            writeln!(shown.text, "page {relation} {block} new")?;
            writeln!(shown.said, "zeroed page {relation} {block}")?;
        }
        DamagedPages::Give => {
            shown.faults = shown.faults.saturating_add(1);
            write!(shown.text, "page {relation} {block} damaged")?;
            list_header(&mut shown.text, page)?;
        }
    }
    Ok(0)
}

// The same for the blocks of a file that are asked for.
fn reference_file(
    shown: &mut Shown,
    asked: &RandomRequest,
    relation: usize,
    bytes: &[u8],
) -> Result<u8, Fail> {
    let blocks = (bytes.len() / 8192).min(1000) as u32;
    let after = asked.to.map_or(blocks, |last| last.saturating_add(1));
    for block in asked.from.unwrap_or(0)..after {
        if block >= blocks {
            writeln!(shown.said, "no page {relation} {block}")?;
            return Ok(6);
        }
        let page = bytes.get(8192 * block as usize..).unwrap_or(&[]);
        let page = page.get(..8192).unwrap_or(&[]);
        let status = reference_block(shown, relation, block, page, asked)?;
        if status != 0 {
            return Ok(status);
        }
    }
    Ok(0)
}

// The same for all files, up to the first status that ends the run.
fn reference_files(
    alloc: Global,
    shown: &mut Shown,
    asked: &RandomRequest,
    contents: &[Vec<u8>],
) -> Result<u8, Fail> {
    let first_named = asked.files.as_slice().first().copied().unwrap_or(0);
    let empty = Vec::new(alloc);
    for file in asked.files.as_slice() {
        let relation = if *file == first_named { 0usize } else { 1 };
        let bytes = contents.get(*file).unwrap_or(&empty).as_slice();
        let status = reference_file(shown, asked, relation, bytes)?;
        if status != 0 {
            return Ok(status);
        }
    }
    Ok(0)
}

/// The output, what is said on the error stream and the status for two files `a` and `b`.
pub fn reference_run(
    alloc: Global,
    asked: &RandomRequest,
    contents: &[Vec<u8>],
) -> Result<(String, String, u8), Fail> {
    let mut shown = Shown::nothing(alloc);
    let mut status = reference_files(alloc, &mut shown, asked, contents)?;
    let Shown {
        mut text,
        said,
        pages,
        new,
        faults,
    } = shown;
    if status == 0 {
        status = if faults > 0 { 1 } else { 0 };
        if asked.check {
            writeln!(text, "pages {pages} new {new} faults {faults}")?;
        }
    }
    Ok((text, said, status))
}
