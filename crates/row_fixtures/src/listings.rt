//! What rows say of a listing, of the error stream and of reads.
use crate::files::halves;
use aio_disk::ReadEntry;
use std::alloc::Global;
use std::test::Fail;

// What is listed of a page: of an empty one, of zeros, of a damaged one `D` or `F`, or of an empty
// one that is damaged by its checksum.
fn page_words(kind: &str) -> &'static str {
    match kind {
        "new" => "new",
        "D" => "damaged flags 0 lower 0 upper 0 special 0",
        "F" => "damaged flags 8 lower 24 upper 8192 special 8192",
        "E" => "damaged flags 0 lower 24 upper 8192 special 8192",
        _ => "lower 24 upper 8192 special 8192 items 0",
    }
}

/// The listing that these words say, or the lines behind a colon.
pub fn listing_of(alloc: Global, words: &str) -> Result<String, Fail> {
    if let Some(lines) = words.trim().strip_prefix(':') {
        return said_of(alloc, lines);
    }
    let mut text = String::new(alloc);
    for word in words.split_whitespace() {
        let (place, kind) = halves(word, '=');
        let (relation, blocks) = halves(place, '/');
        let (first, last) = halves(blocks, '-');
        let first: u32 = first.parse()?;
        let last = if last.is_empty() {
            first
        } else {
            last.parse()?
        };
        for block in first..last.saturating_add(1) {
            writeln!(text, "page {relation} {block} {}", page_words(kind))?;
        }
    }
    Ok(text)
}

/// The lines of empty pages of relation 0.
pub fn empty_lines(alloc: Global, first: u32, after: u32) -> Result<String, Fail> {
    let mut text = String::new(alloc);
    for block in first..after {
        writeln!(
            text,
            "page 0 {block} lower 24 upper 8192 special 8192 items 0"
        )?;
    }
    Ok(text)
}

/// What these words say of the error stream.
pub fn said_of(alloc: Global, words: &str) -> Result<String, Fail> {
    let mut said = String::new(alloc);
    for line in words.split(';') {
        let line = line.trim();
        if let Some(count) = line.strip_prefix("totals ") {
            writeln!(said, "incarnations {count} workers 0 backends {count}")?;
        } else if !line.is_empty() {
            writeln!(said, "{line}")?;
        }
    }
    Ok(said)
}

// The reads in the form that a row has them.
fn reads_text(alloc: Global, log: &[ReadEntry]) -> Result<String, Fail> {
    let mut text = String::new(alloc);
    if log.is_empty() {
        text.push_str(" none")?;
    }
    for entry in log {
        let ReadEntry {
            relation,
            first,
            asked,
            answered,
            ..
        } = *entry;
        match answered {
            Some(came) => write!(text, " {relation}/{first}+{asked}={came}")?,
            None => write!(text, " {relation}/{first}+{asked}!")?,
        }
    }
    Ok(text)
}

/// Fails where the reads are others than these words say.
pub fn check_reads(alloc: Global, name: &str, log: &[ReadEntry], words: &str) -> Result<(), Fail> {
    let made = reads_text(alloc, log)?;
    if made.split_whitespace().eq(words.split_whitespace()) {
        return Ok(());
    }
    Err(Fail::new(format_args!("{name}: reads{made}, wanted {words}")))
}
