//! Random requests, on which a run and the reference lister are compared.
ghost use Rattle.std.specs.Prelude.{◌<◌};

use crate::settings::random_settings;
use aioscan_fixtures::runs::{TestOutcome, check_outcome, run};
use page_check::{DamagedPages, Page};
use page_fixtures::checksums::{EMPTY_SUMS, plain_checksum, with_checksum};
use page_fixtures::files::STEADY;
use page_fixtures::pages::{DAMAGED, EMPTY, Parts, ZEROS, bytes_of, page_of};
use row_fixtures::files::two_files;
use row_fixtures::plain_lister::{RandomRequest, reference_run};
use std::alloc::{AllocError, Global};
use std::process::Abort;
use std::sync::Wait;
use std::test::Fail;
use std::thread::Threads;

const TWO_ITEMS: Parts<'static> = &[
    (12, &[32, 0, 0, 16, 0, 32, 4, 32]),
    (24, &[0xd8, 0x9f, 0x50, 0, 0, 0x80, 1, 0]),
];

// A number below `limit`, and the next state.
pub(crate) fn pick(state: &mut u64, limit: u64) -> u64
    requires { 0 < limit }
    ensures { result < limit }
{
    *state = state
        .wrapping_mul(6364136223846793005)
        .wrapping_add(1442695040888963407);
    (*state >> 33) % limit
}

/// Its checksums as blocks 0 to 4, by the plain rule.
const TWO_ITEMS_SUMS: [u16; 5] = [55989, 55990, 55991, 55992, 55993];

// A page with its checksum as this block. One in eight has that of the next block.
fn random_summed(parts: Parts<'_>, sums: &[u16], block: u64, state: &mut u64) -> Page {
    let skipped = if pick(state, 8) == 0 { 1 } else { 0 };
    let sum = sums.iter().skip(block as usize).nth(skipped);
    with_checksum(page_of(parts), sum.copied().unwrap_or(0))
}

/// A file of up to four pages, one in eight of them damaged, and some with another checksum than
/// they are to have.
pub(crate) fn random_file(alloc: Global, state: &mut u64) -> Result<Vec<u8>, AllocError> {
    let mut bytes = Vec::new(alloc);
    for block in 0..pick(state, 5) {
        let page = match pick(state, 8) {
            0 => page_of(DAMAGED),
            1 | 2 => page_of(ZEROS),
            3 | 4 => random_summed(TWO_ITEMS, &TWO_ITEMS_SUMS, block, state),
            _ => random_summed(EMPTY, &EMPTY_SUMS, block, state),
        };
        bytes.extend_from_slice(page.bytes())?;
    }
    Ok(bytes)
}

#[test]
fn checksums_of_two_items(rt: HostRuntime) -> Result<(), Fail> {
    let page = page_of(TWO_ITEMS);
    for (block, sum) in TWO_ITEMS_SUMS.into_iter().enumerate() {
        assert_eq!(rt;
            plain_checksum(page.bytes(), block as u32),
            sum,
            "block {block}"
        );
    }
    Ok(())
}

/// A block number below 5, or none.
pub(crate) fn random_block(state: &mut u64) -> Option<u32> {
    match pick(state, 10) {
        block @ 0..5 => Some(block as u32),
        _ => None,
    }
}

/// What becomes of damaged pages, and whether faults are told in place of a listing.
pub(crate) type DamagedWords = (DamagedPages, bool);

fn random_request(
    alloc: Global,
    state: &mut u64,
    (damaged, check): DamagedWords,
) -> Result<RandomRequest, AllocError> {
    let mut files = Vec::new(alloc);
    for _ in 0..1 + pick(state, 3) {
        files.push(if pick(state, 2) == 0 { 0usize } else { 1 })?;
    }
    Ok(RandomRequest {
        from: random_block(state),
        to: random_block(state),
        files,
        checksums: pick(state, 2) == 0,
        damaged,
        check,
    })
}

/// The words that ask for this.
pub(crate) fn line_of(
    alloc: Global,
    asked: &RandomRequest,
    settings: &str,
) -> Result<String, Fail> {
    let mut line = String::from_str(alloc, settings)?;
    if let Some(block) = asked.from {
        write!(line, " --from {block}")?;
    }
    if let Some(block) = asked.to {
        write!(line, " --to={block}")?;
    }
    if asked.checksums {
        line.push_str(" --checksums")?;
    }
    line.push_str(match (asked.check, asked.damaged) {
        (true, _) => " --check",
        (false, DamagedPages::Refuse) => "",
        (false, DamagedPages::Zero) => " --zero-damaged",
        (false, DamagedPages::Give) => " --show-damaged",
    })?;
    for file in asked.files.as_slice() {
        line.push_str(if *file == 0 { " a" } else { " b" })?;
    }
    Ok(line)
}

/// Runs a line over the files `a` and `b`, and compares the listing, what is said and the status.
pub(crate) fn expect_outcome<R: Abort + AllocGlobal + Threads + Wait + Sync>(
    rt: &R,
    request: u32,
    line: &str,
    (a, b): (Vec<u8>, Vec<u8>),
    wanted: TestOutcome<'_>,
) -> Result<(), Fail> {
    let files = two_files(rt.alloc(), ("a", a), ("b", b))?;
    let done = run(rt, files, STEADY, line, (&[], &[]))?;
    let name = format!(in rt.alloc(); "request {request}: {line}")?;
    check_outcome(name.as_str(), &done, wanted)
}

// Runs a request over the files `a` and `b`, and compares what it shows with what the reference
// lister gives.
fn compare<R: Abort + AllocGlobal + Threads + Wait + Sync>(
    rt: &R,
    request: u32,
    asked: &RandomRequest,
    settings: &str,
    a: Vec<u8>,
    b: Vec<u8>,
) -> Result<(), Fail> {
    let alloc = rt.alloc();
    let contents = vec![in alloc; a.clone()?, b.clone()?]?;
    let (text, said, status) = reference_run(alloc, asked, contents.as_slice())?;
    let line = line_of(alloc, asked, settings)?;
    let wanted = (text.as_str(), said.as_str(), status);
    expect_outcome(rt, request, line.as_str(), (a, b), wanted)
}

// Runs a random request under random settings, and compares what it shows.
fn compare_random<R: Abort + AllocGlobal + Threads + Wait + Sync>(
    rt: &R,
    request: u32,
    state: &mut u64,
    words: DamagedWords,
) -> Result<(), Fail> {
    let alloc = rt.alloc();
    let a = random_file(alloc, state)?;
    let b = random_file(alloc, state)?;
    let asked = random_request(alloc, state, words)?;
    let settings = random_settings(alloc, state)?;
    compare(rt, request, &asked, settings.as_str(), a, b)
}

/// Compares 2,000 random requests under random settings with the reference lister.
pub(crate) fn check_requests<R: Abort + AllocGlobal + Threads + Wait + Sync>(
    rt: &R,
    mut state: u64,
    words: DamagedWords,
) -> Result<(), Fail> {
    for request in 0..2000 {
        compare_random(rt, request, &mut state, words)?;
    }
    Ok(())
}

// A random file with one more damaged page.
fn damaged_file(alloc: Global, state: &mut u64) -> Result<Vec<u8>, AllocError> {
    let mut file = random_file(alloc, state)?;
    file.extend_from_slice(bytes_of(alloc, &[DAMAGED])?.as_slice())?;
    file.extend_from_slice(random_file(alloc, state)?.as_slice())?;
    Ok(file)
}

/// Compares 500 random damaged files, by both methods, with the reference lister.
pub(crate) fn check_damaged_files<R: Abort + AllocGlobal + Threads + Wait + Sync>(
    rt: &R,
    mut state: u64,
    (damaged, check): DamagedWords,
) -> Result<(), Fail> {
    let alloc = rt.alloc();
    for file in 0..500 {
        let asked = RandomRequest {
            from: None,
            to: None,
            files: vec![in alloc; 0usize]?,
            checksums: pick(&mut state, 2) == 0,
            damaged,
            check,
        };
        let bytes = damaged_file(alloc, &mut state)?;
        let again = bytes.clone()?;
        compare(rt, file, &asked, "--method sync", bytes, Vec::new(alloc))?;
        compare(rt, file, &asked, "--method worker", again, Vec::new(alloc))?;
    }
    Ok(())
}

#[test]
fn random_requests_of_the_first_seed(rt: HostRuntime) -> Result<(), Fail> {
    check_requests(&rt, 20261126, (DamagedPages::Refuse, false))
}

#[test]
fn random_requests_of_the_second_seed(rt: HostRuntime) -> Result<(), Fail> {
    check_requests(&rt, 20261127, (DamagedPages::Refuse, false))
}

#[test]
fn random_requests_of_the_third_seed(rt: HostRuntime) -> Result<(), Fail> {
    check_requests(&rt, 20261128, (DamagedPages::Refuse, false))
}

#[test]
fn random_requests_of_the_fourth_seed(rt: HostRuntime) -> Result<(), Fail> {
    check_requests(&rt, 20261129, (DamagedPages::Refuse, false))
}

#[test]
fn random_requests_of_the_fifth_seed(rt: HostRuntime) -> Result<(), Fail> {
    check_requests(&rt, 20261130, (DamagedPages::Refuse, false))
}
