//! Random maps and requests, beside a plain lister of the blocks that a map does not mark.
use crate::map_runs::HEADER;
use crate::random_requests::{expect_outcome, line_of, pick, random_block, random_file};
use crate::settings::random_settings;
use page_check::DamagedPages;
use page_fixtures::checksums::page_as;
use page_fixtures::pages::{DAMAGED, Parts, ZEROS, bytes_of};
use row_fixtures::plain_lister::{RandomRequest, is_valid_page, reference_run};
use std::alloc::{AllocError, Global};
use std::process::Abort;
use std::sync::Wait;
use std::test::Fail;
use std::thread::Threads;

// Whether a page of a map marks a block as visible, or as frozen.
fn is_marked(page: &[u8], frozen: bool, block: u32) -> bool {
    let byte = page.get(24 + block as usize / 4).copied().unwrap_or(0);
    let bits = match block % 4 {
        0 => byte,
        1 => byte / 4,
        2 => byte / 16,
        _ => byte / 64,
    };
    let bit = if frozen { bits / 2 } else { bits };
    bit % 2 == 1
}

// The first block that is asked for of a file of so many bytes, and the one after the last.
fn range_of(asked: &RandomRequest, bytes: usize) -> (u32, u32) {
    let blocks = (bytes / 8192).min(1000) as u32;
    let after = asked.to.map_or(blocks, |last| last.saturating_add(1));
    (asked.from.unwrap_or(0), after)
}

// The listing, what is said and the status for those blocks of the file `a` that this page of a
// map does not mark, each listed alone.
fn reference_unmarked(
    alloc: Global,
    (from, after): (u32, u32),
    asked: &RandomRequest,
    contents: &[Vec<u8>],
    (page, frozen): (&[u8], bool),
) -> Result<(String, String, u8), Fail> {
    let (mut text, mut said) = (String::new(alloc), String::new(alloc));
    for block in from..after {
        if is_marked(page, frozen, block) {
            continue;
        }
        let alone = RandomRequest {
            from: Some(block),
            to: Some(block),
            files: vec![in alloc; 0usize]?,
            checksums: asked.checksums,
            damaged: asked.damaged,
            check: false,
        };
        let (listed, told, status) = reference_run(alloc, &alone, contents)?;
        text.push_str(listed.as_str())?;
        said.push_str(told.as_str())?;
        if status != 0 {
            return Ok((text, said, status));
        }
    }
    Ok((text, said, 0))
}

// The same for the file `a` by the map `b`, whose first page is read where it is there and blocks
// are asked for.
fn reference_run_by_map(
    alloc: Global,
    asked: &RandomRequest,
    frozen: bool,
    contents: &[Vec<u8>],
) -> Result<(String, String, u8), Fail> {
    let empty = Vec::new(alloc);
    let range = range_of(asked, contents.first().unwrap_or(&empty).len());
    let page = contents.get(1).unwrap_or(&empty).as_slice();
    if range.0 >= range.1 || page.is_empty() || is_valid_page(0, page, asked.checksums) {
        return reference_unmarked(alloc, range, asked, contents, (page, frozen));
    }
    if asked.damaged == DamagedPages::Refuse {
        let said = String::from_str(alloc, "invalid page 1 0\n")?;
        return Ok((String::new(alloc), said, 1));
    }
    let (text, told, status) = reference_unmarked(alloc, range, asked, contents, (&[], frozen))?;
    let mut said = String::from_str(alloc, "zeroed page 1 0\n")?;
    said.push_str(told.as_str())?;
    Ok((text, said, status))
}

// A map without pages, one whose page is damaged or of zeros, or one with bits for eight blocks,
// mostly with its checksum.
fn random_map(alloc: Global, state: &mut u64) -> Result<Vec<u8>, AllocError> {
    let bits = [pick(state, 256) as u8, pick(state, 256) as u8];
    let marking = [(12, HEADER), (24, bits.as_slice())];
    match pick(state, 8) {
        0 => Ok(Vec::new(alloc)),
        1 => bytes_of(alloc, &[DAMAGED]),
        2 => bytes_of(alloc, &[ZEROS]),
        3 => bytes_of(alloc, &[&marking]),
        _ => Vec::from_slice(alloc, page_as(&marking, 0).bytes()),
    }
}

// Runs a random request by a random map, and compares what it shows with the plain lister's.
fn compare_by_map<R: Abort + AllocGlobal + Threads + Wait + Sync>(
    rt: &R,
    request: u32,
    state: &mut u64,
) -> Result<(), Fail> {
    let alloc = rt.alloc();
    let (a, b) = (random_file(alloc, state)?, random_map(alloc, state)?);
    let contents = vec![in alloc; a.clone()?, b.clone()?]?;
    let asked = RandomRequest {
        from: random_block(state),
        to: random_block(state),
        files: vec![in alloc; 0usize]?,
        checksums: pick(state, 2) == 0,
        damaged: if pick(state, 2) == 0 {
            DamagedPages::Zero
        } else {
            DamagedPages::Refuse
        },
        check: false,
    };
    let frozen = pick(state, 2) == 0;
    let mut settings = random_settings(alloc, state)?;
    settings.push_str(" --map b --skip ")?;
    settings.push_str(if frozen { "frozen" } else { "visible" })?;
    let line = line_of(alloc, &asked, settings.as_str())?;
    let (text, said, status) = reference_run_by_map(alloc, &asked, frozen, contents.as_slice())?;
    let wanted = (text.as_str(), said.as_str(), status);
    expect_outcome(rt, request, line.as_str(), (a, b), wanted)
}

// Compares 1,000 random requests by random maps, under random settings.
fn check_maps<R: Abort + AllocGlobal + Threads + Wait + Sync>(
    rt: &R,
    mut state: u64,
) -> Result<(), Fail> {
    for request in 0..1000 {
        compare_by_map(rt, request, &mut state)?;
    }
    Ok(())
}

#[test]
fn random_maps_of_the_first_seed(rt: HostRuntime) -> Result<(), Fail> {
    check_maps(&rt, 20261128)
}

#[test]
fn random_maps_of_the_second_seed(rt: HostRuntime) -> Result<(), Fail> {
    check_maps(&rt, 20261129)
}
