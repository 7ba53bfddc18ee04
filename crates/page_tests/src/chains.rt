//! Update chains of pages of many items, and of random pages beside a plain slow list of them.
use crate::tuples::{header_with, put_header, text_of};
use heap_tuple::{TupleHeader, tuples_text};
use page_check::{Kind, Page, Verdict, check};
use page_fixtures::pages::{BOUNDS, CONTENTS, bounds, line_pointer_bytes, page_of, put_bytes};
use std::alloc::{AllocError, Global};
use std::test::Fail;

// Writes the line pointer at an index, of an item of 24 bytes.
fn put_item(page: &mut Page, index: u16, offset: u16) {
    let pointer = line_pointer_bytes(offset, Kind::Normal, 24);
    put_bytes(page, CONTENTS + 4 * usize::from(index), &pointer);
}

// A page of these tuples of 24 bytes, of which it has room for 291.
fn page_of_tuples(tuples: &[TupleHeader]) -> Page {
    let lower = (24 + 4 * tuples.len().min(291)) as u16;
    let mut page = page_of(&[(BOUNDS, &bounds(lower, 1208, 8192))]);
    for index in 0..291u16 {
        if let Some(tuple) = tuples.get(usize::from(index)) {
            let offset = 8192 - 24 * (index + 1);
            put_item(&mut page, index, offset);
            put_header(&mut page, usize::from(offset), tuple);
        }
    }
    page
}

// As many tuples as a page has room for, each updated into the next.
#[test]
fn one_chain_of_291_tuples(rt: HostRuntime) -> Result<(), Fail> {
    let mut tuples: Vec<TupleHeader> = Vec::new(rt.alloc());
    for item in 0..291u16 {
        let xmin = u32::from(item);
        tuples.push(header_with(xmin, xmin + 1, (item + 2).min(291)))?;
    }
    let text = text_of(&rt, &page_of_tuples(tuples.as_slice()))?;
    assert!(rt; text.ends_with(b"\nchains 1 longest 291\n"));
    Ok(())
}

// 2042 items, of which 2036 share a header that lies over the other six: it names item 1.
#[test]
fn all_items_step_to_the_first(rt: HostRuntime) -> Result<(), Fail> {
    let mut page = page_of(&[(BOUNDS, &bounds(8192, 8192, 8192))]);
    for index in 0..2036 {
        put_item(&mut page, index, 8168);
    }
    put_header(&mut page, 8168, &header_with(0, 0, 1));
    let text = text_of(&rt, &page)?;
    assert!(rt; text.ends_with(b"\nchains 2035 longest 2\n"));
    Ok(())
}

// 2042 items, whose headers lie over the line pointers, behind what the vector held before.
#[test]
fn as_many_items_as_there_can_be(rt: HostRuntime) -> Result<(), Fail> {
    let mut page = page_of(&[(BOUNDS, &bounds(8192, 8192, 8192))]);
    for index in 0..2042u16 {
        put_item(&mut page, index, 24 + 4 * (index % 2000));
    }
    let mut out = Vec::from_slice(rt.alloc(), b"before\n")?;
    assert!(rt; check(&page) == Verdict::Sane);
    tuples_text(0, 0, &page, &mut out)?;
    assert!(rt; out.starts_with(b"before\npage 0 0 lower 8192 "));
    assert!(rt; out.ends_with(b"\nchains 2042 longest 1\n"));
    Ok(())
}

// The item to which a tuple steps, by its index.
fn slow_step(tuples: &[TupleHeader], index: usize) -> Option<usize> {
    let from = *tuples.get(index)?;
    let next = usize::from(from.position.checked_sub(1)?);
    let to = *tuples.get(next)?;
    if next != index && to.xmin == from.xmax {
        Some(next)
    } else {
        None
    }
}

// How many chains there are, and how long the longest is: each root is followed by itself.
fn slow_chains(alloc: Global, tuples: &[TupleHeader]) -> Result<(usize, usize), AllocError> {
    let mut roots = 0usize;
    let mut longest = 0usize;
    for root in 0..tuples.len() {
        if (0..tuples.len()).any(|index| slow_step(tuples, index) == Some(root)) {
            continue;
        }
        roots = roots.saturating_add(1);
        let mut chain: Vec<usize> = Vec::new(alloc);
        let mut at = Some(root);
        for _ in 0..tuples.len() {
            let Some(index) = at else { break };
            if chain.iter().any(|other| *other == index) {
                break;
            }
            chain.push(index)?;
            at = slow_step(tuples, index);
        }
        longest = longest.max(chain.len());
    }
    Ok((roots, longest))
}

// Pages of 1 to 12 tuples whose transactions and positions are few, so that many step to one item
// or in circles.
#[test]
fn random_chains(rt: HostRuntime) -> Result<(), Fail> {
    let alloc = rt.alloc();
    let mut seed = 1u32;
    for round in 0..300u32 {
        let items = 1 + round % 12;
        let mut tuples: Vec<TupleHeader> = Vec::new(alloc);
        for _ in 0..items {
            seed = seed.wrapping_mul(1_664_525).wrapping_add(1_013_904_223);
            let bits = seed >> 8;
            let position = 1 + (bits / 4 % items) as u16;
            tuples.push(header_with(bits % 2, bits / 2 % 2, position))?;
        }
        let (roots, longest) = slow_chains(alloc, tuples.as_slice())?;
        let wanted = format!(in alloc; "\nchains {roots} longest {longest}\n")?;
        let text = text_of(&rt, &page_of_tuples(tuples.as_slice()))?;
        assert!(rt;
            text.ends_with(wanted.as_bytes()),
            "round {round}: {wanted}"
        );
    }
    Ok(())
}
