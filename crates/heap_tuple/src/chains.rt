//! Update chains: how many begin on a page, and how long the longest is.
//!
//! Items are followed one after the other, and the length of each chain is written down at its
//! items. So no item is passed twice, also where two items step to the same one or steps go in a
//! circle.
ghost use Rattle.std.specs.Prelude.{◌≡◌, ℕ, ◌≤◌, ◌<◌, ◌+◌, [], true, false, length, OnOk};
ghost use Rattle.std.specs.Prelude.{IfOk, IfSome, Some, slice_index, slice_index_or, ◌==◌};
ghost use Rattle.page_check.specs.Verdict.{IsValid};
ghost use Rattle.page_check.specs.LinePointers.{line_pointer_count};
ghost use Rattle.heap_tuple.specs.Tuples.{step_of};
ghost use Rattle.heap_tuple.specs.Chains.{StepsPass, contains, is_root, roots_of, longest_of};
ghost use Rattle.heap_tuple.specs.Chains.{chain_of};
ghost use Rattle.heap_tuple.specs.ChainLengths.{AreChainLengths, IsPath, PassedAreKnown, ClosesCircle};
ghost use Rattle.heap_tuple.specs.ChainLengths.{AreStepTargets};

use crate::{step, tuple};
use page_check::{Page, count};
use std::alloc::{AllocError, Global};

// Passes the items from one on that were not passed before, and says where it stopped: at an item
// that was passed before, or nowhere.
fn pass_items(
    page: &Page,
    block: u32,
    passed: &mut [bool],
    path: &mut Vec<u16>,
    first: u16,
) -> Result<Option<u16>, AllocError>
    requires valid { IsValid page.now }
    requires size { length passed.old ≡ line_pointer_count page.now }
    requires first { first < line_pointer_count page.now }
    requires empty { path.old.items ≡ [] }
    ensures size { length passed.new ≡ length passed.old }
    ensures path { OnOk result (IsPath passed.old passed.new path.new.items) }
    ensures steps { IfOk result (λ at.
        StepsPass (step_of page.now block) (Some first) path.new.items at) }
    ensures stop { IfOk result (λ at. IfSome at (λ x. slice_index_or passed.new x false ≡ true)) }
{
    let mut item = first;
    while !passed[usize::from(item)] {
        passed[usize::from(item)] = true;
        path.push(item)?;
        match step(page, block, item) {
            Some(next) => item = next,
            None => return Ok(None),
        }
    }
    Ok(Some(item))
}

// Writes down one number at all these items.
fn set_lengths(lengths: &mut [u16], items: &[u16], chain: u16)
    requires inside { (x : ℕ) → contains items.now x ≡ true → x < length lengths.old }
    ensures size { length lengths.new ≡ length lengths.old }
    ensures there { (x : ℕ) → contains items.now x ≡ true → slice_index lengths.new x ≡ chain }
    ensures elsewhere { (x : ℕ) → contains items.now x ≡ false
        → slice_index lengths.new x ≡ slice_index lengths.old x }
{
    for item in items {
        lengths[usize::from(*item)] = chain;
    }
}

// Where an item stands.
fn place_of(items: &[u16], item: u16) -> usize
    ensures { contains items.now item ≡ true
        → (result < length items.now) × (slice_index items.now result ≡ item) }
{
    for (place, other) in items.iter().enumerate() {
        if *other == item {
            return place;
        }
    }
    items.len()
}

// Takes the items from one on off a path that comes back to it, and writes down at each of them how
// many they are.
fn close_circle(lengths: &mut [u16], path: &mut Vec<u16>, item: u16) -> u16
    requires few { length lengths.old ≤ 2042 }
    requires path { length path.old.items ≤ length lengths.old }
    requires inside { (x : ℕ) → contains path.old.items x ≡ true → x < length lengths.old }
    requires back { contains path.old.items item ≡ true }
    ensures size { length lengths.new ≡ length lengths.old }
    ensures circle { ClosesCircle lengths.old lengths.new path.old.items path.new.items item
        result }
{
    let start = place_of(path, item);
    let chain = (path.len() - start) as u16;
    set_lengths(lengths, &path[start..], chain);
    path.truncate(start);
    chain
}

// The length of the chain of an item. It is written down, and so is that of each item of the chain.
fn chain_length(
    page: &Page,
    block: u32,
    lengths: &mut [u16],
    passed: &mut [bool],
    path: &mut Vec<u16>,
    first: u16,
) -> Result<u16, AllocError>
    requires valid { IsValid page.now }
    requires lengths { length lengths.old ≡ line_pointer_count page.now }
    requires passed { length passed.old ≡ line_pointer_count page.now }
    requires first { first < line_pointer_count page.now }
    requires empty { path.old.items ≡ [] }
    requires known { AreChainLengths (step_of page.now block) lengths.old }
    requires marked { PassedAreKnown passed.old lengths.old }
    ensures lengths { length lengths.new ≡ length lengths.old }
    ensures passed { length passed.new ≡ length passed.old }
    ensures empty { OnOk result (path.new.items ≡ []) }
    ensures known { OnOk result (AreChainLengths (step_of page.now block) lengths.new) }
    ensures marked { OnOk result (PassedAreKnown passed.new lengths.new) }
    ensures chain { IfOk result (λ chain. chain ≡ length (chain_of page.now block first)) }
{
    let at = pass_items(page, block, passed, path, first)?;
    let mut chain = match at {
        Some(item) => {
            let known = lengths[usize::from(item)];
            if known > 0 {
                known
            } else {
                close_circle(lengths, path, item)
            }
        }
        None => 0,
    };
    while let Some(item) = path.pop() {
        chain += 1;
        lengths[usize::from(item)] = chain;
    }
    Ok(chain)
}

// Which items others step to.
fn reached_items(alloc: Global, page: &Page, block: u32) -> Result<Vec<bool>, AllocError>
    requires valid { IsValid page.now }
    ensures size { IfOk result (λ reached. length reached.items ≡ line_pointer_count page.now) }
    ensures marks { IfOk result (λ reached.
        AreStepTargets page.now block (line_pointer_count page.now) reached.items) }
{
    let items = count(page);
    let mut reached = vec![in alloc; false; usize::from(items)]?;
    for index in 0..items {
        if let Some(next) = step(page, block, index) {
            reached[usize::from(next)] = true;
        }
    }
    Ok(reached)
}

// Whether an item begins a chain: it is inside the page, and no item steps to it.
fn is_first(page: &Page, reached: &[bool], index: u16) -> bool
    requires valid { IsValid page.now }
    requires index { index < line_pointer_count page.now }
    requires size { length reached.now ≡ line_pointer_count page.now }
    ensures { (block : ℕ) → AreStepTargets page.now block (line_pointer_count page.now) reached.now
        → result ≡ is_root page.now block index }
{
    tuple(page, index).is_some() && !reached[usize::from(index)]
}

/// The update chains of a page.
#[derive(Clone, Copy, Debug, PartialEq, Eq)]
pub(crate) struct Chains {
    /// How many begin: items inside the page to which no item steps.
    pub(crate) roots: u16,
    /// How many items the longest has.
    pub(crate) longest: u16,
}

// Follows each first item.
fn measure_chains(
    page: &Page,
    block: u32,
    reached: &[bool],
    lengths: &mut [u16],
    passed: &mut [bool],
    path: &mut Vec<u16>,
) -> Result<Chains, AllocError>
    requires valid { IsValid page.now }
    requires reached { length reached.now ≡ line_pointer_count page.now }
    requires marks { AreStepTargets page.now block (line_pointer_count page.now) reached.now }
    requires lengths { length lengths.old ≡ line_pointer_count page.now }
    requires passed { length passed.old ≡ line_pointer_count page.now }
    requires empty { path.old.items ≡ [] }
    requires known { AreChainLengths (step_of page.now block) lengths.old }
    requires marked { PassedAreKnown passed.old lengths.old }
    ensures roots { IfOk result (λ chains. chains.roots ≡ length (roots_of page.now block)) }
    ensures longest { IfOk result (λ chains. chains.longest ≡ longest_of page.now block) }
{
    let mut roots = 0;
    let mut longest = 0;
    for index in 0..count(page) {
        if is_first(page, reached, index) {
            let chain = chain_length(page, block, lengths, passed, path, index)?;
            roots += 1;
            longest = chain.max(longest);
        }
    }
    Ok(Chains { roots, longest })
}

/// Counts the update chains of the page of a block. It takes memory four times, in all 6 bytes for
/// each item.
pub(crate) fn count_chains(alloc: Global, page: &Page, block: u32) -> Result<Chains, AllocError>
    requires valid { IsValid page.now }
    ensures roots { IfOk result (λ chains. chains.roots ≡ length (roots_of page.now block)) }
    ensures longest { IfOk result (λ chains. chains.longest ≡ longest_of page.now block) }
{
    let items = usize::from(count(page));
    let reached = reached_items(alloc, page, block)?;
    let mut lengths = vec![in alloc; 0u16; items]?;
    let mut passed = vec![in alloc; false; items]?;
    let mut path = Vec::with_capacity(alloc, items)?;
    measure_chains(
        page,
        block,
        &reached,
        lengths.as_mut_slice(),
        passed.as_mut_slice(),
        &mut path,
    )
}
