//! Random rings beside a plain list.
ghost use Rattle.std.specs.Prelude.{◌<◌};

use crate::ring::sim_ring::picks_and_reads;
use std::alloc::{AllocError, Global};
use std::process::Abort;
use std::test::Fail;

/// A number below `limit` that looks random, and the next state.
fn below(state: &mut u64, limit: u32) -> u32
    requires { 0 < limit }
    ensures { result < limit }
{
    *state = state
        .wrapping_mul(6364136223846793005)
        .wrapping_add(1442695040888963407);
    (*state >> 33) as u32 % limit
}

/// An order of up to four numbers, most of them beyond what is pending.
fn random_order(alloc: Global, state: &mut u64) -> Result<Vec<u32>, AllocError> {
    let mut order = Vec::new(alloc);
    for _ in 0..below(state, 5) {
        order.push(below(state, 100))?;
    }
    Ok(order)
}

/// The numbers below `count`.
fn all_below(alloc: Global, count: u32) -> Result<Vec<u32>, AllocError> {
    let mut numbers = Vec::new(alloc);
    for number in 0..count {
        numbers.push(number)?;
    }
    Ok(numbers)
}

/// The place of the pick of this turn among so many: that of the order, counted around, or the
/// first where there is no order.
fn place_of(order: &[u32], turn: usize, count: usize) -> usize
    requires { 0 < count }
    ensures { result < count }
{
    if order.is_empty() {
        0
    } else {
        order[turn % order.len()] as usize % count
    }
}

/// These numbers in the order in which the turns take them out, one after the other.
fn plain_order(alloc: Global, order: &[u32], numbers: Vec<u32>) -> Result<Vec<u32>, AllocError> {
    let mut left = numbers;
    let mut taken = Vec::new(alloc);
    for turn in 0..left.len() {
        let place = place_of(order, turn, left.len());
        taken.push(left.remove(place))?;
    }
    Ok(taken)
}

/// Whether a random ring picks and reads as the plain list says. One that does not names itself by
/// this number.
fn compare<R: Abort + AllocGlobal>(rt: &R, state: &mut u64, ring: u32) -> Result<(), Fail> {
    let alloc = rt.alloc();
    let count = 1 + below(state, 8);
    let order = random_order(alloc, state)?;
    let expected = plain_order(alloc, order.as_slice(), all_below(alloc, count)?)?;
    let Some((picked, read)) = picks_and_reads(rt, order, count)? else {
        panic!(rt; "ring {ring}: a read is not picked, fails or is left pending")
    };
    assert_eq!(rt;
        picked.as_slice(),
        expected.as_slice(),
        "ring {ring}: the picks"
    );
    assert_eq!(rt;
        read.as_slice(),
        expected.as_slice(),
        "ring {ring}: the reads"
    );
    Ok(())
}

#[test]
fn random_rings_complete_as_a_plain_list(rt: HostRuntime) -> Result<(), Fail> {
    let mut state = 1;
    for ring in 0..2000 {
        compare(&rt, &mut state, ring)?;
    }
    Ok(())
}
