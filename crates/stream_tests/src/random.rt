//! Random streams beside a plain slow reader.
ghost use Rattle.std.specs.Prelude.{◌≤◌, IfOk};

use crate::helpers::answers::{Answer, wanted_answer};
use crate::helpers::cases::{Blocks, CASE, Case};
use crate::helpers::numbers::Numbers;
use crate::helpers::outcomes::run;
use page_check::PageRules;
use page_fixtures::files::{Faults, STEADY};
use read_stream::Settings;
use std::alloc::Global;
use std::process::Abort;
use std::sync::Wait;
use std::test::Fail;

/// What a reader answers that reads one block after the other.
fn slow(
    alloc: Global,
    case: &Case<'_>,
    list: &[(u32, u32)],
    calls: u32,
) -> Result<Vec<Answer>, Fail> {
    let mut all = Vec::new(alloc);
    let mut stop = None;
    for entry in list {
        if stop.is_none() {
            let answer = if entry.0 < case.blocks {
                wanted_answer(case, *entry)
            } else {
                Answer::PastEnd(entry.0)
            };
            match answer {
                Answer::Invalid(_) | Answer::PastEnd(_) => stop = Some(answer),
                _ => all.push(answer)?,
            }
        }
    }
    for _ in all.len()..calls as usize {
        all.push(stop.unwrap_or(Answer::End))?;
    }
    Ok(all)
}

/// Whether the answers are the slow ones, or those up to a block at which a read began that failed,
/// and then that it was not read.
fn agree(all: &[Answer], slow: &[Answer], list: &[(u32, u32)], failed: &[u32]) -> bool {
    let mut unread = None;
    for (index, (answer, expected)) in all.iter().zip(slow).enumerate() {
        if unread.is_none() && answer != expected {
            match list.get(index) {
                Some((block, _)) if failed.contains(block) => {
                    unread = Some(Answer::Unread(*block));
                }
                _ => return false,
            }
        }
        if *answer != unread.unwrap_or(*expected) {
            return false;
        }
    }
    all.len() == slow.len()
}

/// Whether a read, of so many blocks from its first on, crosses a multiple of the segment size.
fn crosses(reads: &[(u32, u32)], segment: u32) -> bool
    requires { 1 ≤ segment }
{
    for (first, asked) in reads {
        if u64::from(first % segment) + u64::from(*asked) > u64::from(segment) {
            return true;
        }
    }
    false
}

/// A random file, its faults, lists of its blocks and how they are read.
#[derive(Drop)]
struct Drawn {
    blocks: u32,
    damaged: Vec<u32>,
    wrong_checksum: Option<u32>,
    others: PageRules,
    list: Vec<(u32, u32)>,
    settings: Settings,
    fail_reads: Vec<(u32, u64)>,
    shorts: Vec<u32>,
    first: Vec<(u32, u32)>,
    handles: u32,
    with_other: bool,
}

fn draw(alloc: Global, numbers: &mut Numbers) -> Result<Drawn, Fail>
    ensures { IfOk result (λ d. 1 ≤ d.settings.segment) }
{
    let blocks = 4 + numbers.below(9);
    let limit = blocks + numbers.below(2);
    Ok(Drawn {
        blocks,
        damaged: numbers.some_of(alloc, blocks)?,
        wrong_checksum: numbers.one_of(blocks),
        others: numbers.rules(),
        list: numbers.list(alloc, 24, limit)?,
        settings: numbers.settings(),
        fail_reads: numbers.fault(alloc)?,
        shorts: numbers.shorts(alloc)?,
        first: numbers.list(alloc, 8, blocks)?,
        handles: 1 + numbers.below(4),
        with_other: numbers.below(8) == 0,
    })
}

fn case_of(drawn: &Drawn) -> Case<'_> {
    let other = if drawn.with_other {
        Some(Blocks::These(&[]))
    } else {
        None
    };
    Case {
        blocks: drawn.blocks,
        damaged: drawn.damaged.as_slice(),
        wrong_checksum: drawn.wrong_checksum,
        others: drawn.others,
        faults: Faults {
            reads: drawn.fail_reads.as_slice(),
            shorts: drawn.shorts.as_slice(),
            ..STEADY
        },
        handles: drawn.handles,
        frames: 16,
        settings: drawn.settings,
        other,
        first: Blocks::These(drawn.first.as_slice()),
        list: Blocks::These(drawn.list.as_slice()),
        ..CASE
    }
}

/// Compares five hundred random streams, of which failed reads stop more than twenty.
fn compare<R: Abort + AllocGlobal + Wait>(rt: &R, seed: u64) -> Result<(), Fail> {
    let alloc = rt.alloc();
    let mut numbers = Numbers(seed);
    let mut stopped = 0u32;
    for round in 0..500u32 {
        let drawn = draw(alloc, &mut numbers)?;
        let case = case_of(&drawn);
        let list = drawn.list.as_slice();
        let calls = list.len().min(100) as u32 + 2;
        let slow = slow(alloc, &case, list, calls)?;
        let ran = run(rt, &case, calls)?;
        let (all, slow) = (ran.all.as_slice(), slow.as_slice());
        assert!(rt;
            agree(all, slow, list, ran.failed.as_slice()),
            "round {round}"
        );
        assert!(rt;
            !crosses(ran.reads.as_slice(), drawn.settings.segment),
            "round {round}: a read of two segments"
        );
        if all != slow {
            stopped = stopped.saturating_add(1);
        }
    }
    assert!(rt; stopped > 20, "only {stopped} failed reads");
    Ok(())
}

#[test]
fn random_streams_of_the_first_seed(rt: HostRuntime) -> Result<(), Fail> {
    compare(&rt, 1)
}

#[test]
fn random_streams_of_the_second_seed(rt: HostRuntime) -> Result<(), Fail> {
    compare(&rt, 2)
}

#[test]
fn random_streams_of_the_third_seed(rt: HostRuntime) -> Result<(), Fail> {
    compare(&rt, 3)
}

#[test]
fn random_streams_of_the_fourth_seed(rt: HostRuntime) -> Result<(), Fail> {
    compare(&rt, 4)
}
