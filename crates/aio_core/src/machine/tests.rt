use super::*;
use crate::machine::tests::slow_machine::SlowMachine;
use crate::machine::tests::some_events::some_event;
use crate::{RunRefusal, StepRefusal};
use std::alloc::Global;
use std::process::Abort;
use std::test::Fail;

mod slow_machine;
mod some_events;

fn event(actor: u32, handle: u32, generation: u64, step: Step) -> Event {
    Event {
        actor,
        handle,
        generation,
        step,
    }
}

fn word_of(machine: &Machine, handle: u32) -> Option<u64> {
    if (handle as usize) < machine.words.len() {
        Some(machine.word(handle))
    } else {
        None
    }
}

/// One I/O of one backend, which the runner claims and reads in part.
#[test]
fn claimed_by_the_runner(rt: HostRuntime) -> Result<(), Fail> {
    let mut machine = Machine::open(rt.alloc(), 1, 1, 1, 6)?;
    assert_eq!(rt; word_of(&machine, 0), Some(384));
    let submitted = machine.run(&[
        event(0, 0, 6, Step::HandOut),
        event(0, 0, 6, Step::Define),
        event(0, 0, 6, Step::Stage),
        event(0, 0, 6, Step::Submit),
    ]);
    assert_eq!(rt; submitted, Ok(()));
    assert_eq!(rt; word_of(&machine, 0), Some(388));
    let by_the_owner = event(0, 0, 6, Step::Io(Class::Short));
    let refused = machine.run(&[event(1, 0, 6, Step::Claim), by_the_owner]);
    let not_allowed = StepRefusal::NotAllowed {
        event: by_the_owner,
        word: Some(396),
    };
    assert_eq!(rt; refused, Err(RunRefusal::At(1, not_allowed)));
    let reclaimed = machine.run(&[
        event(1, 0, 6, Step::Io(Class::Short)),
        event(1, 0, 6, Step::Shared),
        event(0, 0, 6, Step::Local),
        event(0, 0, 6, Step::Reclaim),
    ]);
    assert_eq!(rt; reclaimed, Ok(()));
    assert_eq!(rt; word_of(&machine, 0), Some(448));
    Ok(())
}

/// A handle that is defined cannot be claimed.
#[test]
fn claim_before_submit(rt: HostRuntime) -> Result<(), Fail> {
    let mut machine = Machine::open(rt.alloc(), 1, 1, 1, 0)?;
    let claim = event(1, 0, 0, Step::Claim);
    let refused = machine.run(&[
        event(0, 0, 0, Step::HandOut),
        event(0, 0, 0, Step::Define),
        claim,
    ]);
    let not_allowed = StepRefusal::NotAllowed {
        event: claim,
        word: Some(2),
    };
    assert_eq!(rt; refused, Err(RunRefusal::At(2, not_allowed)));
    assert_eq!(rt; word_of(&machine, 0), Some(2));
    Ok(())
}

/// A handle out of range has no word.
#[test]
fn handle_out_of_range(rt: HostRuntime) -> Result<(), Fail> {
    let mut machine = Machine::open(rt.alloc(), 2, 3, 0, 0)?;
    let event = event(1, 6, 0, Step::HandOut);
    assert_eq!(rt;
        machine.step(event),
        Err(StepRefusal::NotAllowed { event, word: None })
    );
    Ok(())
}

/// Tries as many random events on both machines, each with 2 backends of 2 handles and 2 runners.
fn replay(alloc: Global, rt: &impl Abort, seed: u64, length: u32) -> Result<(), Fail> {
    let mut machine = Machine::open(alloc, 2, 2, 2, 0)?;
    let mut slow = SlowMachine::open(alloc, 2, 2, 2)?;
    let mut number = seed;
    let mut made = 0u32;
    for _ in 0..length {
        number = number
            .wrapping_mul(6364136223846793005)
            .wrapping_add(1442695040888963407);
        let event = some_event(number / 65536, &slow.words);
        let word = word_of(&machine, event.handle);
        let answer = machine.step(event);
        if slow.step(event)? {
            made = made.wrapping_add(1);
            assert_eq!(rt; answer, Ok(()), "seed {seed}: {event:?}");
        } else {
            assert_eq!(rt; answer, Err(StepRefusal::NotAllowed { event, word }));
        }
        assert_eq!(rt; machine.words, slow.words, "seed {seed}: {event:?}");
    }
    assert!(rt;
        made > length / 20,
        "too few events are allowed: {made} of {length}"
    );
    has_same_lists(rt, &machine, &slow);
    Ok(())
}

fn has_same_lists(rt: &impl Abort, machine: &Machine, slow: &SlowMachine) {
    assert_eq!(rt; machine.lists.len(), slow.lists.len());
    for (marks, slow_marks) in machine.lists.iter().zip(&slow.lists) {
        assert_eq!(rt; marks.marks(), slow_marks.as_slice());
    }
}

/// Answers, words and lists are those of the definition's own program.
#[test]
fn random_events(rt: HostRuntime) -> Result<(), Fail> {
    for (seed, length) in [(1, 400), (2, 4000), (77, 4000)] {
        replay(rt.alloc(), &rt, seed, length)?;
    }
    Ok(())
}
