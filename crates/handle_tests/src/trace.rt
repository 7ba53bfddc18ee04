//! Runs that are replayed, and lines of totals, one of a table that was used.
ghost use Rattle.std.specs.Prelude.{◌≡◌, ◌<◌, IsTrue};
ghost use Rattle.aio_handle.specs.EndStates.{HasNoOwnerTokens};
ghost use Rattle.aio_handle.specs.ContractViews.{IsActorOf, IsSameActor};

use aio_core::StepRefusal;
use aio_fixtures::{
    EmptyIo, add_actor, claim_and_complete, last_actor, no_actors, submit_io, take_and_reclaim,
};
use aio_handle::{Actor, Table};
use aio_trace::{ReplayAnswer, numbers_text, replay, totals_text};
use aio_word::{Class, Event, Step};
use page_check::World;
use std::marker::Brand;
use std::process::Abort;
use std::test::Fail;

fn event(actor: u32, step: Step) -> Event {
    Event {
        actor,
        handle: 0,
        generation: 0,
        step,
    }
}

/// Fails where a replay refuses an event, or where this claim then meets no such word.
fn check_refusal<R: Abort>(rt: &R, answer: ReplayAnswer, claim: Event, word: u64) {
    let ReplayAnswer::Lawful(mut machine) = answer else {
        panic!(rt; "the events before {claim:?} are lawful")
    };
    let refused = StepRefusal::NotAllowed {
        event: claim,
        word: Some(word),
    };
    assert!(rt; machine.step(claim) == Err(refused));
}

/// A claim of a handle that is defined and not submitted is the first bad event of its run; the
/// two events before it are lawful, and the machine after them refuses the claim.
#[test]
fn a_claim_before_submit_is_bad(rt: HostRuntime) {
    let claim = event(1, Step::Claim);
    let events = [event(0, Step::HandOut), event(0, Step::Define), claim];
    let whole = replay(rt.alloc(), 1, 1, 1, 0, &events);
    assert!(&rt; matches!(&whole, ReplayAnswer::FirstBad(2)));
    check_refusal(&rt, replay(rt.alloc(), 1, 1, 1, 0, &events[..2]), claim, 2);
}

/// All events of one life. A claim that comes too late meets the idle handle of the next one.
#[test]
fn a_whole_life_is_lawful(rt: HostRuntime) {
    let sixth = |actor, step| Event {
        generation: 6,
        ..event(actor, step)
    };
    let claim = sixth(1, Step::Claim);
    let events = [
        sixth(0, Step::HandOut),
        sixth(0, Step::Define),
        sixth(0, Step::Stage),
        sixth(0, Step::Submit),
        claim,
        sixth(1, Step::Io(Class::Short)),
        sixth(1, Step::Shared),
        sixth(0, Step::Local),
        sixth(0, Step::Reclaim),
    ];
    check_refusal(&rt, replay(rt.alloc(), 1, 1, 1, 6, &events), claim, 448);
}

/// The last of 32 runners claims the last handle of 16 backends with 64 handles each.
#[test]
fn the_greatest_machine_has_1024_handles(rt: HostRuntime) {
    let last = |actor, step| Event {
        handle: 1023,
        ..event(actor, step)
    };
    let claim = last(47, Step::Claim);
    let events = [
        last(15, Step::HandOut),
        last(15, Step::Define),
        last(15, Step::Stage),
        last(15, Step::Submit),
        claim,
    ];
    check_refusal(&rt, replay(rt.alloc(), 16, 64, 32, 0, &events), claim, 12);
}

#[test]
fn numbers_of_up_to_39_digits(rt: HostRuntime) -> Result<(), Fail> {
    let rows = [
        (0, 0, 0, "incarnations 0 workers 0 backends 0\n"),
        (28, 20, 8, "incarnations 28 workers 20 backends 8\n"),
        (
            18446744073709551616,
            18446744073709551615,
            1,
            "incarnations 18446744073709551616 workers 18446744073709551615 backends 1\n",
        ),
        (
            u128::MAX,
            10,
            340282366920938463463374607431768211445,
            "incarnations 340282366920938463463374607431768211455 workers 10 \
             backends 340282366920938463463374607431768211445\n",
        ),
    ];
    for (incarnations, workers, backends, line) in rows {
        let text = numbers_text(rt.alloc(), incarnations, workers, backends)?;
        assert_eq!(rt; text.as_str(), line);
    }
    Ok(())
}

/// One life of a handle of the owner's, whose I/O the other actor executes.
fn life<W: World>(
    table: &Table<EmptyIo, W>,
    owner: &mut Actor<EmptyIo, W>,
    other: &mut Actor<EmptyIo, W>,
) -> bool
    requires table { IsActorOf table.now owner.old × IsActorOf table.now other.old }
    requires backend { owner.old.known.number < table.now.config.backends }
    requires owner { HasNoOwnerTokens owner.old.known }
    requires other { HasNoOwnerTokens other.old.known }
    ensures same { IsSameActor owner.old owner.new × IsSameActor other.old other.new }
    ensures owner { IsTrue result → HasNoOwnerTokens owner.new.known }
    ensures other { HasNoOwnerTokens other.new.known }
{
    let Some(token) = submit_io(table, owner, EmptyIo::new()) else {
        return false;
    };
    claim_and_complete(table, other, token.reference(), Class::Whole)
        && take_and_reclaim(table, owner, token)
}

/// Three lives of a backend's handle, one executed by the runner and two by another backend. A
/// worker is a runner, a backend is a backend, and the line stands behind what was there.
fn totals_of_three<W: World, R: Abort + AllocGlobal>(rt: &R) -> Result<(), Fail>
    requires { W.handles ≡ 2 }
{
    let (table, mut actors) = Table::<EmptyIo, W>::open(rt.alloc(), 2, 1, 1, 0)?;
    let mut runner = last_actor(&table, &mut actors).ok_or("no actor")?;
    let mut other = last_actor(&table, &mut actors).ok_or("no actor")?;
    let mut owner = last_actor(&table, &mut actors).ok_or("no actor")?;
    if !life(&table, &mut owner, &mut other) {
        panic!(rt; "a handle is free")
    }
    if !life(&table, &mut owner, &mut runner) {
        panic!(rt; "a handle is free")
    }
    if !life(&table, &mut owner, &mut other) {
        panic!(rt; "a handle is free")
    }
    let mut all = no_actors(&table, rt.alloc());
    add_actor(&table, &mut all, owner)?;
    add_actor(&table, &mut all, other)?;
    add_actor(&table, &mut all, runner)?;
    let mut out = Vec::from_slice(rt.alloc(), b"before\n")?;
    totals_text(&table.close(all), &mut out)?;
    let wanted = b"before\nincarnations 3 workers 1 backends 2\n";
    assert_eq!(rt; out.as_slice(), wanted.as_slice());
    Ok(())
}

#[test]
fn a_runner_claims_one_of_three(rt: HostRuntime) -> Result<(), Fail> {
    totals_of_three::<Brand, _>(&rt)
}
