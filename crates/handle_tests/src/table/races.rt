//! Two threads at one table.
ghost use Rattle.std.specs.Prelude.{◌≡◌, ◌<◌, IfSome};
ghost use Rattle.aio_handle.specs.EndStates.{HasNoOwnerTokens};
ghost use Rattle.aio_handle.specs.ContractViews.{IsActorOf};

use crate::table::life::{close, live};
use aio_fixtures::{
    EmptyIo, add_actor, claim_and_complete, last_actor, no_actors, submit_io, take_and_reclaim,
};
use aio_handle::{Actor, Table};
use aio_word::{Class, WaitRef};
use page_check::World;
use std::marker::Brand;
use std::process::Abort;
use std::test::Fail;
use std::thread::{Threads, join};

/// Claims the I/O and completes it, where nobody has claimed it before.
fn claim_beside<W: World>(
    table: &Table<EmptyIo, W>,
    mut actor: Actor<EmptyIo, W>,
    reference: WaitRef,
) -> (Actor<EmptyIo, W>, bool)
    requires table { IsActorOf table.now actor }
    requires range { reference.handle < W.handles }
    requires no_owner_tokens { HasNoOwnerTokens actor.known }
    ensures table { IsActorOf table.now result.0 }
    ensures no_owner_tokens { HasNoOwnerTokens result.0.known }
{
    let won = claim_and_complete(table, &mut actor, reference, Class::Whole);
    (actor, won)
}

/// Two actors try to claim one I/O at once.
fn race<W: World + Send + Sync, R: Abort + AllocGlobal + Threads + Sync>(rt: &R) -> Result<(), Fail>
    requires { W.handles ≡ 8 }
{
    let (table, mut actors) = Table::<EmptyIo, W>::open(rt.alloc(), 2, 4, 1, 0)?;
    let runner = last_actor(&table, &mut actors).ok_or("no actor")?;
    let other = last_actor(&table, &mut actors).ok_or("no actor")?;
    let mut owner = last_actor(&table, &mut actors).ok_or("no actor")?;
    let Some(token) = submit_io(&table, &mut owner, EmptyIo::new()) else {
        panic!(rt; "no free handle")
    };
    let reference = token.reference();
    let shared = &table;
    let ((runner, first), (other, second)) = join(
        rt,
        || -> (Actor<EmptyIo, W>, bool)
            requires { IsActorOf shared.now runner × HasNoOwnerTokens runner.known
                × (reference.handle < W.handles) }
            ensures { IsActorOf shared.entry.now result.0 × HasNoOwnerTokens result.0.known }
        { claim_beside(shared, runner, reference) },
        || -> (Actor<EmptyIo, W>, bool)
            requires { IsActorOf shared.now other × HasNoOwnerTokens other.known
                × (reference.handle < W.handles) }
            ensures { IsActorOf shared.entry.now result.0 × HasNoOwnerTokens result.0.known }
        { claim_beside(shared, other, reference) },
    );
    if !take_and_reclaim(&table, &mut owner, token) {
        panic!(rt; "one of the two ends the I/O")
    }
    let mut all = no_actors(&table, rt.alloc());
    add_actor(&table, &mut all, owner)?;
    add_actor(&table, &mut all, other)?;
    add_actor(&table, &mut all, runner)?;
    let totals = close(table, all);
    assert!(rt; first != second);
    assert!(rt; totals == (1, 0, 1) || totals == (1, 1, 0));
    Ok(())
}

#[test]
fn one_of_two_claims_at_once_wins(rt: HostRuntime) -> Result<(), Fail> {
    race::<Brand, _>(&rt)
}

/// So many whole lives of the actor's handles, one after the other.
fn lives<W: World>(
    table: &Table<EmptyIo, W>,
    mut actor: Actor<EmptyIo, W>,
    count: u32,
) -> Option<Actor<EmptyIo, W>>
    requires table { IsActorOf table.now actor }
    requires backend { actor.known.number < table.now.config.backends }
    requires no_owner_tokens { HasNoOwnerTokens actor.known }
    ensures table { IfSome result (λ a. IsActorOf table.now a) }
    ensures no_owner_tokens { IfSome result (λ a. HasNoOwnerTokens a.known) }
{
    for n in 0..count {
        if !live(table, &mut actor) {
            return None;
        }
    }
    Some(actor)
}

/// Two backends live 10,000 lives each at once.
fn beside<W: World + Send + Sync, R: Abort + AllocGlobal + Threads + Sync>(
    rt: &R,
) -> Result<(), Fail>
    requires { W.handles ≡ 8 }
{
    let (table, mut actors) = Table::<EmptyIo, W>::open(rt.alloc(), 2, 4, 0, 0)?;
    let other = last_actor(&table, &mut actors).ok_or("no actor")?;
    let one = last_actor(&table, &mut actors).ok_or("no actor")?;
    let shared = &table;
    let (one, other) = join(
        rt,
        || -> Option<Actor<EmptyIo, W>>
            requires { IsActorOf shared.now one × (one.known.number < shared.now.config.backends)
                × HasNoOwnerTokens one.known }
            ensures { IfSome result (λ a. IsActorOf shared.entry.now a × HasNoOwnerTokens a.known) }
        { lives(shared, one, 10_000) },
        || -> Option<Actor<EmptyIo, W>>
            requires { IsActorOf shared.now other
                × (other.known.number < shared.now.config.backends)
                × HasNoOwnerTokens other.known }
            ensures { IfSome result (λ a. IsActorOf shared.entry.now a × HasNoOwnerTokens a.known) }
        { lives(shared, other, 10_000) },
    );
    let mut all = no_actors(&table, rt.alloc());
    add_actor(&table, &mut all, one.ok_or("no free handle")?)?;
    add_actor(&table, &mut all, other.ok_or("no free handle")?)?;
    assert!(rt; close(table, all) == (20_000, 20_000, 0));
    Ok(())
}

#[test]
fn totals_are_exact_beside_each_other(rt: HostRuntime) -> Result<(), Fail> {
    beside::<Brand, _>(&rt)
}
