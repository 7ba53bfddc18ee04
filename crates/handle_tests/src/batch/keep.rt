//! A caller that keeps what it submitted.
ghost use Rattle.std.specs.Prelude.{◌≡◌, IfSome};
ghost use Rattle.aio_word.specs.Tokens.{IsInFlight};
ghost use Rattle.aio_handle.specs.ContractViews.{IsActorOf};
ghost use Rattle.aio_batch.specs.StagedTokens.{AreStagedTokens};

use crate::batch::listeners::{Listener, Sleeper};
use crate::batch::push::push_all;
use aio_batch::{Batch, laws};
use aio_fixtures::EmptyIo;
use aio_handle::{Actor, InFlight, Table, Take, laws as table_laws};
use page_check::World;
use std::marker::{Brand, PhantomData};
use std::process::Abort;
use std::sync::Wait;
use std::test::Fail;

/// The first two I/Os of the batch, both in flight.
fn submit_two<W: World, T: Wait>(
    rt: &T,
    table: &Table<EmptyIo, W>,
    actor: &mut Actor<EmptyIo, W>,
    batch: &mut Batch<EmptyIo, W>,
    method: &mut Listener,
) -> Option<(InFlight<W>, InFlight<W>)>
    requires table { IsActorOf table.now actor.old }
    requires tokens { AreStagedTokens actor.old.known batch.old }
    ensures table { IsActorOf table.now actor.new }
    ensures first { IfSome result (λ t. IsInFlight actor.new.known t.0) }
    ensures second { IfSome result (λ t. IsInFlight actor.new.known t.1) }
{
    let mut runner = Sleeper {
        marker: PhantomData,
    };
    laws::submitting_keeps_tokens::<EmptyIo>();
    let first = batch.submit_next(rt, table, actor, method, &mut runner)?;
    let second = batch.submit_next(rt, table, actor, method, &mut runner)?;
    Some((first, second))
}

/// Whether neither of two I/Os has ended.
fn are_pending<W: World>(
    table: &Table<EmptyIo, W>,
    actor: &mut Actor<EmptyIo, W>,
    first: InFlight<W>,
    second: InFlight<W>,
) -> bool
    requires table { IsActorOf table.now actor.old }
    requires first { IsInFlight actor.old.known first }
    requires second { IsInFlight actor.old.known second }
{
    table_laws::look_keeps_tokens();
    let Take::NotYet(_) = table.try_take(actor, first) else {
        return false;
    };
    matches!(table.try_take(actor, second), Take::NotYet(_))
}

/// Two I/Os are submitted, which nobody executes, and both are looked for.
fn both_in_flight<W: World, R: Abort + AllocGlobal + Wait>(rt: &R) -> Result<(), Fail>
    requires { W.handles ≡ 2 }
{
    let alloc = rt.alloc();
    let (table, mut actors) = Table::<EmptyIo, W>::open(alloc, 1, 2, 0, 0)?;
    let mut actor = actors.pop().ok_or("no actor")?;
    let mut batch = Batch::open(alloc)?;
    push_all(alloc, &table, &mut actor, &mut batch, 2)?;
    let mut method = Listener {
        heard: Vec::with_capacity(alloc, 2)?,
    };
    let both = submit_two(rt, &table, &mut actor, &mut batch, &mut method);
    let (first, second) = both.ok_or("not two I/Os")?;
    assert!(rt; are_pending(&table, &mut actor, first, second));
    Ok(())
}

#[test]
fn two_in_flight_are_both_kept(rt: HostRuntime) -> Result<(), Fail> {
    both_in_flight::<Brand, _>(&rt)
}
