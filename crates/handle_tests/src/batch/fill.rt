//! A batch that is filled, overfilled and submitted.
ghost use Rattle.std.specs.Prelude.{◌≡◌};
ghost use Rattle.aio_handle.specs.ContractViews.{IsActorOf};
ghost use Rattle.aio_batch.specs.StagedTokens.{AreStagedTokens};

use crate::batch::listeners::{Listener, Sleeper};
use crate::batch::push::{Pushed, push_all};
use aio_batch::Batch;
use aio_fixtures::EmptyIo;
use aio_handle::{Actor, Table};
use aio_word::WaitRef;
use page_check::World;
use std::alloc::{AllocError, Global};
use std::marker::{Brand, PhantomData};
use std::process::Abort;
use std::sync::Wait;
use std::test::Fail;

/// The answers of so many calls of `submit_next`.
fn submit_all<W: World, T: Wait>(
    rt: &T,
    alloc: Global,
    table: &Table<EmptyIo, W>,
    actor: &mut Actor<EmptyIo, W>,
    batch: &mut Batch<EmptyIo, W>,
    method: &mut Listener,
    count: u32,
) -> Result<Vec<Option<WaitRef>>, AllocError>
    requires table { IsActorOf table.now actor.old }
    requires tokens { AreStagedTokens actor.old.known batch.old }
{
    let mut runner = Sleeper {
        marker: PhantomData,
    };
    let mut all = Vec::new(alloc);
    for n in 0..count {
        let token = batch.submit_next(rt, table, actor, method, &mut runner);
        all.push(token.map(|token| token.reference()))?;
    }
    Ok(all)
}

/// 33 I/Os are pushed and submitted: there is room for 32, of which the method hears.
fn batched<W: World, R: Abort + AllocGlobal + Wait>(rt: &R) -> Result<(), Fail>
    requires { W.handles ≡ 64 }
{
    let alloc = rt.alloc();
    let (table, mut actors) = Table::<EmptyIo, W>::open(alloc, 1, 64, 0, 0)?;
    let mut actor = actors.pop().ok_or("no actor")?;
    let mut batch = Batch::open(alloc)?;
    assert!(rt; batch.len() == 0);
    let pushed = push_all(alloc, &table, &mut actor, &mut batch, 33)?;
    assert!(rt; batch.len() == 32);
    let mut method = Listener {
        heard: Vec::with_capacity(alloc, 33)?,
    };
    let submitted = submit_all(rt, alloc, &table, &mut actor, &mut batch, &mut method, 33)?;
    assert!(rt; batch.len() == 0);
    let heard = method.heard;
    assert!(rt; pushed.len() == 33 && submitted.len() == 33 && heard.len() == 32);
    for k in 0..32 {
        let reference = pushed[k].reference;
        assert!(rt; pushed[k].back.is_none(), "push {k}");
        assert!(rt; submitted[k] == Some(reference), "submission {k}");
        assert!(rt; heard[k] == reference, "what was heard at {k}");
    }
    assert!(rt; pushed[32].back == Some(pushed[32].reference));
    assert!(rt; submitted[32].is_none());
    Ok(())
}

#[test]
fn thirty_three_staged_tokens(rt: HostRuntime) -> Result<(), Fail> {
    batched::<Brand, _>(&rt)
}
