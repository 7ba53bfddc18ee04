//! I/Os that are staged and pushed.
ghost use Rattle.std.specs.Prelude.{◌<◌};
ghost use Rattle.aio_handle.specs.ContractViews.{IsActorOf, IsSameActor};
ghost use Rattle.aio_batch.specs.StagedTokens.{AreStagedTokens};

use aio_batch::{Batch, Full, laws};
use aio_fixtures::EmptyIo;
use aio_handle::{Actor, Table, laws as table_laws};
use aio_word::WaitRef;
use page_check::World;
use std::alloc::{AllocError, Global};

/// An I/O that was staged and pushed, and what came back where there was no room.
#[derive(Drop)]
pub(super) struct Pushed {
    pub(super) reference: WaitRef,
    pub(super) back: Option<WaitRef>,
}

/// Stages one more I/O of the backend, where a handle is free, and pushes it.
fn push_one<W: World>(
    table: &Table<EmptyIo, W>,
    actor: &mut Actor<EmptyIo, W>,
    batch: &mut Batch<EmptyIo, W>,
) -> Option<Pushed>
    requires table { IsActorOf table.now actor.old }
    requires backend { actor.old.known.number < table.now.config.backends }
    requires tokens { AreStagedTokens actor.old.known batch.old }
    ensures same { IsSameActor actor.old actor.new }
    ensures tokens { AreStagedTokens actor.new.known batch.new }
{
    let Ok(token) = table.acquire(actor) else {
        return None;
    };
    table_laws::events_keep_other_tokens();
    table_laws::define_keeps_tokens();
    laws::batches_are_kept::<EmptyIo>();
    laws::what_is_staged_may_be_pushed::<EmptyIo>();
    actor.has_seen_its_marks();
    let token = table.define(actor, token, EmptyIo::new());
    let token = table.stage(actor, token);
    let reference = token.reference();
    let back = match batch.push(token) {
        Ok(()) => None,
        Err(Full(token)) => Some(token.reference()),
    };
    Some(Pushed { reference, back })
}

/// Stages so many I/Os of the backend and pushes each.
pub(super) fn push_all<W: World>(
    alloc: Global,
    table: &Table<EmptyIo, W>,
    actor: &mut Actor<EmptyIo, W>,
    batch: &mut Batch<EmptyIo, W>,
    count: u32,
) -> Result<Vec<Pushed>, AllocError>
    requires table { IsActorOf table.now actor.old }
    requires backend { actor.old.known.number < table.now.config.backends }
    requires tokens { AreStagedTokens actor.old.known batch.old }
    ensures table { IsActorOf table.now actor.new }
    ensures tokens { AreStagedTokens actor.new.known batch.new }
{
    let mut all = Vec::new(alloc);
    for n in 0..count {
        let Some(pushed) = push_one(table, actor, batch) else {
            return Ok(all);
        };
        all.push(pushed)?;
    }
    Ok(all)
}
