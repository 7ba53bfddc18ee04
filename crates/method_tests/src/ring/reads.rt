//! Reads of one block that are pushed, or waited for.
ghost use Rattle.std.specs.Prelude.{◌≡◌, ◌<◌, IfSome, IsTrue};
ghost use Rattle.aio_handle.specs.EndStates.{HasNoOwnerTokens};
ghost use Rattle.aio_handle.specs.ContractViews.{IsActorOf, IsSameActor};
ghost use Rattle.aio_fixtures.specs.Lives.{IsSubmitted};
ghost use Rattle.method_worker.specs.QueueViews.{IsSeatOf, IsSameSeat};

use aio_callback::{Counts, ReadIo};
use aio_handle::{Actor, Execute, InFlight, Table};
use aio_waitref::wait_own;
use method_worker::{QueueSeat, SubmitQueue};
use page_check::World;
use read_fixtures::submit_read;
use std::alloc::Global;
use std::sync::Wait;

/// Submits a read of this block, and pushes its reference.
pub(super) fn submit_and_push<W: World, T: Wait>(
    rt: &T,
    alloc: Global,
    table: &Table<ReadIo, W>,
    actor: &mut Actor<ReadIo, W>,
    queue: &SubmitQueue<W>,
    seat: &mut QueueSeat,
    block: u32,
) -> Option<InFlight<W>>
    requires table { IsActorOf table.now actor.old }
    requires backend { actor.old.known.number < table.now.config.backends }
    requires queue { IsSeatOf queue.now seat.old }
    requires some { 0 < W.relations }
    ensures same { IsSameActor actor.old actor.new }
    ensures seat { IsSameSeat seat.old seat.new }
    ensures submitted { IfSome result (λ t. IsSubmitted t actor.old.known actor.new.known) }
{
    let Ok(io) = ReadIo::make(alloc, 1) else {
        return None;
    };
    let token = submit_read(table, actor, io, block)?;
    queue.push(rt, seat, token.reference()).ok();
    Some(token)
}

/// Submits a read of this block, and waits for it: whether it came so far.
pub(super) fn read_and_wait<W: World, E: Execute<ReadIo, W>, T: Wait>(
    rt: &T,
    alloc: Global,
    table: &Table<ReadIo, W>,
    actor: &mut Actor<ReadIo, W>,
    runner: &mut E,
    block: u32,
) -> bool
    requires table { IsActorOf table.now actor.old }
    requires backend { actor.old.known.number < table.now.config.backends }
    requires told { (E.told runner.old ≡ W.told) × (E.relations runner.old ≡ W.relations) }
    requires some { 0 < W.relations }
    requires no_owner_tokens { HasNoOwnerTokens actor.old.known }
    ensures same { IsSameActor actor.old actor.new }
    ensures no_owner_tokens { IsTrue result → HasNoOwnerTokens actor.new.known }
{
    let Ok(io) = ReadIo::make(alloc, 1) else {
        return false;
    };
    let Some(token) = submit_read(table, actor, io, block) else {
        return false;
    };
    let mut local = wait_own(rt, table, actor, token, runner);
    let mut counts = Counts { ios: 0, blocks: 0 };
    local.record_mut().complete_local(&mut counts);
    table.reclaim(actor, local);
    true
}
