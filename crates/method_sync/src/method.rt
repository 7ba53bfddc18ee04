//! The method that executes at once.
ghost use Rattle.std.specs.Prelude.{◌≡◌, ◌<◌, [], None};
ghost use Rattle.std.specs.List.{All};
ghost use Rattle.aio_handle.specs.Execution.{ExecutesAll};
ghost use Rattle.aio_handle.specs.ContractViews.{IsActorOf, IsSameActor};
ghost use Rattle.aio_handle.specs.ClaimAttempt.{OwnerKnowsClaimed};

use aio_batch::Method;
use aio_callback::ReadIo;
use aio_handle::{Actor, Execute, Table};
use aio_word::WaitRef;
use page_check::World;
use std::sync::Wait;

/// Executes each I/O as it begins (`io_method=sync`, `pgaio_sync_ops` of `method_sync.c`).
///
/// Where another actor has claimed the I/O before, it is left to that one. An actor that has
/// submitted the I/O has seen it claimed afterwards.
#[derive(Clone, Copy, Drop)]
pub struct SyncMethod;

impl<W: World> Method<ReadIo, W> for SyncMethod {
    ghost heard = { λ _. None };

    ghost stands_on = { λ _. [] };

    fn begun<E: Execute<ReadIo, W>, T: Wait>(
        &mut self,
        rt: &T,
        table: &Table<ReadIo, W>,
        actor: &mut Actor<ReadIo, W>,
        runner: &mut E,
        reference: WaitRef,
    )
        requires table { IsActorOf table.now actor.old }
        requires told { (E.told runner.old ≡ W.told) × (E.relations runner.old ≡ W.relations) }
        requires range { reference.handle < W.handles }
        ensures same { IsSameActor actor.old actor.new }
        ensures told { (E.told runner.new ≡ E.told runner.old)
            × (E.relations runner.new ≡ E.relations runner.old) }
        ensures marks { ExecutesAll [] actor.old.known actor.new.known (E.reads runner.old)
            (E.reads runner.new) (E.faults runner.old) (E.faults runner.new) }
        ensures sees { OwnerKnowsClaimed reference actor.old.known actor.new.known }
    {
        table.try_execute(rt, actor, reference, runner);
    }

    fn batch_submitted<E: Execute<ReadIo, W>, T: Wait>(
        &mut self,
        rt: &T,
        table: &Table<ReadIo, W>,
        actor: &mut Actor<ReadIo, W>,
        runner: &mut E,
        references: &[WaitRef],
    )
        requires table { IsActorOf table.now actor.old }
        requires told { (E.told runner.old ≡ W.told) × (E.relations runner.old ≡ W.relations) }
        requires range { All (λ t. t.handle < W.handles) references.now }
        ensures same { IsSameActor actor.old actor.new }
        ensures told { (E.told runner.new ≡ E.told runner.old)
            × (E.relations runner.new ≡ E.relations runner.old) }
        ensures marks { ExecutesAll [] actor.old.known actor.new.known (E.reads runner.old)
            (E.reads runner.new) (E.faults runner.old) (E.faults runner.new) }
        ensures sees { All (λ t. OwnerKnowsClaimed t actor.old.known actor.new.known)
            references.now }
    {
        for reference in references {
            table.try_execute(rt, actor, *reference, runner);
        }
    }
}
