//! How I/Os are begun.
ghost use Rattle.std.specs.Prelude.{◌≡◌, ◌<◌, List, [], ◌∷◌, Option};
ghost use Rattle.std.specs.List.{All};
ghost use Rattle.atomic_table.specs.Seated.{TableId};
ghost use Rattle.aio_word.specs.declared.WaitRef.{WaitRef};
ghost use Rattle.aio_handle.specs.ContractViews.{IsActorOf, IsSameActor};
ghost use Rattle.aio_handle.specs.Execution.{ExecutesAll};
ghost use Rattle.aio_batch.specs.Heard.{AppendsHeard};

use aio_handle::{Actor, Execute, Record, Table};
use aio_word::WaitRef;
use page_check::World;
use std::sync::Wait;

/// What is done with an I/O that was just submitted: it is executed in place, or handed to workers
/// (`IoMethodOps` of PostgreSQL's `aio_internal.h`, its `submit`).
pub trait Method<R: Record, W: World> {
    /// The references of which it has heard, where it tells them.
    ghost heard: { Self → Option (List WaitRef) };

    /// The shared tables that it works by, as a queue's. No call changes which they are.
    ghost stands_on: { Self → List TableId };

    /// The actor has submitted this I/O. `Batch::submit_next` calls it, once for each I/O that it
    /// submits.
    ///
    /// It may claim, execute and complete this and other I/Os by the runner, each of them to its
    /// Shared mark. It leaves no other mark and hands out no handle. It cannot fail: an I/O that
    /// it leaves alone stays submitted, and its waiter may claim it.
    fn begun<E: Execute<R, W>, T: Wait>(
        &mut self,
        rt: &T,
        table: &Table<R, W>,
        actor: &mut Actor<R, W>,
        runner: &mut E,
        reference: WaitRef,
    )
        requires table { IsActorOf table.now actor.old }
        requires told { (E.told runner.old ≡ W.told) × (E.relations runner.old ≡ W.relations) }
        requires range { reference.handle < W.handles }
        ensures same { IsSameActor actor.old actor.new }
        ensures told { (E.told runner.new ≡ E.told runner.old)
            × (E.relations runner.new ≡ E.relations runner.old) }
        ensures heard { AppendsHeard (heard self.old) (heard self.new) (reference ∷ []) }
        ensures stands_on { stands_on self.new ≡ stands_on self.old }
        ensures marks { ExecutesAll [] actor.old.known actor.new.known (E.reads runner.old)
            (E.reads runner.new) (E.faults runner.old) (E.faults runner.new) };

    /// The actor has submitted these I/Os, and they are begun as one. A method that hands I/Os to
    /// others offers them all before it executes one. Other methods begin each.
    fn batch_submitted<E: Execute<R, W>, T: Wait>(
        &mut self,
        rt: &T,
        table: &Table<R, W>,
        actor: &mut Actor<R, W>,
        runner: &mut E,
        references: &[WaitRef],
    )
        requires table { IsActorOf table.now actor.old }
        requires told { (E.told runner.old ≡ W.told) × (E.relations runner.old ≡ W.relations) }
        requires range { All (λ t. t.handle < W.handles) references.now }
        ensures same { IsSameActor actor.old actor.new }
        ensures told { (E.told runner.new ≡ E.told runner.old)
            × (E.relations runner.new ≡ E.relations runner.old) }
        ensures heard { AppendsHeard (heard self.old) (heard self.new) references.now }
        ensures stands_on { stands_on self.new ≡ stands_on self.old }
        ensures marks { ExecutesAll [] actor.old.known actor.new.known (E.reads runner.old)
            (E.reads runner.new) (E.faults runner.old) (E.faults runner.new) }
    {
        for reference in references {
            self.begun(rt, table, actor, runner, *reference);
        }
    }
}
