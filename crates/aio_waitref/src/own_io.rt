//! Waiting for one's own I/O, and its result.
ghost use Rattle.std.specs.Prelude.{◌≡◌, ℕ, List};
ghost use Rattle.aio_word.specs.Events.{actor_count};
ghost use Rattle.aio_word.specs.Stands.{IsIn};
ghost use Rattle.aio_word.specs.Tokens.{IsInFlight, IsLocal};
ghost use Rattle.aio_handle.specs.CallEvents.{HasWholeLife};
ghost use Rattle.aio_handle.specs.ContractViews.{IsActorOf, IsSameActor};
ghost use Rattle.aio_waitref.specs.WaitOutcomes.{WaitsAndTakes};

use crate::waits::wait;
use aio_handle::{Actor, Execute, InFlight, Local, Record, Table, Take};
use page_check::World;
use std::sync::Wait;

/// Waits for one's own I/O, and takes its result (`pgaio_io_wait` in `aio.c`).
///
/// The owner alone has the token, which is spent. It waits as `wait` does, so an owner that has
/// claimed the I/O itself completes it first. Then it takes the record: it is ended as the I/O was,
/// fits, and has the aim under which it was submitted. In a table of one actor the owner has
/// executed it.
pub fn wait_own<R: Record, W: World, E: Execute<R, W>, T: Wait>(
    rt: &T,
    table: &Table<R, W>,
    actor: &mut Actor<R, W>,
    token: InFlight<W>,
    runner: &mut E,
) -> Local<R, W>
    requires table { IsActorOf table.now actor.old }
    requires told { (E.told runner.old ≡ W.told) × (E.relations runner.old ≡ W.relations) }
    requires token { IsInFlight actor.old.known token }
    ensures same { IsSameActor actor.old actor.new }
    ensures told { (E.told runner.new ≡ E.told runner.old)
        × (E.relations runner.new ≡ E.relations runner.old) }
    ensures token { (result.0 ≡ token) × IsLocal actor.new.known result.0 }
    ensures result_taken { WaitsAndTakes token actor.old.known actor.new.known
        (E.reads runner.old) (E.reads runner.new)
        (E.faults runner.old) (E.faults runner.new) (R.label result.1) }
    ensures sole_actor { actor_count table.now.config ≡ 1
        → HasWholeLife result.0 (R.label result.1).ended actor.new.known }
    ensures record { R.fits W.told W.relations result.1
        × ((aim : List ℕ) → IsIn (token, aim) actor.old.known.aims → R.aim result.1 ≡ aim) }
{
    let reference = token.reference();
    wait(rt, table, actor, reference, runner);
    match table.try_take(actor, token) {
        Take::Ready(local) => local,
        Take::NotYet(_) => unreachable!(),
    }
}
