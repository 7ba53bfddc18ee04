//! Waiting for any incarnation.
ghost use Rattle.std.specs.Prelude.{◌≡◌, ◌<◌, ◌⊎◌, []};
ghost use Rattle.aio_word.specs.Tokens.{AppendsMarks, HasSeenDone};
ghost use Rattle.aio_handle.specs.Execution.{ExecutesAll};
ghost use Rattle.aio_handle.specs.ContractViews.{IsActorOf, IsSameActor};
ghost use Rattle.aio_handle.specs.ClaimAttempt.{ClaimWon};
ghost use Rattle.aio_waitref.specs.WaitOutcomes.{LostThenLooked};

use aio_handle::{Actor, Execute, Record, Table};
use aio_word::WaitRef;
use page_check::World;
use std::sync::Wait;

/// Looks and rests by turns, until a look finds the incarnation done.
#[tactic(auto, using(crate::proofs::SeenDone::checks_on, crate::proofs::SeenDone::checked_seen))]
fn rest_until_done<R: Record, W: World, T: Wait>(
    rt: &T,
    table: &Table<R, W>,
    actor: &mut Actor<R, W>,
    reference: WaitRef,
)
    requires table { IsActorOf table.now actor.old }
    requires range { reference.handle < W.handles }
    ensures same { IsSameActor actor.old actor.new }
    ensures marks { AppendsMarks actor.old.known actor.new.known [] }
    ensures done { HasSeenDone actor.new.known reference }
{
    for _ in rt.forever() {
        if table.check(actor, reference) {
            break;
        }
        table.rest(rt, actor, reference);
    }
}

/// Waits until the incarnation is done (`pgaio_wref_wait` in `aio.c`).
///
/// Any actor of the table may call it, for a handle of the table and any generation. It tries one
/// claim: where it wins, it executes the I/O by `runner`, and where it does not, it rests until
/// the I/O is done. It never rests for a generation that is over.
///
/// It returns only once the I/O is done. So an actor that is itself to submit the I/O, or has
/// claimed it and is to complete it, must do that first.
#[tactic(auto, using(aio_handle::proofs::ExecutionsCompose::executes_looks))]
pub fn wait<R: Record, W: World, E: Execute<R, W>, T: Wait>(
    rt: &T,
    table: &Table<R, W>,
    actor: &mut Actor<R, W>,
    reference: WaitRef,
    runner: &mut E,
)
    requires table { IsActorOf table.now actor.old }
    requires told { (E.told runner.old ≡ W.told) × (E.relations runner.old ≡ W.relations) }
    requires range { reference.handle < W.handles }
    ensures same { IsSameActor actor.old actor.new }
    ensures told { (E.told runner.new ≡ E.told runner.old)
        × (E.relations runner.new ≡ E.relations runner.old) }
    ensures marks { ExecutesAll [] actor.old.known actor.new.known
        (E.reads runner.old) (E.reads runner.new)
        (E.faults runner.old) (E.faults runner.new) }
    ensures done { HasSeenDone actor.new.known reference }
    ensures claim_attempt { ClaimWon reference actor.old.known actor.new.known (E.reads runner.old)
        (E.reads runner.new) (E.faults runner.old) (E.faults runner.new)
        ⊎ (LostThenLooked reference actor.old.known actor.new.known × (runner.new ≡ runner.old)) }
{
    if !table.try_execute(rt, actor, reference, runner) {
        rest_until_done(rt, table, actor, reference);
    }
}
