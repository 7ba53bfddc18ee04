//! The calls of an I/O's owner: from acquire to submit, and from the result to the reclaimed handle.
ghost use Rattle.std.specs.Prelude.{◌≡◌, ◌≢◌, ◌<◌, ◌∷◌, [], List, Some, None, IfSome, IfNone};
ghost use Rattle.std.specs.Prelude.{IsTrue, IsFalse};
ghost use Rattle.aio_word.specs.declared.WaitRef.{WaitRef};
ghost use Rattle.aio_word.specs.declared.Word.{Word};
ghost use Rattle.aio_word.specs.Stands.{IsIn};
ghost use Rattle.aio_word.specs.Tokens.{IsInFlight};
ghost use Rattle.aio_handle.specs.declared.actor.AcquireRefusal.{AcquireRefusal};
ghost use Rattle.aio_handle.specs.EndStates.{AllReclaimed};
ghost use Rattle.aio_handle.specs.FreeHandles.{IsCause};
ghost use Rattle.aio_handle.specs.CallEvents.{WordLoaded, IsCompleted};
ghost use Rattle.aio_handle.specs.ContractViews.{IsActorOf, IsSameActor};
ghost use Rattle.aio_fixtures.specs.Lives.{BeginsLife, HasUnreclaimed, IsSubmitted};

use crate::empty_io::EmptyIo;
use aio_handle::{Actor, HandedOut, InFlight, Record, Table, Take, laws};
use page_check::World;

/// Submits an I/O with this record, by a handle that was acquired.
pub fn submit_acquired<R: Record, W: World>(
    table: &Table<R, W>,
    actor: &mut Actor<R, W>,
    token: HandedOut<W>,
    io: R,
) -> InFlight<W>
    requires table { IsActorOf table.now actor.old }
    requires token { actor.old.known.out ≡ Some token }
    requires fits { R.fits W.told W.relations io }
    ensures same { IsSameActor actor.old actor.new }
    ensures token { (result ≡ token) × IsInFlight actor.new.known result }
    ensures out { actor.new.known.out ≡ None }
    ensures aim { IsIn (result, R.aim io) actor.new.known.aims }
    ensures begins { BeginsLife token actor.old.known actor.new.known }
    ensures others_in_flight { (u : WaitRef) → IsInFlight actor.old.known u
        → (u ≢ result) × IsInFlight actor.new.known u }
    ensures unreclaimed { AllReclaimed actor.old.known
        → HasUnreclaimed (result ∷ []) actor.new.known }
{
    laws::define_keeps_tokens();
    laws::events_keep_other_tokens();
    actor.has_seen_its_marks();
    let token = table.define(actor, token, io);
    let token = table.stage(actor, token);
    table.submit(actor, token)
}

/// Submits an I/O with this record, by a handle of the backend's that is free. None only where the
/// table refuses one.
pub fn submit_io<R: Record, W: World>(
    table: &Table<R, W>,
    actor: &mut Actor<R, W>,
    io: R,
) -> Option<InFlight<W>>
    requires table { IsActorOf table.now actor.old }
    requires backend { actor.old.known.number < table.now.config.backends }
    requires fits { R.fits W.told W.relations io }
    ensures same { IsSameActor actor.old actor.new }
    ensures submitted { IfSome result (λ t. IsSubmitted t actor.old.known actor.new.known) }
    ensures aim { IfSome result (λ t. IsIn (t, R.aim io) actor.new.known.aims) }
    ensures refused { IfNone result ((actor.new ≡ actor.old)
        × ((why : AcquireRefusal) × IsCause table.now.config actor.old.known why)) }
{
    laws::events_keep_other_tokens();
    match table.acquire(actor) {
        Ok(token) => Some(submit_acquired(table, actor, token, io)),
        Err(_) => None,
    }
}

/// Takes the result of an I/O that has ended, and reclaims its handle. The answer is whether it had
/// ended.
pub fn take_and_reclaim<W: World>(
    table: &Table<EmptyIo, W>,
    actor: &mut Actor<EmptyIo, W>,
    token: InFlight<W>,
) -> bool
    requires table { IsActorOf table.now actor.old }
    requires token { IsInFlight actor.old.known token }
    ensures same { IsSameActor actor.old actor.new }
    ensures others_in_flight { (u : WaitRef) → u ≢ token → IsInFlight actor.old.known u
        → IsInFlight actor.new.known u }
    ensures unreclaimed { IsTrue result → (ts : List WaitRef)
        → HasUnreclaimed (token ∷ ts) actor.old.known → HasUnreclaimed ts actor.new.known }
    ensures not_yet { IsFalse result → IsInFlight actor.new.known token
        × ((w : Word) × WordLoaded token.handle w actor.old.known actor.new.known
        × (IsCompleted w token.generation → ⊥)) }
{
    let Take::Ready(mut local) = table.try_take(actor, token) else {
        return false;
    };
    local.record_mut().label.settled = true;
    table.reclaim(actor, local);
    true
}
