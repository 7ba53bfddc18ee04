//! The calls of a read's owner.
ghost use Rattle.std.specs.Prelude.{◌≢◌, ◌≤◌, ◌<◌, [], ◌∷◌, List, IfSome, IsTrue, IsFalse};
ghost use Rattle.std.specs.Prelude.{length, false};
ghost use Rattle.aio_word.specs.declared.WaitRef.{WaitRef};
ghost use Rattle.aio_word.specs.declared.Word.{Word};
ghost use Rattle.aio_word.specs.Stands.{IsIn};
ghost use Rattle.aio_word.specs.Tokens.{IsInFlight};
ghost use Rattle.aio_handle.specs.CallEvents.{WordLoaded, IsCompleted};
ghost use Rattle.aio_handle.specs.ContractViews.{IsActorOf, IsSameActor};
ghost use Rattle.read_callbacks.specs.declared.chain.CallbackId.TheVariants.{Count, Buffer, File};
ghost use Rattle.aio_callback.specs.ReadIoView.{record_aim, with_aim};
ghost use Rattle.aio_fixtures.specs.Lives.{HasUnreclaimed, IsSubmitted};

use aio_callback::{CallbackId, Counts, ReadIo};
use aio_handle::{Actor, InFlight, Table, Take};
use page_check::World;

/// Submits a read of this block of relation 0, with the callbacks Count, Buffer and File, by a
/// handle of the backend's that is free.
pub fn submit_read<W: World>(
    table: &Table<ReadIo, W>,
    actor: &mut Actor<ReadIo, W>,
    mut io: ReadIo,
    block: u32,
) -> Option<InFlight<W>>
    requires table { IsActorOf table.now actor.old }
    requires backend { actor.old.known.number < table.now.config.backends }
    requires some { 0 < W.relations }
    requires room { 1 ≤ length io.pages }
    ensures same { IsSameActor actor.old actor.new }
    ensures submitted { IfSome result (λ t. IsSubmitted t actor.old.known actor.new.known) }
    ensures aim { IfSome result (λ t. IsIn
        (t, record_aim (with_aim 0 block 1 false (Count ∷ Buffer ∷ File ∷ []) io)) actor.new.known.aims) }
{
    let ids = [CallbackId::Count, CallbackId::Buffer, CallbackId::File];
    if io.aim(0, block, 1, false, &ids).is_err() {
        unreachable!()
    }
    aio_fixtures::submit_io(table, actor, io)
}

/// Takes the result of a read that has ended, completes it for its owner, and reclaims its handle.
/// The answer is whether it had ended.
pub fn take_and_reclaim<W: World>(
    table: &Table<ReadIo, W>,
    actor: &mut Actor<ReadIo, W>,
    token: InFlight<W>,
) -> bool
    requires table { IsActorOf table.now actor.old }
    requires token { IsInFlight actor.old.known token }
    ensures same { IsSameActor actor.old actor.new }
    ensures others_in_flight { (u : WaitRef) → u ≢ token → IsInFlight actor.old.known u
        → IsInFlight actor.new.known u }
    ensures unreclaimed { IsTrue result → (ts : List WaitRef)
        → HasUnreclaimed (token ∷ ts) actor.old.known → HasUnreclaimed ts actor.new.known }
    ensures not_yet { IsFalse result → IsInFlight actor.new.known token
        × ((w : Word) × WordLoaded token.handle w actor.old.known actor.new.known
        × (IsCompleted w token.generation → ⊥)) }
{
    let Take::Ready(mut local) = table.try_take(actor, token) else {
        return false;
    };
    let mut counts = Counts { ios: 0, blocks: 0 };
    local.record_mut().complete_local(&mut counts);
    table.reclaim(actor, local);
    true
}
