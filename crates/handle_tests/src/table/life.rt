//! Whole lives of handles by one actor, and how they are counted.
ghost use Rattle.std.specs.Prelude.{◌≡◌, ◌<◌, [], ◌∷◌, IsTrue, Some, IfSome, length};
ghost use Rattle.aio_word.specs.Events.{actor_count};
ghost use Rattle.aio_word.specs.Tokens.{IsInFlight};
ghost use Rattle.aio_handle.specs.EndStates.{HasNoOwnerTokens, AllReclaimed};
ghost use Rattle.aio_handle.specs.ContractViews.{IsActorOf, IsSameActor};
ghost use Rattle.aio_fixtures.specs.Actors.{AreAtRest};
ghost use Rattle.aio_fixtures.specs.Lives.{HasUnreclaimed};

use aio_fixtures::{EmptyIo, claim_and_complete, submit_acquired, submit_io, take_and_reclaim};
use aio_handle::{AcquireRefusal, Actor, HandedOut, InFlight, Table};
use aio_word::Class;
use page_check::World;

/// Claims, completes and reclaims an I/O of the actor's own.
fn end_own<W: World>(
    table: &Table<EmptyIo, W>,
    actor: &mut Actor<EmptyIo, W>,
    token: InFlight<W>,
) -> bool
    requires table { IsActorOf table.now actor.old }
    requires token { IsInFlight actor.old.known token }
    requires unreclaimed { HasUnreclaimed (token ∷ []) actor.old.known }
    ensures same { IsSameActor actor.old actor.new }
    ensures no_owner_tokens { IsTrue result → HasNoOwnerTokens actor.new.known }
{
    claim_and_complete(table, actor, token.reference(), Class::Whole)
        && take_and_reclaim(table, actor, token)
}

/// One whole life of a handle that was acquired, by the actor alone.
pub(super) fn live_on<W: World>(
    table: &Table<EmptyIo, W>,
    actor: &mut Actor<EmptyIo, W>,
    token: HandedOut<W>,
) -> bool
    requires table { IsActorOf table.now actor.old }
    requires token { actor.old.known.out ≡ Some token }
    requires all_reclaimed { AllReclaimed actor.old.known }
    ensures same { IsSameActor actor.old actor.new }
    ensures no_owner_tokens { IsTrue result → HasNoOwnerTokens actor.new.known }
{
    let token = submit_acquired(table, actor, token, EmptyIo::new());
    end_own(table, actor, token)
}

/// The same, where it has a handle that is free.
pub(super) fn live<W: World>(table: &Table<EmptyIo, W>, actor: &mut Actor<EmptyIo, W>) -> bool
    requires table { IsActorOf table.now actor.old }
    requires backend { actor.old.known.number < table.now.config.backends }
    requires no_owner_tokens { HasNoOwnerTokens actor.old.known }
    ensures same { IsSameActor actor.old actor.new }
    ensures no_owner_tokens { IsTrue result → HasNoOwnerTokens actor.new.known }
{
    let Some(token) = submit_io(table, actor, EmptyIo::new()) else {
        return false;
    };
    end_own(table, actor, token)
}

/// Acquire, release, acquire, and one more acquire: what is out, and the refusal.
pub(super) fn acquire_again<W: World>(
    table: &Table<EmptyIo, W>,
    actor: &mut Actor<EmptyIo, W>,
) -> Option<(HandedOut<W>, AcquireRefusal)>
    requires table { IsActorOf table.now actor.old }
    requires backend { actor.old.known.number < table.now.config.backends }
    ensures same { IsSameActor actor.old actor.new }
    ensures out { IfSome result (λ t. actor.new.known.out ≡ Some t.0) }
    ensures marks { IfSome result (λ _. actor.new.known.marks ≡ actor.old.known.marks) }
{
    let Ok(token) = table.acquire(actor) else {
        return None;
    };
    table.release(actor, token);
    let Ok(token) = table.acquire(actor) else {
        return None;
    };
    let Err(refusal) = table.acquire(actor) else {
        return None;
    };
    Some((token, refusal))
}

/// Closes a table with all its actors: how many incarnations there were, and how many of them the
/// backends and the runners have claimed.
pub(super) fn close<W: World>(
    table: Table<EmptyIo, W>,
    actors: Vec<Actor<EmptyIo, W>>,
) -> (u128, u128, u128)
    requires all { AreAtRest table actors.items }
    requires count { length actors.items ≡ actor_count table.config }
{
    let totals = table.close(actors);
    (
        totals.incarnations(),
        totals.by_backends(),
        totals.by_runners(),
    )
}
