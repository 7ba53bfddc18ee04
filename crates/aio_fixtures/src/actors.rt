//! The actors of a table: taken out while it is new, and put together again to close it.
ghost use Rattle.std.specs.Prelude.{◌≡◌, ◌<◌, ◌+◌, IfOk, IfSome, IsSome, length};
ghost use Rattle.aio_word.specs.Events.{actor_count};
ghost use Rattle.aio_handle.specs.EndStates.{HasNoOwnerTokens};
ghost use Rattle.aio_handle.specs.TableInvariant.{initial_known};
ghost use Rattle.aio_handle.specs.ContractViews.{IsActorOf, AreNewActors};
ghost use Rattle.aio_fixtures.specs.Actors.{AreAtRest};

use aio_handle::{Actor, Record, Table, Totals};
use page_check::World;
use std::alloc::{AllocError, Global};

/// The last of the actors of a new table.
pub fn last_actor<R: Record, W: World>(
    table: &Table<R, W>,
    actors: &mut Vec<Actor<R, W>>,
) -> Option<Actor<R, W>>
    requires { AreNewActors table.now 0 actors.old.items }
    ensures left { AreNewActors table.now 0 actors.new.items }
    ensures number { 0 < length actors.old.items
        → length actors.new.items + 1 ≡ length actors.old.items }
    ensures some { 0 < length actors.old.items → IsSome result }
    ensures actor { IfSome result
        (λ a. a ≡ record {
          table = table.now.table;
          known =
              initial_known table.now.config (length actors.new.items);
        }) }
{
    match actors.pop() {
        Some(actor) => Some(actor),
        None => None,
    }
}

/// An empty list of actors of this table.
pub fn no_actors<R: Record, W: World>(table: &Table<R, W>, alloc: Global) -> Vec<Actor<R, W>>
    ensures all { AreAtRest table.now result.items }
    ensures count { length result.items ≡ 0 }
{
    let _ = table;
    Vec::new(alloc)
}

/// Adds an actor that is at rest to the list with which its table is closed.
pub fn add_actor<R: Record, W: World>(
    table: &Table<R, W>,
    actors: &mut Vec<Actor<R, W>>,
    actor: Actor<R, W>,
) -> Result<(), AllocError>
    requires table { IsActorOf table.now actor }
    requires no_owner_tokens { HasNoOwnerTokens actor.known }
    requires others { AreAtRest table.now actors.old.items }
    ensures all { IfOk result (λ _. AreAtRest table.now actors.new.items) }
    ensures count { IfOk result (λ _. length actors.new.items ≡ length actors.old.items + 1) }
{
    actors.push(actor)?;
    Ok(())
}

/// Closes a table of two actors that are at rest.
pub fn close_with_two<R: Record, W: World>(
    alloc: Global,
    table: Table<R, W>,
    first: Actor<R, W>,
    second: Actor<R, W>,
) -> Result<Totals, AllocError>
    requires table { IsActorOf table first × IsActorOf table second }
    requires no_owner_tokens { HasNoOwnerTokens first.known × HasNoOwnerTokens second.known }
    requires count { actor_count table.config ≡ 2 }
    ensures { IfOk result (λ t. t.incarnations ≡ t.by_backends + t.by_runners) }
{
    let mut actors = no_actors(&table, alloc);
    add_actor(&table, &mut actors, first)?;
    add_actor(&table, &mut actors, second)?;
    Ok(table.close(actors))
}
