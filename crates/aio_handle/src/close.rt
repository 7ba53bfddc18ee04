//! The end of a table, and what its handles went through.
ghost use Rattle.std.specs.Prelude.{◌≡◌, ◌<◌, ◌+◌, ◌^◌, ◌-◌, All, map, length, min};
ghost use Rattle.std.specs.Mem.Slots.{IsFull};
ghost use Rattle.aio_word.specs.Events.{actor_count};
ghost use Rattle.aio_word.specs.Totals.{by_backends as claimed_by_backends};
ghost use Rattle.aio_word.specs.Totals.{by_runners as claimed_by_runners};
ghost use Rattle.aio_handle.specs.ContractViews.{IsActorOf, actor_known};
ghost use Rattle.aio_handle.specs.EndStates.{NoneHasOwnerTokens, EndState, AreTotals};

use crate::actor::Actor;
use crate::record::Record;
use crate::rule::View;
use crate::steps::{EmptySeat, JoinLists, SplitAll};
use crate::table::Table;
use aio_word::Config;
use atomic_table::{Closed, Seat};
use page_check::World;
use std::alloc::Global;
use std::marker::Model;

/// How many incarnations the handles of a table had, and who claimed them. `Table::close` alone
/// makes one.
#[derive(Drop)]
pub struct Totals {
    incarnations: u128,
    by_backends: u128,
    by_runners: u128,
}

impl Model for Totals {
    ghost use Rattle.aio_handle.specs.EndStates.{TotalsView};

    ghost Value = { TotalsView };

    ghost view = { λ t.
        record {
          incarnations = t.incarnations;
          by_backends = t.by_backends;
          by_runners =
              t.by_runners;
        } };
}

impl Totals {
    /// How many incarnations were reclaimed: the sum over the handles of the last generation less
    /// the first.
    pub fn incarnations(&self) -> u128
        ensures { result ≡ self.now.incarnations }
    {
        self.incarnations
    }

    /// How many of them a backend claimed.
    pub fn by_backends(&self) -> u128
        ensures { result ≡ self.now.by_backends }
    {
        self.by_backends
    }

    /// How many of them a runner claimed.
    pub fn by_runners(&self) -> u128
        ensures { result ≡ self.now.by_runners }
    {
        self.by_runners
    }
}

/// How often the backends and the runners among these actors have claimed.
fn count_claims<R: Record, W: World>(config: &Config, actors: &[Actor<R, W>]) -> (u128, u128)
    ensures backends { result.0 ≡ min (claimed_by_backends config.now (map actor_known actors.now))
        (2 ^ 128 - 1) }
    ensures runners { result.1 ≡ min (claimed_by_runners config.now (map actor_known actors.now))
        (2 ^ 128 - 1) }
{
    let mut by_backends: u128 = 0;
    let mut by_runners: u128 = 0;
    for k in 0..actors.len() {
        let (backend, runner) = actors[k].claims(config.backends);
        by_backends = by_backends.saturating_add(backend);
        by_runners = by_runners.saturating_add(runner);
    }
    (by_backends, by_runners)
}

/// Drops what lies in the slots, and gives the memory back.
fn discard<R: Record>(mut closed: Closed<Option<R>, Global>)
    requires { IsFull closed.slots }
{
    for slot in 0..closed.slot_count() {
        drop(closed.take(slot));
    }
    closed.free();
}

impl<R: Record, W: World> Table<R, W> {
    /// Ends the table, where all its actors are handed in and no token is out: the lists then
    /// stand for words that are all Idle. It takes no memory.
    pub fn close(self, actors: Vec<Actor<R, W>>) -> Totals
        requires table { All (IsActorOf self) actors.items }
        requires all { length actors.items ≡ actor_count self.config }
        requires no_owner_tokens { NoneHasOwnerTokens (map actor_known actors.items) }
        ensures { AreTotals self.config (map actor_known actors.items) result }
    {
        let (by_backends, by_runners) = count_claims(&self.config, actors.as_slice());
        discard(self.end(actors));
        Totals {
            incarnations: by_backends + by_runners,
            by_backends,
            by_runners,
        }
    }

    // The words and slots at the end, with what the lists then say.
    fn end(self, actors: Vec<Actor<R, W>>) -> Closed<Option<R>, Global>
        requires table { All (IsActorOf self) actors.items }
        requires all { length actors.items ≡ actor_count self.config }
        requires no_owner_tokens { NoneHasOwnerTokens (map actor_known actors.items) }
        ensures slots { IsFull result.slots }
        ensures end_state { EndState self.config (map actor_known actors.items) }
        ensures small { claimed_by_backends self.config
            (map actor_known actors.items) + claimed_by_runners self.config
            (map actor_known actors.items) < 2 ^ 128 - 1 }
    {
        let seat = self.join_seats(actors);
        let Table {
            inner,
            config: _,
            sleepers: _,
        } = self;
        inner.close_with(seat)
    }

    // One seat with the lists of all these actors, in their order.
    fn join_seats(&self, mut actors: Vec<Actor<R, W>>) -> Seat<Option<R>, View>
        requires table { All (IsActorOf self.now) actors.items }
        ensures table { result.table_id ≡ self.now.table }
        ensures lists { result.me.0 ≡ map actor_known actors.items }
    {
        let mut all = self.inner.shared.load_new_seat::<EmptySeat>(0).1;
        while let Some(actor) = actors.pop() {
            let Actor { mut seat, .. } = actor;
            let lists = self.inner.shared.split_seat::<SplitAll>(&mut seat);
            self.inner.shared.join_seat::<JoinLists>(&mut all, lists);
        }
        all
    }
}
