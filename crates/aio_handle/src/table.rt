//! The table of handles.
ghost use Rattle.std.specs.Prelude.{◌≡◌, ◌*◌, ◌^◌, ◌<◌, [], false, List, ◌∷◌, ◌+◌, ◌≤◌, IfOk};
ghost use Rattle.std.specs.Prelude.{length};
ghost use Rattle.aio_word.specs.declared.Class.{Class};
ghost use Rattle.aio_word.specs.declared.Word.{Word};
ghost use Rattle.aio_word.specs.declared.Known.{Known};
ghost use Rattle.aio_word.specs.Words.{IsLawful, packed_word};
ghost use Rattle.aio_word.specs.Events.{handle_count, actor_count, make_word};
ghost use Rattle.aio_handle.specs.TableInvariant.{initial_known};

use crate::actor::Actor;
use crate::own_handles::OwnHandle;
use crate::record::Record;
use crate::rule::{Handles, View};
use crate::sleepers::Sleepers;
use crate::steps::SplitFirst;
use aio_word::{Class, Config, State, Word, pack};
use atomic_table::Seat;
use page_check::World;
use std::alloc::{AllocError, Global};
use std::marker::{Model, PhantomData};

/// The table that all actors share. Contracts see which table it is, and its numbers.
///
/// Each handle has one word and one slot. Whatever calls are in the middle, the words and all
/// actors' lists are at every moment a state that the machine of handles can reach: that is the
/// rule of its `atomic_table::Table` (`TableInvariant` in `specs`).
#[derive(Drop)]
pub struct Table<R: Record, W: World> {
    pub(crate) inner: atomic_table::Table<Option<R>, View, Config, Handles<R, W>, Global>,
    pub(crate) config: Config,
    pub(crate) sleepers: Sleepers,
}

impl<R: Record, W: World> Model for Table<R, W> {
    ghost use Rattle.std.specs.Prelude.{◌≡◌};
    ghost use Rattle.aio_word.specs.Events.{handle_count};
    ghost use Rattle.aio_handle.specs.ContractViews.{TableView, IsConfig};

    ghost Value = { TableView };

    ghost view = { λ t. record { table = t.inner.shared.table_id; config = t.config } };

    ghost invariant = { λ t. (t.inner.shared.key ≡ t.config)
        × (t.inner.shared.table_id.words ≡ handle_count t.config)
        × (t.inner.shared.table_id.slots ≡ handle_count t.config)
        × (handle_count t.config ≡ W.handles)
        × IsConfig t.config × (t.sleepers ≡ handle_count t.config) };
}

/// The number that the word with these fields packs to.
pub(crate) fn number_of(state: State, claimed: bool, class: Class, generation: u64) -> u64
    requires { IsLawful (make_word state claimed class generation) }
    ensures { result ≡ packed_word (make_word state claimed class generation) }
{
    pack(&Word {
        state,
        claimed,
        class,
        generation,
    })
}

/// How many handles the actor of this number owns.
fn own_count(config: &Config, number: u32) -> usize
    ensures of_backend { number < config.now.backends → result ≡ config.now.per_backend }
    ensures of_runner { config.now.backends ≤ number → result ≡ 0 }
{
    if number < config.backends {
        config.per_backend as usize
    } else {
        0
    }
}

impl<R: Record, W: World> Table<R, W> {
    ghost use Rattle.aio_handle.specs.ContractViews.{AreNewActors};
    ghost use Rattle.aio_handle.specs.Seats.{rest_of};

    /// A table whose handles are all Idle at generation `start`, and its actors in the order of
    /// their numbers, the backends first: backend `b` owns the handles from `b * per_backend` to
    /// `(b + 1) * per_backend - 1`. It takes all memory that the table and its actors ever take:
    /// a word, a slot with room for a record, a count of sleepers and an owner's note for each
    /// handle.
    pub fn open(
        alloc: Global,
        backends: u32,
        per_backend: u32,
        runners: u32,
        start: u64,
    ) -> Result<(Table<R, W>, Vec<Actor<R, W>>), AllocError>
        requires backends { (1 ≤ backends) × (backends ≤ 16) }
        requires per_backend { (1 ≤ per_backend) × (per_backend ≤ 64) }
        requires handles { backends * per_backend ≡ W.handles }
        requires runners { runners ≤ 32 }
        requires start { start < 2 ^ 58 }
        ensures table { IfOk result
            (λ t. t.0.config ≡
            record {
              backends = backends;
              per_backend = per_backend;
              runners = runners;
              start =
                  start;
            }) }
        ensures count { IfOk result (λ t. length t.1.items ≡ backends + runners) }
        ensures actors { IfOk result (λ t. AreNewActors t.0 0 t.1.items) }
    {
        let config = Config {
            backends,
            per_backend,
            runners,
            start,
        };
        let count = (backends * per_backend) as usize;
        let number = backends + runners;
        let mut actors = Vec::with_capacity(alloc, number as usize)?;
        let words = Vec::from_elem(alloc, 64 * start, count)?;
        let sleepers = Sleepers::none(alloc, count)?;
        let (inner, mut seat) = atomic_table::Table::vacant(
            alloc,
            words.as_slice(),
            count,
            &config,
        )?;
        let table = Table {
            inner,
            config,
            sleepers,
        };
        for n in 0..number {
            let actor = table.new_actor(alloc, &mut seat, n)?;
            actors.push_reserved(actor);
        }
        Ok((table, actors))
    }

    // The actor of this number, whose list is the first that the seat carries.
    fn new_actor(
        &self,
        alloc: Global,
        seat: &mut Seat<Option<R>, View>,
        number: u32,
    ) -> Result<Actor<R, W>, AllocError>
        requires table { seat.old.table_id ≡ self.now.table }
        requires number { number < actor_count self.now.config }
        requires view { (ps : List Known)
            × (seat.old.me ≡ (initial_known self.now.config number ∷ ps, [])) }
        ensures seat { IfOk result
            (λ _. (seat.new.table_id ≡ seat.old.table_id)
            × (seat.new.me ≡ (rest_of seat.old.me.0, []))) }
        ensures actor { IfOk result
            (λ a. a ≡ record {
              table = self.now.table;
              known =
                  initial_known self.now.config number;
            }) }
    {
        let first = OwnHandle {
            generation: self.config.start,
            is_defined: false,
        };
        let count = own_count(&self.config, number);
        let own = Vec::from_elem(alloc, first, count)?;
        Ok(Actor {
            seat: self.inner.shared.split_seat::<SplitFirst>(seat),
            number,
            config: self.config,
            own,
            turn: 0,
            is_out: false,
            claims: 0,
            marker: PhantomData,
        })
    }
}
