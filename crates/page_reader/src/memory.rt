//! The memory of a reader.
ghost use Rattle.std.specs.Prelude.{◌≡◌, ◌≤◌, IfOk};
ghost use Rattle.aio_word.specs.Words.{last_generation};
ghost use Rattle.aio_handle.specs.FreeHandles.{IsRoom};
ghost use Rattle.read_stream.specs.Desks.{AreValidSettings, IsFreeDesk, desk_settings};
ghost use Rattle.page_reader.specs.Readers.{IsAtRest};

use aio_callback::ReadIo;
use aio_handle::{Actor, Table};
use buf_pool::Pool;
use page_check::World;
use read_stream::{Desk, Settings};
use std::alloc::{AllocError, Global};

// The handles of the one backend: as many as there may be reads under way.
const HANDLES: u32 = 64;

/// A table with one backend, a pool, and the memory of a stream.
#[derive(Drop)]
pub(crate) struct Memory<W: World> {
    pub(crate) table: Table<ReadIo, W>,
    pub(crate) actor: Actor<ReadIo, W>,
    pub(crate) pool: Pool<W>,
    pub(crate) desk: Desk<W, ()>,
}

impl<W: World> Memory<W> {
    /// Takes all memory that readings with these settings need.
    pub(crate) fn open(
        alloc: Global,
        settings: &Settings,
        frames: u32,
    ) -> Result<Memory<W>, AllocError>
        requires handles { W.handles ≡ 64 }
        requires settings { AreValidSettings settings.now }
        requires frames { (16 ≤ frames) × (frames ≤ 16384) }
        ensures at_rest { IfOk result (λ memory. IsAtRest memory.table memory.actor) }
        ensures room { IfOk result (λ memory.
            IsRoom memory.actor.known.config memory.actor.known last_generation) }
        ensures desk { IfOk result (λ memory. IsFreeDesk memory.desk) }
        ensures settings { IfOk result (λ memory. desk_settings memory.desk ≡ settings.now) }
    {
        let (table, mut actors) = Table::<ReadIo, W>::open(alloc, 1, HANDLES, 0, 0)?;
        let pool = Pool::<W>::open(alloc, frames)?;
        let desk = Desk::open(alloc, settings)?;
        let Some(actor) = actors.pop() else {
            unreachable!()
        };
        Ok(Memory {
            table,
            actor,
            pool,
            desk,
        })
    }
}
