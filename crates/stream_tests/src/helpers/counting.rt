//! A method that counts.

use aio_batch::Method;
use aio_callback::ReadIo;
use aio_handle::{Actor, Execute, Table};
use aio_word::WaitRef;
use method_sync::SyncMethod;
use page_check::World;
use std::sync::Wait;

/// Executes each I/O as it begins, and counts those of which it heard, and the batches.
#[derive(Drop)]
pub(crate) struct CountingSync {
    pub heard: u64,
    pub batches: u64,
}

impl CountingSync {
    /// It has heard of nothing.
    pub(crate) fn new() -> CountingSync {
        CountingSync {
            heard: 0,
            batches: 0,
        }
    }
}

impl<W: World> Method<ReadIo, W> for CountingSync {
    ghost use Rattle.std.specs.Prelude.{None, []};

    ghost heard = { λ _. None };

    ghost stands_on = { λ _. [] };

    fn begun<E: Execute<ReadIo, W>, T: Wait>(
        &mut self,
        rt: &T,
        table: &Table<ReadIo, W>,
        actor: &mut Actor<ReadIo, W>,
        runner: &mut E,
        reference: WaitRef,
    ) {
        self.heard = self.heard.saturating_add(1);
        SyncMethod.begun(rt, table, actor, runner, reference);
    }

    fn batch_submitted<E: Execute<ReadIo, W>, T: Wait>(
        &mut self,
        rt: &T,
        table: &Table<ReadIo, W>,
        actor: &mut Actor<ReadIo, W>,
        runner: &mut E,
        references: &[WaitRef],
    ) {
        self.batches = self.batches.saturating_add(1);
        self.heard = self.heard.saturating_add(references.len() as u64);
        SyncMethod.batch_submitted(rt, table, actor, runner, references);
    }
}
