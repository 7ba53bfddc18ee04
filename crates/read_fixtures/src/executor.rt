//! An executor for reads.
use aio_callback::{NoPlaces, Raw, ReadIo};
use aio_handle::{Actor, Claimed, Execute, Table};
use page_check::World;
use std::sync::Wait;

/// An executor that answers each read whole, and leaves its pages as they are. It counts its calls.
#[derive(Drop)]
pub struct WholeExecutor {
    pub calls: u64,
}

impl<W: World> Execute<ReadIo, W> for WholeExecutor {
    ghost use Rattle.std.specs.Prelude.{None};

    ghost relations = { λ _. W.relations };

    ghost told = { λ _. None };

    ghost faults = { λ _. 0 };

    ghost reads = { λ e. e.calls };

    fn run<T: Wait>(
        &mut self,
        rt: &T,
        table: &Table<ReadIo, W>,
        actor: &mut Actor<ReadIo, W>,
        claimed: &mut Option<Claimed<ReadIo, W>>,
    ) {
        let Some(mut claimed) = claimed.take() else {
            unreachable!()
        };
        let count = claimed.record().count();
        let raw = Raw::Read(count);
        claimed.record_mut().answer(raw);
        table.complete_io(actor, &mut claimed, raw.class(count));
        claimed
            .record_mut()
            .complete_shared::<W, NoPlaces, T>(rt, &mut NoPlaces);
        table.complete_shared(actor, claimed);
        self.calls = self.calls.saturating_add(1);
    }
}
