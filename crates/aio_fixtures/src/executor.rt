//! An executor for I/Os that read nothing.
ghost use Rattle.std.specs.Prelude.{◌≡◌};

use crate::claimer::complete_as;
use crate::empty_io::EmptyIo;
use aio_handle::{Actor, Claimed, Execute, Table};
use aio_word::Class;
use page_check::World;
use std::marker::PhantomData;
use std::sync::Wait;

/// An executor that completes each I/O as whole, and counts its calls.
#[derive(Drop)]
pub struct WholeExecutor<W: World> {
    pub calls: u64,
    marker: PhantomData<W>,
}

impl<W: World> WholeExecutor<W> {
    /// An executor that was not called yet.
    pub fn new() -> WholeExecutor<W>
        ensures { result.calls ≡ 0 }
    {
        WholeExecutor {
            calls: 0,
            marker: PhantomData,
        }
    }
}

impl<W: World> Execute<EmptyIo, W> for WholeExecutor<W> {
    ghost relations = { λ e. W.relations };

    ghost told = { λ e. W.told };

    ghost faults = { λ e. 0 };

    ghost reads = { λ e. e.calls };

    fn run<T: Wait>(
        &mut self,
        rt: &T,
        table: &Table<EmptyIo, W>,
        actor: &mut Actor<EmptyIo, W>,
        claimed: &mut Option<Claimed<EmptyIo, W>>,
    ) {
        let Some(claimed) = claimed.take() else {
            unreachable!()
        };
        self.calls = self.calls.saturating_add(1);
        complete_as(table, actor, claimed, Class::Whole);
    }
}
