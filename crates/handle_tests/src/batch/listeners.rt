//! Who executes I/Os that read nothing, and who hears of them.
use aio_batch::Method;
use aio_fixtures::EmptyIo;
use aio_handle::{Actor, Claimed, Execute, Table};
use aio_word::WaitRef;
use page_check::World;
use std::marker::PhantomData;
use std::sync::Wait;

/// An executor that nobody calls: its call does not return.
#[derive(Drop)]
pub(super) struct Sleeper<W: World> {
    pub(super) marker: PhantomData<W>,
}

impl<W: World> Execute<EmptyIo, W> for Sleeper<W> {
    ghost relations = { λ e. W.relations };

    ghost told = { λ e. W.told };

    ghost faults = { λ e. 0 };

    ghost reads = { λ e. 0 };

    fn run<T: Wait>(
        &mut self,
        rt: &T,
        table: &Table<EmptyIo, W>,
        actor: &mut Actor<EmptyIo, W>,
        claimed: &mut Option<Claimed<EmptyIo, W>>,
    ) {
        for _ in rt.forever() {}
    }
}

/// A method that writes down what it hears, and leaves each I/O as it is.
#[derive(Drop)]
pub(super) struct Listener {
    pub(super) heard: Vec<WaitRef>,
}

impl<W: World> Method<EmptyIo, W> for Listener {
    ghost use Rattle.std.specs.Prelude.{Some, []};

    ghost heard = { λ m. Some m.heard.items };

    ghost stands_on = { λ _. [] };

    /// Where there is no memory for a reference, it does not return.
    fn begun<E: Execute<EmptyIo, W>, T: Wait>(
        &mut self,
        rt: &T,
        table: &Table<EmptyIo, W>,
        actor: &mut Actor<EmptyIo, W>,
        runner: &mut E,
        reference: WaitRef,
    ) {
        if self.heard.push(reference).is_err() {
            for _ in rt.forever() {}
        }
    }
}
