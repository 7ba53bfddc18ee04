//! When a runner completes its I/O, beside actors that wait for it.
ghost use Rattle.std.specs.Prelude.{◌<◌};

use aio_fixtures::EmptyIo;
use aio_handle::Table;
use page_check::World;
use std::sync::Wait;
use std::sync::atomic::{AtomicU64, Ordering};
use std::thread::yield_now;

/// When a runner completes its I/O: once so many actors have begun to wait, where it is to be so once
/// one of them rests on the handle, and once it has then given up its turn so often.
#[derive(Drop)]
pub(super) struct Moment {
    begun: AtomicU64,
    count: u64,
    rested: bool,
    turns: u32,
}

impl Moment {
    pub(super) fn new(count: u64, turns: u32) -> Moment {
        Moment {
            begun: AtomicU64::new(0),
            count,
            rested: false,
            turns,
        }
    }

    /// Once one actor rests on the handle.
    pub(super) fn when_rested() -> Moment {
        Moment {
            begun: AtomicU64::new(0),
            count: 1,
            rested: true,
            turns: 0,
        }
    }

    /// One more actor begins to wait.
    pub(super) fn begin(&self) {
        self.begun.fetch_add(1, Ordering::SeqCst);
    }

    pub(super) fn all_have_begun<T: Wait>(&self, rt: &T) {
        for _ in rt.forever() {
            if self.begun.load(Ordering::SeqCst) == self.count {
                break;
            }
            yield_now();
        }
    }

    pub(super) fn one_rests<W: World, T: Wait>(
        &self,
        rt: &T,
        table: &Table<EmptyIo, W>,
        handle: u32,
    )
        requires { handle < W.handles }
    {
        for _ in rt.forever() {
            if !self.rested || table.is_rested_on(handle) {
                break;
            }
            yield_now();
        }
    }

    pub(super) fn give_up_turns(&self) {
        for _ in 0..self.turns {
            yield_now();
        }
    }
}
