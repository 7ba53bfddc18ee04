//! Whether an incarnation is done.
ghost use Rattle.std.specs.Prelude.{◌<◌, IsTrue};
ghost use Rattle.aio_word.specs.declared.Word.{Word};
ghost use Rattle.aio_word.specs.Tokens.{HasSeenDone};
ghost use Rattle.aio_handle.specs.CallEvents.{WordLoaded, CheckAnswer};

use crate::actor::Actor;
use crate::record::Record;
use crate::steps::LookStep;
use crate::table::Table;
use aio_word::{WaitRef, done, unpack};
use page_check::World;
use std::sync::Wait;

impl<R: Record, W: World> Table<R, W> {
    ghost use Rattle.aio_handle.specs.ContractViews.{IsActorOf, IsSameActor};

    /// Whether the incarnation of the reference has ended. It looks once.
    pub fn check(&self, actor: &mut Actor<R, W>, reference: WaitRef) -> bool
        requires table { IsActorOf self.now actor.old }
        requires range { reference.handle < W.handles }
        ensures same { IsSameActor actor.old actor.new }
        ensures look { CheckAnswer reference result actor.old.known actor.new.known }
        ensures seen_done { HasSeenDone actor.old.known reference → IsTrue result }
    {
        let number = self
            .inner
            .shared
            .load::<LookStep>(&mut actor.seat, reference.handle as usize);
        match unpack(number) {
            Ok(word) => done(&word, reference),
            Err(_) => unreachable!(),
        }
    }

    /// Returns at once where its look finds the incarnation done, else sleeps until a wake.
    pub fn rest<T: Wait>(&self, rt: &T, actor: &mut Actor<R, W>, reference: WaitRef)
        requires table { IsActorOf self.now actor.old }
        requires range { reference.handle < W.handles }
        ensures same { IsSameActor actor.old actor.new }
        ensures look { (w : Word) × WordLoaded reference.handle w actor.old.known actor.new.known }
    {
        let handle = reference.handle as usize;
        let found = self.inner.shared.load::<LookStep>(&mut actor.seat, handle);
        let Ok(word) = unpack(found) else {
            unreachable!()
        };
        if !done(&word, reference) {
            self.sleepers.begin(handle);
            self.inner
                .shared
                .park(rt, handle, (found % (1 << 32)) as u32);
            self.sleepers.end(handle);
        }
    }

    /// Whether an actor rests on the handle, or is about to: what a view of waiting backends shows
    /// (`AioIoCompletion` of `pg_stat_activity`). It may no longer be so once the answer is there.
    pub fn is_rested_on(&self, handle: u32) -> bool
        requires range { handle < W.handles }
    {
        self.sleepers.are_on(handle as usize)
    }
}
