//! The claimer's calls: an I/O is claimed, executed and shared.
ghost use Rattle.std.specs.Prelude.{◌≡◌, ◌≢◌, ◌<◌, [], true, false, Some, None, IfSome, IfNone};
ghost use Rattle.std.specs.Prelude.{IsTrue, IsFalse};
ghost use Rattle.aio_word.specs.declared.Class.{Class};
ghost use Rattle.aio_word.specs.declared.Class.TheVariants.{Unended};
ghost use Rattle.aio_word.specs.declared.Step.TheVariants.{Claim, Io, Shared};
ghost use Rattle.aio_word.specs.declared.Word.{Word};
ghost use Rattle.aio_word.specs.Events.{handle_count};
ghost use Rattle.aio_word.specs.Stands.{IsIn};
ghost use Rattle.aio_word.specs.Tokens.{IsClaimed, IsExecuted, HasSeenDone};
ghost use Rattle.aio_handle.specs.Execution.{ExecutesAll};
ghost use Rattle.aio_handle.specs.Labels.{bound_label};
ghost use Rattle.aio_handle.specs.LifeWords.{unclaimed_word, claimed_word, executed_word};
ghost use Rattle.aio_handle.specs.LifeWords.{completed_word};
ghost use Rattle.aio_handle.specs.CallEvents.{EventMade, WordLoaded};
ghost use Rattle.aio_handle.specs.ClaimAttempt.{ClaimWon, ClaimLost, OwnerKnowsClaimed};

use crate::actor::Actor;
use crate::execute::Execute;
use crate::front::move_slot_to_front;
use crate::record::Record;
use crate::steps::{ClaimStep, ExecuteStep, LookStep, ShareStep};
use crate::table::{Table, number_of};
use crate::tokens::Claimed;
use aio_word::{Class, LAST_GENERATION, State, WaitRef};
use page_check::World;
use std::marker::PhantomData;
use std::sync::Wait;

impl<R: Record, W: World> Table<R, W> {
    ghost use Rattle.aio_handle.specs.ContractViews.{IsActorOf, IsSameActor};

    /// Takes the record of an I/O that nobody has claimed.
    pub fn claim(&self, actor: &mut Actor<R, W>, reference: WaitRef) -> Option<Claimed<R, W>>
        requires table { IsActorOf self.now actor.old }
        requires range { reference.handle < W.handles }
        ensures same { IsSameActor actor.old actor.new }
        ensures won { IfSome result
            (λ t. (t.0 ≡ reference)
            × EventMade Claim reference.handle (unclaimed_word reference.generation)
            (claimed_word reference.generation) (R.aim t.1) actor.old.known actor.new.known) }
        ensures token { IfSome result
            (λ t. IsClaimed actor.new.known t.0 × IsIn (t.0, R.aim t.1) actor.new.known.aims) }
        ensures record { IfSome result
            (λ t. (R.label t.1 ≡ bound_label reference.handle reference.generation)
            × R.fits W.told W.relations t.1) }
        ensures lost { IfNone result
            ((w : Word) × WordLoaded reference.handle w actor.old.known actor.new.known
            × (w ≢ unclaimed_word reference.generation)) }
    {
        let handle = reference.handle as usize;
        if reference.generation > LAST_GENERATION {
            self.inner.shared.load::<LookStep>(&mut actor.seat, handle);
            return None;
        }
        let old = number_of(
            State::Submitted,
            false,
            Class::Unended,
            reference.generation,
        );
        let new = number_of(State::Submitted, true, Class::Unended, reference.generation);
        let found = self
            .inner
            .shared
            .compare_exchange::<ClaimStep<W>>(&mut actor.seat, handle, old, new);
        if found != old {
            return None;
        }
        match self.inner.shared.exchange(&mut actor.seat, handle, None) {
            Some(io) => {
                actor.claims = actor.claims.saturating_add(1);
                Some(Claimed {
                    reference,
                    io,
                    marker: PhantomData,
                })
            }
            None => unreachable!(),
        }
    }

    /// Tries to claim an I/O, and executes it by the runner where it wins the claim: what a method
    /// that executes in place, a waiter and a worker do. True exactly where it has won.
    ///
    /// It tries once. Where the claim is lost, the actor has only looked.
    pub fn try_execute<E: Execute<R, W>, T: Wait>(
        &self,
        rt: &T,
        actor: &mut Actor<R, W>,
        reference: WaitRef,
        runner: &mut E,
    ) -> bool
        requires table { IsActorOf self.now actor.old }
        requires told { (E.told runner.old ≡ W.told) × (E.relations runner.old ≡ W.relations) }
        requires range { reference.handle < W.handles }
        ensures same { IsSameActor actor.old actor.new }
        ensures told { (E.told runner.new ≡ E.told runner.old)
            × (E.relations runner.new ≡ E.relations runner.old) }
        ensures marks { ExecutesAll [] actor.old.known actor.new.known (E.reads runner.old)
            (E.reads runner.new) (E.faults runner.old) (E.faults runner.new) }
        ensures sees { OwnerKnowsClaimed reference actor.old.known actor.new.known }
        ensures won { IsTrue result → HasSeenDone actor.new.known reference
            × ClaimWon reference actor.old.known actor.new.known (E.reads runner.old)
            (E.reads runner.new) (E.faults runner.old) (E.faults runner.new) }
        ensures lost { IsFalse result → (runner.new ≡ runner.old)
            × ClaimLost reference actor.old.known actor.new.known }
    {
        actor.has_seen_its_marks();
        match self.claim(actor, reference) {
            Some(claimed) => {
                runner.execute(rt, self, actor, claimed);
                actor.has_seen_its_marks();
                true
            }
            None => false,
        }
    }

    /// The claimed I/O was executed, and ended so.
    pub fn complete_io(&self, actor: &mut Actor<R, W>, claimed: &mut Claimed<R, W>, class: Class)
        requires table { IsActorOf self.now actor.old }
        requires token { IsClaimed actor.old.known claimed.old.0 }
        requires class { class ≢ Unended }
        ensures same { IsSameActor actor.old actor.new }
        ensures event { EventMade (Io class) claimed.old.0.handle
            (claimed_word claimed.old.0.generation)
            (executed_word class claimed.old.0.generation) [] actor.old.known actor.new.known }
        ensures token { (claimed.new ≡ claimed.old)
            × IsExecuted class actor.new.known claimed.new.0 }
    {
        let word = number_of(
            State::CompletedIo,
            true,
            class,
            claimed.reference.generation,
        );
        self.inner
            .shared
            .swap::<ExecuteStep>(&mut actor.seat, claimed.reference.handle as usize, word);
    }

    /// The record goes home, ended, and those who rest on the handle are woken.
    pub fn complete_shared(&self, actor: &mut Actor<R, W>, claimed: Claimed<R, W>)
        requires table { IsActorOf self.now actor.old }
        requires token { IsExecuted (R.label claimed.1).ended actor.old.known claimed.0
            × ((R.label claimed.1).ended ≢ Unended) }
        requires label { R.label claimed.1 ≡
            record {
              handle = claimed.0.handle;
              generation = claimed.0.generation;
              ended =
                  (R.label claimed.1).ended;
              settled = false;
            } }
        requires aim { IsIn (claimed.0, R.aim claimed.1) actor.old.known.aims }
        requires fits { R.fits W.told W.relations claimed.1 }
        ensures same { IsSameActor actor.old actor.new }
        ensures event { let class = (R.label claimed.1).ended in
            EventMade Shared claimed.0.handle (executed_word class claimed.0.generation)
            (completed_word class claimed.0.generation) [] actor.old.known actor.new.known }
    {
        let Claimed {
            reference,
            io,
            marker: _,
        } = claimed;
        let handle = reference.handle as usize;
        let word = number_of(
            State::CompletedShared,
            false,
            io.ended(),
            reference.generation,
        );
        move_slot_to_front(&mut actor.seat, handle);
        self.inner
            .shared
            .exchange(&mut actor.seat, handle, Some(io));
        self.inner
            .shared
            .swap::<ShareStep>(&mut actor.seat, handle, word);
        self.wake(reference.handle);
    }

    // Wakes those who rest on the handle. It makes a system call only where somebody rests on it:
    // who rests is counted before it looks at the word for the last time, and the word has changed
    // before the count is read here, so either the count shows the sleeper or it does not sleep.
    fn wake(&self, handle: u32)
        requires range { handle < handle_count self.now.config }
    {
        if self.sleepers.are_on(handle as usize) {
            self.inner.shared.wake_all(handle as usize);
        }
    }
}
