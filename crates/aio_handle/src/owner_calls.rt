//! The owner's calls: from an Idle handle to an I/O in flight, and from its result back.
ghost use Rattle.std.specs.Prelude.{◌≡◌, ℕ, ◌<◌, [], true, false, Some};
ghost use Rattle.std.specs.Prelude.{None, List, ◌+◌, IfOk, IfErr, IsTrue, ◌↔◌};
ghost use Rattle.aio_word.specs.declared.Class.{Class};
ghost use Rattle.aio_word.specs.declared.Class.TheVariants.{Unended};
ghost use Rattle.aio_word.specs.declared.Step.TheVariants.{HandOut, Release, Define, Stage};
ghost use Rattle.aio_word.specs.declared.Step.TheVariants.{Submit, Local, Reclaim};
ghost use Rattle.aio_word.specs.declared.Word.{Word};
ghost use Rattle.aio_word.specs.Events.{handle_count, actor_count};
ghost use Rattle.aio_word.specs.Stands.{IsIn};
ghost use Rattle.aio_word.specs.Tokens.{IsDefined, IsStaged, IsInFlight, IsLocal};
ghost use Rattle.aio_handle.specs.LifeWords.{idle_word, handed_out_word, defined_word, staged_word};
ghost use Rattle.aio_handle.specs.LifeWords.{unclaimed_word, taken_word};
ghost use Rattle.aio_handle.specs.CallEvents.{EventMade, WordLoaded, IsCompleted, TakesResult};
ghost use Rattle.aio_handle.specs.CallEvents.{HasWholeLife};
ghost use Rattle.aio_handle.specs.FreeHandles.{IsFree, IsCause};
ghost use Rattle.aio_handle.specs.TakeAnswer.{IfReady, IfNotYet};

use crate::actor::{AcquireRefusal, Actor};
use crate::front::move_slot_to_front;
use crate::own_handles::{OwnHandle, place_of, remember};
use crate::record::Record;
use crate::steps::{
    DefineStep, HandOutStep, LookStep, ReclaimStep, ReleaseStep, StageStep, SubmitStep, TakeStep,
};
use crate::table::{Table, number_of};
use crate::tokens::{Defined, HandedOut, InFlight, Local, Staged, Take};
use aio_word::{Class, State, WaitRef, Word, unpack};
use page_check::World;
use std::marker::PhantomData;

fn is_completed(word: &Word, generation: u64) -> bool
    ensures { IsTrue result ↔ IsCompleted word.now generation }
{
    word.generation == generation && matches!(word.state, State::CompletedShared)
}

impl<R: Record, W: World> Table<R, W> {
    ghost use Rattle.aio_handle.specs.ContractViews.{IsActorOf, IsSameActor};

    /// Hands out one of the backend's handles that is Idle below the last generation.
    ///
    /// It looks into the actor's own memory, from the place after the one that it gave last, and
    /// makes no step where it refuses.
    pub fn acquire(&self, actor: &mut Actor<R, W>) -> Result<HandedOut<W>, AcquireRefusal>
        requires table { IsActorOf self.now actor.old }
        requires backend { actor.old.known.number < self.now.config.backends }
        ensures same { IsSameActor actor.old actor.new }
        ensures event { IfOk result
            (λ t. EventMade HandOut t.handle (idle_word t.generation)
            (handed_out_word t.generation) [] actor.old.known actor.new.known) }
        ensures token { IfOk result (λ t. actor.new.known.out ≡ Some t) }
        ensures free { IfOk result
            (λ t. (actor.old.known.out ≡ None) × IsFree self.now.config actor.old.known t) }
        ensures refused { IfErr result
            (λ e. IsCause self.now.config actor.old.known e × (actor.new ≡ actor.old)) }
    {
        if actor.is_out {
            return Err(AcquireRefusal::OneIsOut);
        }
        match actor.free_handle() {
            Some(reference) => Ok(self.hand_out(actor, reference)),
            None => Err(AcquireRefusal::NoneFree),
        }
    }

    // Hands out this handle, of which the actor's marks say that it is free.
    fn hand_out(&self, actor: &mut Actor<R, W>, reference: WaitRef) -> HandedOut<W>
        requires table { IsActorOf self.now actor.old }
        requires range { reference.handle < handle_count self.now.config }
        requires free { (actor.old.known.out ≡ None)
            × IsFree self.now.config actor.old.known reference }
        ensures same { IsSameActor actor.old actor.new }
        ensures event { EventMade HandOut reference.handle (idle_word reference.generation)
            (handed_out_word reference.generation) [] actor.old.known actor.new.known }
        ensures token { (result ≡ reference) × (actor.new.known.out ≡ Some result) }
    {
        let word = number_of(
            State::HandedOut,
            false,
            Class::Unended,
            reference.generation,
        );
        self.inner
            .shared
            .swap::<HandOutStep>(&mut actor.seat, reference.handle as usize, word);
        actor.is_out = true;
        actor.turn = place_of(actor.config.per_backend, reference.handle) + 1;
        HandedOut {
            reference,
            marker: PhantomData,
        }
    }

    /// Gives the handle back, which is Idle under the same generation.
    pub fn release(&self, actor: &mut Actor<R, W>, token: HandedOut<W>)
        requires table { IsActorOf self.now actor.old }
        requires token { actor.old.known.out ≡ Some token }
        ensures same { IsSameActor actor.old actor.new }
        ensures event { EventMade Release token.handle (handed_out_word token.generation)
            (idle_word token.generation) [] actor.old.known actor.new.known }
    {
        let HandedOut {
            reference,
            marker: _,
        } = token;
        let handle = reference.handle as usize;
        let word = number_of(State::Idle, false, Class::Unended, reference.generation);
        move_slot_to_front(&mut actor.seat, handle);
        self.inner
            .shared
            .swap::<ReleaseStep>(&mut actor.seat, handle, word);
        actor.is_out = false;
    }

    /// Binds the record to the handle that the actor has handed out.
    pub fn define(&self, actor: &mut Actor<R, W>, token: HandedOut<W>, mut io: R) -> Defined<R, W>
        requires table { IsActorOf self.now actor.old }
        requires token { actor.old.known.out ≡ Some token }
        requires fits { R.fits W.told W.relations io }
        ensures same { IsSameActor actor.old actor.new }
        ensures event { EventMade Define token.handle (handed_out_word token.generation)
            (defined_word token.generation) [] actor.old.known actor.new.known }
        ensures token { (result.0 ≡ token) × (R.aim result.1 ≡ R.aim io)
            × IsDefined actor.new.known result.0 }
    {
        let HandedOut {
            reference,
            marker: _,
        } = token;
        io.bind(reference.handle, reference.generation);
        let word = number_of(State::Defined, false, Class::Unended, reference.generation);
        self.inner
            .shared
            .swap::<DefineStep>(&mut actor.seat, reference.handle as usize, word);
        let life = OwnHandle {
            generation: reference.generation,
            is_defined: true,
        };
        remember(
            &mut actor.own,
            actor.config.per_backend,
            reference.handle,
            life,
        );
        actor.is_out = false;
        Defined {
            reference,
            io,
            marker: PhantomData,
        }
    }

    /// The I/O may be submitted.
    pub fn stage(&self, actor: &mut Actor<R, W>, token: Defined<R, W>) -> Staged<R, W>
        requires table { IsActorOf self.now actor.old }
        requires token { IsDefined actor.old.known token.0 }
        ensures same { IsSameActor actor.old actor.new }
        ensures event { EventMade Stage token.0.handle (defined_word token.0.generation)
            (staged_word token.0.generation) [] actor.old.known actor.new.known }
        ensures token { (result ≡ token) × IsStaged actor.new.known result.0 }
    {
        let Defined {
            reference,
            io,
            marker: _,
        } = token;
        let word = number_of(State::Staged, false, Class::Unended, reference.generation);
        self.inner
            .shared
            .swap::<StageStep>(&mut actor.seat, reference.handle as usize, word);
        Staged {
            reference,
            io,
            marker: PhantomData,
        }
    }

    /// Lays the record into the handle's slot, where anybody may claim it.
    pub fn submit(&self, actor: &mut Actor<R, W>, token: Staged<R, W>) -> InFlight<W>
        requires table { IsActorOf self.now actor.old }
        requires token { IsStaged actor.old.known token.0 }
        ensures same { IsSameActor actor.old actor.new }
        ensures event { EventMade Submit token.0.handle (staged_word token.0.generation)
            (unclaimed_word token.0.generation) (R.aim token.1) actor.old.known actor.new.known }
        ensures token { (result ≡ token.0) × IsInFlight actor.new.known result
            × IsIn (result, R.aim token.1) actor.new.known.aims }
    {
        let Staged {
            reference,
            io,
            marker: _,
        } = token;
        let handle = reference.handle as usize;
        let word = number_of(
            State::Submitted,
            false,
            Class::Unended,
            reference.generation,
        );
        move_slot_to_front(&mut actor.seat, handle);
        self.inner
            .shared
            .exchange(&mut actor.seat, handle, Some(io));
        self.inner
            .shared
            .swap::<SubmitStep>(&mut actor.seat, handle, word);
        InFlight {
            reference,
            marker: PhantomData,
        }
    }

    /// Takes the result of one's own I/O, where it has ended.
    pub fn try_take(&self, actor: &mut Actor<R, W>, token: InFlight<W>) -> Take<R, W>
        requires table { IsActorOf self.now actor.old }
        requires token { IsInFlight actor.old.known token }
        ensures same { IsSameActor actor.old actor.new }
        ensures not_yet { IfNotYet result
            (λ t. (t ≡ token) × IsInFlight actor.new.known t
            × ((w : Word) × WordLoaded token.handle w actor.old.known actor.new.known
            × (IsCompleted w token.generation → ⊥))) }
        ensures ready { IfReady result
            (λ t. (t.0 ≡ token) × IsLocal actor.new.known t.0
            × TakesResult token actor.old.known actor.new.known (R.label t.1)) }
        ensures sole_actor { IfReady result
            (λ t. actor_count self.now.config ≡ 1
            → HasWholeLife t.0 (R.label t.1).ended actor.new.known) }
        ensures record { IfReady result
            (λ t. R.fits W.told W.relations t.1
            × ((aim : List ℕ) → IsIn (token, aim) actor.old.known.aims → R.aim t.1 ≡ aim)) }
    {
        let InFlight {
            reference,
            marker: _,
        } = token;
        let handle = reference.handle as usize;
        let found = self.inner.shared.load::<LookStep>(&mut actor.seat, handle);
        let Ok(word) = unpack(found) else {
            unreachable!()
        };
        if !is_completed(&word, reference.generation) {
            return Take::NotYet(InFlight {
                reference,
                marker: PhantomData,
            });
        }
        self.inner
            .shared
            .fetch_add::<TakeStep<W>>(&mut actor.seat, handle, 1);
        match self.inner.shared.exchange(&mut actor.seat, handle, None) {
            Some(io) => Take::Ready(Local {
                reference,
                io,
                marker: PhantomData,
            }),
            None => unreachable!(),
        }
    }

    /// Gives the record back, and the handle is Idle under the next generation.
    pub fn reclaim(&self, actor: &mut Actor<R, W>, token: Local<R, W>) -> R
        requires table { IsActorOf self.now actor.old }
        requires token { IsLocal actor.old.known token.0 }
        requires settled { (R.label token.1).settled ≡ true }
        ensures same { IsSameActor actor.old actor.new }
        ensures event { (class : Class)
            × EventMade Reclaim token.0.handle (taken_word class token.0.generation)
            (idle_word (token.0.generation + 1)) [] actor.old.known actor.new.known }
        ensures record { result ≡ token.1 }
    {
        let Local {
            reference,
            io,
            marker: _,
        } = token;
        let handle = reference.handle as usize;
        move_slot_to_front(&mut actor.seat, handle);
        let word = number_of(State::Idle, false, Class::Unended, reference.generation + 1);
        self.inner
            .shared
            .swap::<ReclaimStep>(&mut actor.seat, handle, word);
        let life = OwnHandle {
            generation: reference.generation + 1,
            is_defined: false,
        };
        remember(
            &mut actor.own,
            actor.config.per_backend,
            reference.handle,
            life,
        );
        io
    }
}
