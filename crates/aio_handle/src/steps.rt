//! What each step tells. These types are for the proofs alone.
ghost use Rattle.std.specs.Prelude.{◌≡◌, [], ◌++◌};
ghost use Rattle.aio_word.specs.declared.Step.TheVariants.{Define, Stage};
ghost use Rattle.aio_handle.specs.Steps.{StepLoadsWord, KeepsSlots, Executes, HandsOut};
ghost use Rattle.aio_handle.specs.Steps.{Releases};
ghost use Rattle.aio_handle.specs.Steps.{Reclaims, Claims, Submits, Shares, TakesCompleted};
ghost use Rattle.aio_handle.specs.LifeWords.{handed_out_word, defined_word, staged_word};
ghost use Rattle.aio_handle.specs.Seats.{front_of, rest_of};
ghost use Rattle.aio_handle.specs.ActorPairs.{Compares};

use crate::record::Record;
use crate::rule::View;
use atomic_table::{Join, Play, Split};
use page_check::World;
use std::marker::PhantomData;

/// The first of a seat's lists goes to a new seat.
pub struct SplitFirst;

impl Split<View> for SplitFirst {
    ghost left = { rest_of };

    ghost right = { front_of };
}

/// All lists of a seat go to a new seat.
pub struct SplitAll;

impl Split<View> for SplitAll {
    ghost left = { λ v. [] };

    ghost right = { λ v. v };
}

/// Two seats' lists, the other's first.
pub struct JoinLists;

impl Join<View> for JoinLists {
    ghost both = { λ v w. w ++ v };

    ghost spent = { [] };
}

/// A new seat carries no list.
pub struct EmptySeat;

impl<R> Play<Option<R>, View> for EmptySeat {
    ghost then = { λ st m n m'. m'.0 ≡ [] };
}

pub struct HandOutStep;

impl<R> Play<Option<R>, View> for HandOutStep {
    ghost then = { HandsOut };
}

pub struct ReleaseStep;

impl<R> Play<Option<R>, View> for ReleaseStep {
    ghost then = { Releases };
}

pub struct DefineStep;

impl<R> Play<Option<R>, View> for DefineStep {
    ghost then = { KeepsSlots Define handed_out_word defined_word [] };
}

pub struct StageStep;

impl<R> Play<Option<R>, View> for StageStep {
    ghost then = { KeepsSlots Stage defined_word staged_word [] };
}

pub struct SubmitStep;

impl<R: Record> Play<Option<R>, View> for SubmitStep {
    ghost then = { Submits R.aim };
}

pub struct ClaimStep<W> {
    marker: PhantomData<W>,
}

impl<R: Record, W: World> Play<Option<R>, View> for ClaimStep<W> {
    ghost then = { Claims R.label R.aim (R.fits W.told W.relations) };
}

pub struct ExecuteStep;

impl<R> Play<Option<R>, View> for ExecuteStep {
    ghost then = { Executes };
}

pub struct ShareStep;

impl<R> Play<Option<R>, View> for ShareStep {
    ghost then = { Shares };
}

pub struct TakeStep<W> {
    marker: PhantomData<W>,
}

impl<R: Record, W: World> Play<Option<R>, View> for TakeStep<W> {
    ghost then = { TakesCompleted R.label R.aim (R.fits W.told W.relations) };
}

pub struct ReclaimStep;

impl<R> Play<Option<R>, View> for ReclaimStep {
    ghost then = { Reclaims };
}

pub struct LookStep;

impl<R> Play<Option<R>, View> for LookStep {
    ghost then = { StepLoadsWord };
}

/// Two lists that lie in one seat stand together.
pub struct CompareAt;

impl<R> Play<Option<R>, View> for CompareAt {
    ghost then = { Compares };
}
