//! The rule of the queue's entries, and what its steps add.
ghost use Rattle.std.specs.Prelude.{◌≡◌, ◌<◌, ◌++◌, ◌∷◌, [], ◌-◌, List, MatchOption};
ghost use Rattle.crossbeam_queue.specs.Fifo.{Held};
ghost use Rattle.crossbeam_queue.specs.Passes.{IsPassOf, IsSamePass, view};
ghost use Rattle.aio_word.specs.declared.WaitRef.{WaitRef};
ghost use Rattle.method_worker.specs.QueueRule.{queue_log, IsBalanced, LogAllows, all_parts};

use crate::log::Log;
use crate::words::ClosingWord;
use aio_word::WaitRef;
use crossbeam_queue::protocol::{Lesson, Outcome, Protocol, Split};
use crossbeam_queue::{Pass, RuledArrayQueue};
use page_check::World;
use std::marker::PhantomData;
use std::sync::Wait;

/// Each reference was pushed as often as it was popped and stands in the queue, and each is in
/// range.
pub(crate) struct EntryRule<W: World> {
    of: PhantomData<W>,
}

impl<W: World> Protocol<WaitRef, Log> for EntryRule<W> {
    ghost holds = { IsBalanced W.handles };

    ghost first = { queue_log all_parts [] [] };
}

/// A new seat has one part, and has pushed and popped nothing.
pub(crate) struct SeatSplit;

impl Split<Log> for SeatSplit {
    ghost left = { λ v. queue_log (v.parts - 1) v.pushes v.pops };

    ghost right = { λ v. queue_log 1 [] [] };
}

/// A push notes its reference.
pub(crate) struct PushStep<W: World> {
    of: PhantomData<W>,
}

impl<W: World> Outcome<WaitRef, Log> for PushStep<W> {
    ghost then = { λ v x w. (w ≡ queue_log v.parts (v.pushes ++ x ∷ []) v.pops)
        × ((items : List WaitRef) × LogAllows W.handles w (items ++ x ∷ [])) };
}

impl<W: World> Lesson<WaitRef, Log> for PushStep<W> {
    ghost fact = { λ v items. LogAllows W.handles v items };
}

/// A pop notes its reference, which is in range.
struct PopStep<W: World> {
    of: PhantomData<W>,
}

impl<W: World> Outcome<WaitRef, Log> for PopStep<W> {
    ghost then = { λ v x w. (w ≡ queue_log v.parts v.pushes (v.pops ++ x ∷ []))
        × (x.handle < W.handles)
        × ((items : List WaitRef) × LogAllows W.handles w items) };
}

impl<W: World> Lesson<WaitRef, Log> for PopStep<W> {
    ghost fact = { λ v items. LogAllows W.handles v items };
}

pub(crate) type RuledQueue<W> = RuledArrayQueue<WaitRef, Log, EntryRule<W>>;

pub(crate) type QueuePass = Pass<WaitRef, Log>;

/// Takes the oldest entry, for a seat that has read this closing word before. No other function
/// takes entries.
pub(crate) fn pop_entry<W: World, T: Wait>(
    rt: &T,
    entries: &RuledQueue<W>,
    pass: &mut QueuePass,
    _word: &ClosingWord,
) -> Option<WaitRef>
    requires queue { IsPassOf entries.now pass.old }
    requires parts { 0 < (view pass.old).parts }
    ensures queue { IsSamePass pass.old pass.new }
    ensures rule { MatchOption result ((view pass.new ≡ view pass.old)
        × Held 0 (LogAllows W.handles (view pass.old)))
        (λ x. (view pass.new ≡ queue_log (view pass.old).parts (view pass.old).pushes
        ((view pass.old).pops ++ x ∷ [])) × (x.handle < W.handles)
        × ((items : List WaitRef) × LogAllows W.handles (view pass.new) items)) }
{
    entries.pop_as::<PopStep<W>, T>(rt, pass)
}
