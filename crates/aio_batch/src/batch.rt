//! I/Os that are staged, in the order in which they were pushed.
ghost use Rattle.std.specs.Prelude.{◌≡◌, ◌≤◌, ◌<◌, ℕ, [], ◌∷◌, ◌++◌, length, IfOk, IfErr, IfSome, IfNone};
ghost use Rattle.aio_handle.specs.ContractViews.{IsActorOf, IsSameActor};
ghost use Rattle.aio_batch.specs.Heard.{AppendsHeard};
ghost use Rattle.aio_batch.specs.StagedTokens.{AreStagedTokens};
ghost use Rattle.aio_batch.specs.NextSubmission.{IsNextSubmission};

use crate::method::Method;
use aio_handle::{Actor, Execute, InFlight, Record, Staged, Table};
use page_check::World;
use std::alloc::{AllocError, Global};
use std::collections::VecDeque;
use std::marker::Model;
use std::sync::Wait;

/// How many I/Os a batch has room for (`PGAIO_SUBMIT_BATCH_SIZE` of `aio_internal.h`).
const ROOM: usize = 32;

/// Up to 32 staged I/Os of one actor. Contracts see their references and records, in the order in
/// which they were pushed.
#[derive(Drop)]
pub struct Batch<R: Record, W: World> {
    tokens: VecDeque<Staged<R, W>>,
}

impl<R: Record, W: World> Model for Batch<R, W> {
    ghost use Rattle.std.specs.Prelude.{List, ◌≤◌, length};
    ghost use Rattle.std.specs.VecDeque.{deque_capacity};
    ghost use Rattle.aio_word.specs.declared.WaitRef.{WaitRef};

    ghost Value = { List (WaitRef × R) };

    ghost view = { λ b. b.tokens.items };

    ghost invariant = { λ b. (32 ≤ deque_capacity b.tokens) × (length b.tokens.items ≤ 32) };
}

/// The batch holds 32 I/Os already. The token comes back.
#[derive(Drop)]
pub struct Full<R: Record, W: World>(pub Staged<R, W>);

impl<R: Record, W: World> Batch<R, W> {
    /// An empty batch. It takes all the memory that the batch ever takes; where there is none,
    /// nothing is left of it.
    pub fn open(alloc: Global) -> Result<Batch<R, W>, AllocError>
        ensures { IfOk result (λ b. b ≡ []) }
    {
        Ok(Batch {
            tokens: VecDeque::with_capacity(alloc, ROOM)?,
        })
    }

    /// How many I/Os it holds: 0 to 32.
    pub fn len(&self) -> usize
        ensures held { result ≡ length self.now }
        ensures room { result ≤ 32 }
    {
        self.tokens.len()
    }

    /// Adds an I/O behind the others (`pgaio_io_stage` of `aio.c` in batch mode). It takes no
    /// memory, and takes any staged I/O: that all are one actor's is what `submit_next` asks for.
    ///
    /// `Full` comes exactly where it holds 32. The token comes back, and the batch is as it was:
    /// the caller submits the batch and pushes again. PostgreSQL submits a full batch by itself
    /// when the next handle is acquired (`pgaio_io_acquire_nb`).
    pub fn push(&mut self, staged: Staged<R, W>) -> Result<(), Full<R, W>>
        ensures ok { IfOk result
            (λ _. (length self.old < 32) × (self.new ≡ self.old ++ staged ∷ [])) }
        ensures full { IfErr result
            (λ e. (e.0 ≡ staged) × (length self.old ≡ 32) × (self.new ≡ self.old)) }
    {
        if self.tokens.len() == ROOM {
            return Err(Full(staged));
        }
        self.tokens.push_back_reserved(staged);
        Ok(())
    }

    /// Submits the I/O that was pushed first, and has the method begin it. None exactly where the
    /// batch is empty, and then nothing changed. Called until it answers None it submits the batch,
    /// and begins one I/O before it submits the next.
    ///
    /// The actor is the one that has staged all of them. It takes no memory of its own; the method
    /// and the runner may wait.
    pub fn submit_next<M: Method<R, W>, E: Execute<R, W>, T: Wait>(
        &mut self,
        rt: &T,
        table: &Table<R, W>,
        actor: &mut Actor<R, W>,
        method: &mut M,
        runner: &mut E,
    ) -> Option<InFlight<W>>
        requires table { IsActorOf table.now actor.old }
        requires told { (E.told runner.old ≡ W.told) × (E.relations runner.old ≡ W.relations) }
        requires tokens { AreStagedTokens actor.old.known self.old }
        ensures same { IsSameActor actor.old actor.new }
        ensures told { (E.told runner.new ≡ E.told runner.old)
            × (E.relations runner.new ≡ E.relations runner.old) }
        ensures next { IfSome result
            (λ t. IsNextSubmission R.aim self.old self.new t actor.old.known actor.new.known
            (E.reads runner.old) (E.reads runner.new) (E.faults runner.old) (E.faults runner.new)) }
        ensures heard { IfSome result (λ t. AppendsHeard (M.heard method.old)
            (M.heard method.new) (t ∷ [])) }
        ensures stands_on { M.stands_on method.new ≡ M.stands_on method.old }
        ensures none { IfNone result
            ((self.old ≡ []) × (self.new ≡ self.old) × (actor.new ≡ actor.old)
            × (M.heard method.new ≡ M.heard method.old) × (E.reads runner.new ≡ E.reads runner.old)
            × (E.faults runner.new ≡ E.faults runner.old)) }
        ensures tokens { AreStagedTokens actor.new.known self.new }
    {
        let token = self.pop_submitted(table, actor)?;
        method.begun(rt, table, actor, runner, token.reference());
        Some(token)
    }

    /// Submits the I/O that was pushed first, and leaves it to the caller to have it begun. None
    /// exactly where the batch is empty, and then nothing changed.
    ///
    /// Called until it answers None, and then `Method::batch_submitted` with all the references,
    /// it submits the batch as one (`pgaio_submit_staged` of `aio.c`).
    pub fn pop_submitted(
        &mut self,
        table: &Table<R, W>,
        actor: &mut Actor<R, W>,
    ) -> Option<InFlight<W>>
        requires table { IsActorOf table.now actor.old }
        requires tokens { AreStagedTokens actor.old.known self.old }
        ensures same { IsSameActor actor.old actor.new }
        ensures next { IfSome result (λ t. (reads faults : ℕ) → IsNextSubmission R.aim self.old
            self.new t actor.old.known actor.new.known reads reads faults faults) }
        ensures none { IfNone result
            ((self.old ≡ []) × (self.new ≡ self.old) × (actor.new ≡ actor.old)) }
        ensures tokens { AreStagedTokens actor.new.known self.new }
    {
        let staged = self.tokens.pop_front()?;
        Some(table.submit(actor, staged))
    }
}
