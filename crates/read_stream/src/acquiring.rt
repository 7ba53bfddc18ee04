//! How a stream has a handle of its actor for the next I/O.
ghost use Rattle.std.specs.Prelude.{◌≡◌, ◌≤◌, ◌<◌, length, IfSome, IfNone, ℕ, List};
ghost use Rattle.aio_handle.specs.FreeHandles.{HasNoneFree};
ghost use Rattle.aio_handle.specs.ContractViews.{IsActorOf, IsSameActor};
ghost use Rattle.read_stream.specs.IoContexts.{IsValidContext, ContextAdvanced};
ghost use Rattle.read_stream.specs.StreamIos.{Issued, HandleHandedOut, SameReads, ios_started};

use crate::io_context::IoContext;
use crate::reads::Reads;
use crate::scope::Scope;
use aio_batch::Method;
use aio_callback::ReadIo;
use aio_handle::{Actor, Execute, HandedOut, Table};
use page_check::World;
use read_plan::Run;
use std::sync::Wait;

impl<W: World> Reads<W> {
    // One of the actor's handles that is free now.
    fn hand_out(
        &self,
        scope: &Scope<W>,
        table: &Table<ReadIo, W>,
        actor: &mut Actor<ReadIo, W>,
    ) -> Option<HandedOut<W>>
        requires table { IsActorOf table.now actor.old }
        requires backend { actor.old.known.number < table.now.config.backends }
        requires issued { Issued scope.now W.World actor.old.known self.now }
        ensures same { IsSameActor actor.old actor.new }
        ensures handle_handed_out { IfSome result (λ t. (reads faults : ℕ) → HandleHandedOut
            scope.now W.World actor.old.known actor.new.known reads reads faults faults self.now t) }
        ensures none { IfNone result ((actor.new ≡ actor.old)
            × HasNoneFree table.now.config actor.old.known) }
    {
        actor.has_seen_its_marks();
        match table.acquire(actor) {
            Ok(token) => {
                actor.has_seen_its_marks();
                Some(token)
            }
            Err(_) => None,
        }
    }

    // A handle of the actor. Where none is free, the oldest I/O is taken in, and then one is.
    pub(crate) fn acquire<M: Method<ReadIo, W>, E: Execute<ReadIo, W>, T: Wait>(
        &mut self,
        rt: &T,
        scope: &Scope<W>,
        context: &mut IoContext<W, M, E>,
    ) -> HandedOut<W>
        requires valid_context { IsValidContext E.Execute W.World scope.now context.old }
        requires issued { Issued scope.now W.World context.old.actor.now.known self.old }
        requires few_ios { ios_started self.old < scope.now.most.value }
        ensures context_advanced { ContextAdvanced E.Execute M.Method context.old context.new }
        ensures handle_handed_out { HandleHandedOut scope.now W.World
            context.old.actor.now.known context.new.actor.now.known (E.reads context.old.runner.now)
            (E.reads context.new.runner.now) (E.faults context.old.runner.now)
            (E.faults context.new.runner.now) self.new result }
        ensures same { SameReads scope.now context.old.actor.now.known
            context.new.actor.now.known self.old self.new }
        ensures batch { length self.new.batch ≤ length self.old.batch }
    {
        if let Some(token) = self.hand_out(scope, context.table, context.actor) {
            return token;
        }
        self.submit(rt, scope, context, false);
        self.take_in(rt, scope, context);
        match self.hand_out(scope, context.table, context.actor) {
            Some(token) => token,
            None => unreachable!(),
        }
    }
}
