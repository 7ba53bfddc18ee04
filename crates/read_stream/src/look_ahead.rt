//! How a stream looks ahead, and starts its reads.
ghost use Rattle.std.specs.Prelude.{◌≡◌, ℕ, ◌<◌, ◌≤◌, ◌+◌, ◌⊎◌, [], ◌∷◌, length, Some, IsTrue};
ghost use Rattle.read_plan.specs.Runs.{IsRun};
ghost use Rattle.read_stream.specs.IoContexts.{IsValidContext, ContextAdvanced};
ghost use Rattle.read_stream.specs.QueuedBlocks.{HasInFront, MayTake};
ghost use Rattle.read_stream.specs.StreamState.{IsFrontStarted, Underway, UnderwayWith};
ghost use Rattle.read_stream.specs.Changes.{SameStream};

use crate::io_context::IoContext;
use crate::stream::ReadStream;
use aio_batch::Method;
use aio_callback::ReadIo;
use aio_handle::Execute;
use block_source::BlockSource;
use page_check::World;
use read_plan::Run;
use std::sync::Wait;

impl<'d, 'p, W: World, S: BlockSource<P> + Drop, P: Copy> ReadStream<'d, 'p, W, S, P> {
    // Takes blocks from the source as far as the plan wants, and starts their reads.
    pub(crate) fn look_ahead<M: Method<ReadIo, W>, E: Execute<ReadIo, W>, T: Wait>(
        &mut self,
        rt: &T,
        context: &mut IoContext<W, M, E>,
    )
        requires valid_context { IsValidContext E.Execute W.World self.old.scope context.old }
        requires underway { Underway S.left W.World context.old.actor.now.known self.old }
        ensures context_advanced { ContextAdvanced E.Execute M.Method context.old context.new }
        ensures underway { Underway S.left W.World context.new.actor.now.known self.new }
        ensures same_stream { SameStream S.left self.old self.new }
        ensures ended { self.new.desk.now.blocks.queue.items ≡ [] → S.left self.new.source ≡ [] }
    {
        while self.desk.blocks.wants_more() {
            self.take_next(rt, context);
        }
    }

    // Takes one block from the source, if there is one, and starts the run that is to be started
    // then.
    fn take_next<M: Method<ReadIo, W>, E: Execute<ReadIo, W>, T: Wait>(
        &mut self,
        rt: &T,
        context: &mut IoContext<W, M, E>,
    )
        requires valid_context { IsValidContext E.Execute W.World self.old.scope context.old }
        requires underway { Underway S.left W.World context.old.actor.now.known self.old }
        requires may_take { MayTake self.old.desk.now.blocks }
        ensures context_advanced { ContextAdvanced E.Execute M.Method context.old context.new }
        ensures underway { Underway S.left W.World context.new.actor.now.known self.new }
        ensures same_stream { SameStream S.left self.old self.new }
        ensures progress { IsTrue self.new.desk.now.blocks.over
            ⊎ (self.new.desk.now.blocks.plan.blocks_ahead
            ≡ self.old.desk.now.blocks.plan.blocks_ahead + 1) }
        ensures no_less { self.old.desk.now.blocks.plan.blocks_ahead
            ≤ self.new.desk.now.blocks.plan.blocks_ahead }
    {
        let Some((block, per_buffer_data)) = self.source.next() else {
            self.desk.blocks.over = true;
            return;
        };
        let run = self
            .desk
            .blocks
            .take(rt, self.pool, &self.scope, block, per_buffer_data);
        if let Some(run) = run {
            self.start(rt, context, run);
        }
    }

    // Starts the run by a free record. This thread makes a read itself for which it would wait at
    // once.
    fn start<M: Method<ReadIo, W>, E: Execute<ReadIo, W>, T: Wait>(
        &mut self,
        rt: &T,
        context: &mut IoContext<W, M, E>,
        run: Run,
    )
        requires valid_context { IsValidContext E.Execute W.World self.old.scope context.old }
        requires underway { UnderwayWith S.left W.World (Some run) 0
            context.old.actor.now.known self.old }
        requires run { IsRun self.old.scope.combine run }
        requires free { 1 < length self.old.desk.now.reads.free.items }
        ensures context_advanced { ContextAdvanced E.Execute M.Method context.old context.new }
        ensures underway { Underway S.left W.World context.new.actor.now.known self.new }
        ensures same_stream { SameStream S.left self.old self.new }
        ensures blocks { self.new.desk.now.blocks ≡ record self.old.desk.now.blocks {
          plan = record self.old.desk.now.blocks.plan {
            ios_in_progress = self.old.desk.now.blocks.plan.ios_in_progress + 1;
          };
        } }
        ensures source { self.new.source ≡ self.old.source }
    {
        let Some(io) = self.desk.reads.free.pop_front() else {
            unreachable!()
        };
        self.desk.blocks.plan.started();
        let alone = self.is_alone();
        self.desk
            .reads
            .start(rt, &self.scope, self.pool, context, io, run, alone);
    }

    // Whether one read is under way, which is that of the block at the front, and no further block is
    // taken before that: the stream would wait for it at once.
    fn is_alone(&self) -> bool {
        self.desk.reads.free.len() == self.desk.settings.ios as usize
            && self.desk.blocks.is_front_read()
            && !self.desk.blocks.wants_more()
    }

    // Submits what is staged. This thread makes a read itself for which it would wait at once.
    pub(crate) fn submit<M: Method<ReadIo, W>, E: Execute<ReadIo, W>, T: Wait>(
        &mut self,
        rt: &T,
        context: &mut IoContext<W, M, E>,
    )
        requires valid_context { IsValidContext E.Execute W.World self.old.scope context.old }
        requires underway { Underway S.left W.World context.old.actor.now.known self.old }
        ensures context_advanced { ContextAdvanced E.Execute M.Method context.old context.new }
        ensures underway { Underway S.left W.World context.new.actor.now.known self.new }
        ensures same_stream { SameStream S.left self.old self.new }
        ensures blocks { (self.new.desk.now.blocks ≡ self.old.desk.now.blocks)
            × (self.new.source ≡ self.old.source) }
        ensures batch_empty { self.new.desk.now.reads.batch ≡ [] }
        ensures free { self.new.desk.now.reads.free ≡ self.old.desk.now.reads.free }
    {
        let alone = self.is_alone();
        self.desk.reads.submit(rt, &self.scope, context, alone);
    }

    // Starts the pending run though it is not whole, where it is the last one, or that of the block
    // at the front, and fewer I/Os are in use than may be.
    pub(crate) fn start_last<M: Method<ReadIo, W>, E: Execute<ReadIo, W>, T: Wait>(
        &mut self,
        rt: &T,
        context: &mut IoContext<W, M, E>,
    )
        requires valid_context { IsValidContext E.Execute W.World self.old.scope context.old }
        requires underway { Underway S.left W.World context.old.actor.now.known self.old }
        ensures context_advanced { ContextAdvanced E.Execute M.Method context.old context.new }
        ensures underway { Underway S.left W.World context.new.actor.now.known self.new }
        ensures same_stream { SameStream S.left self.old self.new }
        ensures started { IsFrontStarted self.new }
        ensures queue { (self.new.desk.now.blocks.queue ≡ self.old.desk.now.blocks.queue)
            × (self.new.source ≡ self.old.source) }
    {
        if !self.may_start_last() {
            return;
        }
        if let Some(run) = self.desk.blocks.plan.take_pending() {
            self.start(rt, context, run);
            self.submit(rt, context);
        }
    }

    // Whether the pending run is to be started though it is not whole.
    fn may_start_last(&self) -> bool
        requires ios { 1 ≤ self.now.desk.now.settings.ios }
        ensures free { IsTrue result → 1 < length self.now.desk.now.reads.free.items }
        ensures front { (block : ℕ)
            → HasInFront self.now.desk.now.blocks.queue.items block (block ∷ [])
            → self.now.desk.now.settings.ios < length self.now.desk.now.reads.free.items
            → IsTrue result }
    {
        let free = self.desk.reads.free.len();
        if self.desk.blocks.over {
            free > 1
        } else {
            free > self.desk.settings.ios as usize && self.desk.blocks.is_front_read()
        }
    }
}
