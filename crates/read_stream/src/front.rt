//! How a stream has the page of the block at the front of its queue.
ghost use Rattle.std.specs.Prelude.{◌≡◌, ◌<◌, [], ◌∷◌, slice_get, Some};
ghost use Rattle.aio_word.specs.Tokens.{HasSeenDone};
ghost use Rattle.read_stream.specs.declared.reads.EndedRead.{EndedRead};
ghost use Rattle.read_stream.specs.IoContexts.{IsValidContext, ContextAdvanced};
ghost use Rattle.read_stream.specs.ActorProgress.{AllSubmitted};
ghost use Rattle.read_stream.specs.AtHand.{HasAnswer};
ghost use Rattle.read_stream.specs.Parts.{IsPartOfOldest};
ghost use Rattle.read_stream.specs.QueuedBlocks.{HasInFront};
ghost use Rattle.read_stream.specs.StreamIos.{HasEndedRead};
ghost use Rattle.read_stream.specs.StreamState.{IsBetweenCalls, IsFrontStarted, IsReadInFront};
ghost use Rattle.read_stream.specs.StreamState.{Underway};
ghost use Rattle.read_stream.specs.Changes.{SameStream, with_at_hand};

use crate::at_hand::AtHand;
use crate::io_context::IoContext;
use crate::parts::Part;
use crate::queue::Want;
use crate::stream::ReadStream;
use aio_batch::Method;
use aio_callback::ReadIo;
use aio_handle::Execute;
use aio_waitref::wait;
use aio_word::WaitRef;
use block_source::BlockSource;
use buf_pool::Found;
use page_check::World;
use read_plan::Run;
use std::sync::Wait;

impl<'d, 'p, W: World, S: BlockSource<P> + Drop, P: Copy> ReadStream<'d, 'p, W, S, P> {
    // Has the page of the block at the front, or what stops the stream there.
    pub(crate) fn find<M: Method<ReadIo, W>, E: Execute<ReadIo, W>, T: Wait>(
        &mut self,
        rt: &T,
        context: &mut IoContext<W, M, E>,
    ) -> AtHand<'p, W>
        requires valid_context { IsValidContext E.Execute W.World self.old.scope context.old }
        requires underway { Underway S.left W.World context.old.actor.now.known self.old }
        requires started { IsFrontStarted self.old }
        requires ended { self.old.desk.now.blocks.queue.items ≡ [] → S.left self.old.source ≡ [] }
        ensures context_advanced { ContextAdvanced E.Execute M.Method context.old context.new }
        ensures between { IsBetweenCalls S.left W.World context.new.actor.now.known
            (with_at_hand self.new result) }
        ensures same_stream { SameStream S.left self.old self.new }
        ensures has_answer { HasAnswer result }
    {
        let Some(asked) = self.desk.blocks.front() else {
            return AtHand::Ended;
        };
        match asked.want {
            Want::Read => self.find_read(rt, context, asked.block),
            Want::Look => self.look(rt, context, asked.block),
            Want::Join(reference) => self.join(rt, context, asked.block, reference),
        }
    }

    // The page by a read of the stream's own, which is waited for where none of its pages was given.
    fn find_read<M: Method<ReadIo, W>, E: Execute<ReadIo, W>, T: Wait>(
        &mut self,
        rt: &T,
        context: &mut IoContext<W, M, E>,
        block: u32,
    ) -> AtHand<'p, W>
        requires valid_context { IsValidContext E.Execute W.World self.old.scope context.old }
        requires underway { Underway S.left W.World context.old.actor.now.known self.old }
        requires started { IsFrontStarted self.old }
        requires front { HasInFront self.old.desk.now.blocks.queue.items block (block ∷ []) }
        ensures context_advanced { ContextAdvanced E.Execute M.Method context.old context.new }
        ensures between { IsBetweenCalls S.left W.World context.new.actor.now.known
            (with_at_hand self.new result) }
        ensures same_stream { SameStream S.left self.old self.new }
        ensures has_answer { HasAnswer result }
    {
        if self.desk.reads.has_given() {
            return self.lend(rt, context, block);
        }
        self.take_up(rt, context, block);
        self.lend(rt, context, block)
    }

    // Waits for the oldest read.
    fn take_up<M: Method<ReadIo, W>, E: Execute<ReadIo, W>, T: Wait>(
        &mut self,
        rt: &T,
        context: &mut IoContext<W, M, E>,
        block: u32,
    )
        requires valid_context { IsValidContext E.Execute W.World self.old.scope context.old }
        requires underway { Underway S.left W.World context.old.actor.now.known self.old }
        requires started { IsFrontStarted self.old }
        requires front { HasInFront self.old.desk.now.blocks.queue.items block (block ∷ []) }
        ensures context_advanced { ContextAdvanced E.Execute M.Method context.old context.new }
        ensures underway { Underway S.left W.World context.new.actor.now.known self.new }
        ensures same_stream { SameStream S.left self.old self.new }
        ensures queue { self.new.desk.now.blocks.queue ≡ self.old.desk.now.blocks.queue }
        ensures oldest { HasEndedRead self.new.desk.now.reads }
    {
        self.submit(rt, context);
        self.desk.reads.take_up(rt, &self.scope, context);
        self.desk.blocks.plan.waited();
    }

    // Lends the next page of the oldest read, or says what stops the stream there.
    fn lend<M: Method<ReadIo, W>, E: Execute<ReadIo, W>, T: Wait>(
        &mut self,
        rt: &T,
        context: &mut IoContext<W, M, E>,
        block: u32,
    ) -> AtHand<'p, W>
        requires valid_context { IsValidContext E.Execute W.World self.old.scope context.old }
        requires in_front { IsReadInFront S.left W.World block context.old.actor.now.known self.old }
        ensures context_advanced { ContextAdvanced E.Execute M.Method context.old context.new }
        ensures between { IsBetweenCalls S.left W.World context.new.actor.now.known
            (with_at_hand self.new result) }
        ensures same_stream { SameStream S.left self.old self.new }
        ensures has_answer { HasAnswer result }
    {
        match self.part(rt, context, block) {
            Part::Page => AtHand::Lent,
            Part::Stop(why) => AtHand::Stopped(block, why),
        }
    }

    // What the oldest read has for the block. Where it was short, the rest is read before, by its
    // record.
    fn part<M: Method<ReadIo, W>, E: Execute<ReadIo, W>, T: Wait>(
        &mut self,
        rt: &T,
        context: &mut IoContext<W, M, E>,
        block: u32,
    ) -> Part
        requires valid_context { IsValidContext E.Execute W.World self.old.scope context.old }
        requires in_front { IsReadInFront S.left W.World block context.old.actor.now.known self.old }
        ensures context_advanced { ContextAdvanced E.Execute M.Method context.old context.new }
        ensures in_front { IsReadInFront S.left W.World block context.new.actor.now.known self.new }
        ensures same_stream { SameStream S.left self.old self.new }
        ensures part { IsPartOfOldest W.told self.new.desk.now.reads result }
    {
        if let Some(part) = self.desk.reads.part() {
            return part;
        }
        self.read_rest(rt, context, block);
        let Some(part) = self.desk.reads.part() else {
            unreachable!()
        };
        part
    }

    // Reads the rest of the oldest read, by its record.
    fn read_rest<M: Method<ReadIo, W>, E: Execute<ReadIo, W>, T: Wait>(
        &mut self,
        rt: &T,
        context: &mut IoContext<W, M, E>,
        block: u32,
    )
        requires valid_context { IsValidContext E.Execute W.World self.old.scope context.old }
        requires in_front { IsReadInFront S.left W.World block context.old.actor.now.known self.old }
        requires given_from { (oldest : EndedRead)
            → slice_get self.old.desk.now.reads.ended.items 0 ≡ Some oldest → 0 < oldest.given }
        ensures context_advanced { ContextAdvanced E.Execute M.Method context.old context.new }
        ensures in_front { IsReadInFront S.left W.World block context.new.actor.now.known self.new }
        ensures same_stream { SameStream S.left self.old self.new }
        ensures none_given { (oldest : EndedRead)
            → slice_get self.new.desk.now.reads.ended.items 0 ≡ Some oldest → oldest.given ≡ 0 }
    {
        let Some(oldest) = self.desk.reads.ended.pop_front() else {
            unreachable!()
        };
        let run = oldest.left();
        self.desk
            .reads
            .read(rt, &self.scope, self.pool, context, oldest.io, run);
        self.desk.blocks.plan.waited();
    }

    // Looks the block up in the pool, and reads it where it is not there any more.
    fn look<M: Method<ReadIo, W>, E: Execute<ReadIo, W>, T: Wait>(
        &mut self,
        rt: &T,
        context: &mut IoContext<W, M, E>,
        block: u32,
    ) -> AtHand<'p, W>
        requires valid_context { IsValidContext E.Execute W.World self.old.scope context.old }
        requires underway { Underway S.left W.World context.old.actor.now.known self.old }
        requires front { HasInFront self.old.desk.now.blocks.queue.items block [] }
        ensures context_advanced { ContextAdvanced E.Execute M.Method context.old context.new }
        ensures between { IsBetweenCalls S.left W.World context.new.actor.now.known
            (with_at_hand self.new result) }
        ensures same_stream { SameStream S.left self.old self.new }
        ensures has_answer { HasAnswer result }
    {
        match self.pool.lookup(rt, self.scope.tag(block)) {
            Found::Hit(pin) => AtHand::Pinned(pin),
            Found::Busy(reference) => self.join(rt, context, block, reference),
            Found::Absent => self.read_block(rt, context, block),
        }
    }

    // Waits for the I/O of anyone and looks the block up, and reads it where it is not there.
    fn join<M: Method<ReadIo, W>, E: Execute<ReadIo, W>, T: Wait>(
        &mut self,
        rt: &T,
        context: &mut IoContext<W, M, E>,
        block: u32,
        reference: WaitRef,
    ) -> AtHand<'p, W>
        requires valid_context { IsValidContext E.Execute W.World self.old.scope context.old }
        requires underway { Underway S.left W.World context.old.actor.now.known self.old }
        requires front { HasInFront self.old.desk.now.blocks.queue.items block [] }
        requires range { reference.handle < W.handles }
        ensures context_advanced { ContextAdvanced E.Execute M.Method context.old context.new }
        ensures between { IsBetweenCalls S.left W.World context.new.actor.now.known
            (with_at_hand self.new result) }
        ensures same_stream { SameStream S.left self.old self.new }
        ensures has_answer { HasAnswer result }
    {
        self.submit(rt, context);
        self.wait_for(rt, context, reference);
        match self.pool.lookup(rt, self.scope.tag(block)) {
            Found::Hit(pin) => AtHand::Pinned(pin),
            Found::Busy(_) | Found::Absent => self.read_block(rt, context, block),
        }
    }

    // Waits for an I/O of anyone.
    fn wait_for<M: Method<ReadIo, W>, E: Execute<ReadIo, W>, T: Wait>(
        &mut self,
        rt: &T,
        context: &mut IoContext<W, M, E>,
        reference: WaitRef,
    )
        requires valid_context { IsValidContext E.Execute W.World self.old.scope context.old }
        requires underway { Underway S.left W.World context.old.actor.now.known self.old }
        requires all_submitted { AllSubmitted context.old.actor.now.known }
        requires range { reference.handle < W.handles }
        ensures context_advanced { ContextAdvanced E.Execute M.Method context.old context.new }
        ensures underway { Underway S.left W.World context.new.actor.now.known self.new }
        ensures same_stream { SameStream S.left self.old self.new }
        ensures queue { self.new.desk.now.blocks.queue ≡ self.old.desk.now.blocks.queue }
        ensures done { HasSeenDone context.new.actor.now.known reference }
    {
        wait(rt, context.table, context.actor, reference, context.runner);
        self.desk.blocks.plan.waited();
    }

    // Reads the block alone by a free record.
    fn read_block<M: Method<ReadIo, W>, E: Execute<ReadIo, W>, T: Wait>(
        &mut self,
        rt: &T,
        context: &mut IoContext<W, M, E>,
        block: u32,
    ) -> AtHand<'p, W>
        requires valid_context { IsValidContext E.Execute W.World self.old.scope context.old }
        requires underway { Underway S.left W.World context.old.actor.now.known self.old }
        requires front { HasInFront self.old.desk.now.blocks.queue.items block [] }
        ensures context_advanced { ContextAdvanced E.Execute M.Method context.old context.new }
        ensures between { IsBetweenCalls S.left W.World context.new.actor.now.known
            (with_at_hand self.new result) }
        ensures same_stream { SameStream S.left self.old self.new }
        ensures has_answer { HasAnswer result }
    {
        let Some(io) = self.desk.reads.free.pop_front() else {
            unreachable!()
        };
        self.desk.blocks.read_front();
        let run = Run {
            first: block,
            count: 1,
        };
        self.desk
            .reads
            .read(rt, &self.scope, self.pool, context, io, run);
        self.desk.blocks.plan.waited();
        self.lend(rt, context, block)
    }
}
