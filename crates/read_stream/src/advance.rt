//! How a stream advances by one answer.
ghost use Rattle.std.specs.Prelude.{◌≡◌, ◌+◌, ◌-◌, ◌<◌, ◌^◌, None, IfSome};
ghost use Rattle.page_check.specs.SynchronousAnswer.{reading_of};
ghost use Rattle.page_check.specs.PageBytes.{IsPage};
ghost use Rattle.page_check.specs.IsAnswer.{IsNext, IfPage};
ghost use Rattle.read_stream.specs.IoContexts.{IsValidContext, ContextAdvanced};
ghost use Rattle.stream_answer.specs.StreamAnswers.{stream_entries};
ghost use Rattle.read_stream.specs.FailedReads.{MayBeUnread};
ghost use Rattle.read_stream.specs.StreamViews.{stream_after};
ghost use Rattle.read_stream.specs.AtHand.{ending_at_hand, lent_count};
ghost use Rattle.read_stream.specs.StreamState.{IsBetweenCalls, IsOpen, Underway, answer_at_hand};
ghost use Rattle.read_stream.specs.StreamState.{returned_count, stream_view};
ghost use Rattle.read_stream.specs.Changes.{IsSameReading, SameStream, page_given, with_at_hand};

use crate::at_hand::AtHand;
use crate::io_context::IoContext;
use crate::stream::ReadStream;
use aio_batch::Method;
use aio_callback::ReadIo;
use aio_handle::Execute;
use block_source::BlockSource;
use page_check::World;
use std::mem;
use std::snapshot::Snapshot;
use std::sync::Wait;

impl<'d, 'p, W: World, S: BlockSource<P> + Drop, P: Copy> ReadStream<'d, 'p, W, S, P> {
    // Advances by one answer, and keeps it.
    pub(crate) fn advance<M: Method<ReadIo, W>, E: Execute<ReadIo, W>, T: Wait>(
        &mut self,
        rt: &T,
        context: &mut IoContext<W, M, E>,
    )
        requires valid_context { IsValidContext E.Execute W.World self.old.scope context.old }
        requires actor { context.old.actor.now ≡ self.old.actor_is.value }
        requires is_open { IsOpen S.left W.World self.old }
        ensures context_advanced { ContextAdvanced E.Execute M.Method context.old context.new }
        ensures answer { IfPage (answer_at_hand self.new) IsPage
            → IsNext (reading_of self.old.scope.rules W.told)
            (MayBeUnread self.old.scope.was.value context.new.actor.now.known)
            (stream_entries self.old.scope.relation (S.left self.old.source_was.value))
            (stream_view S.left self.old).given (answer_at_hand self.new) }
        ensures answer_repeated { IfSome (ending_at_hand self.old.at_hand)
            (λ e. self.new.at_hand ≡ self.old.at_hand) }
        ensures view { stream_view S.left self.new ≡ stream_after (stream_view S.left self.old)
            context.new.actor.now (answer_at_hand self.new) }
        ensures is_open { IsOpen S.left W.World self.new }
    {
        if self.at_hand.has_ended() {
            return;
        }
        self.release_page(rt);
        self.look_ahead(rt, context);
        self.submit(rt, context);
        self.start_last(rt, context);
        let at_hand = self.find(rt, context);
        self.put(rt, at_hand);
        self.actor_is = Snapshot::of(context.actor);
    }

    // Takes the page back that was lent last. A record whose last page it was is free again.
    fn release_page<T: Wait>(&mut self, rt: &T)
        requires between { IsBetweenCalls S.left W.World self.old.actor_is.value.known self.old }
        requires running { ending_at_hand self.old.at_hand ≡ None }
        ensures underway { Underway S.left W.World self.old.actor_is.value.known self.new }
        ensures same { IsSameReading self.old self.new }
        ensures given { returned_count S.left self.new
            ≡ returned_count S.left self.old + lent_count self.old.at_hand }
    {
        match mem::replace(&mut self.at_hand, AtHand::Nothing) {
            AtHand::Pinned(pin) => {
                self.pool.unpin(rt, pin);
                self.release_front();
            }
            AtHand::Lent => {
                self.release_front();
                if self.desk.reads.has_one_page_left() {
                    self.desk.reads.free_oldest();
                    self.desk.blocks.plan.finished();
                } else {
                    self.desk.reads.release_page();
                }
            }
            AtHand::Nothing | AtHand::Stopped(_, _) | AtHand::Ended => {}
        }
    }

    // The page of the block at the front is given back.
    fn release_front(&mut self)
        requires ahead { 0 < self.old.desk.now.blocks.plan.blocks_ahead }
        ensures { self.new ≡ page_given self.old }
    {
        self.desk.blocks.release_front();
    }

    // Has this at hand.
    fn put<T: Wait>(&mut self, rt: &T, at_hand: AtHand<'p, W>)
        ensures { self.new ≡ with_at_hand self.old at_hand.entry }
    {
        match mem::replace(&mut self.at_hand, at_hand) {
            AtHand::Pinned(pin) => self.pool.unpin(rt, pin),
            AtHand::Nothing | AtHand::Lent | AtHand::Stopped(_, _) | AtHand::Ended => {}
        }
    }
}
