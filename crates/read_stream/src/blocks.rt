//! The half of a stream that asks: which blocks were taken, how they are to be had, and how far it
//! looks ahead.
ghost use Rattle.std.specs.Prelude.{◌≡◌, ℕ, ◌<◌, ◌-◌, ◌+◌, ◌^◌, [], ◌∷◌, ◌++◌, length, slice_get, Some};
ghost use Rattle.std.specs.Prelude.{IsTrue, IfSome, true};
ghost use Rattle.circular_buffer.specs.Buffer.{buffer};
ghost use Rattle.read_plan.specs.Runs.{IsRun};
ghost use Rattle.read_stream.specs.declared.queue.QueuedBlock.{QueuedBlock};
ghost use Rattle.read_stream.specs.QueuedBlocks.{BlockTaken, HasInFront, IsValidWant, MayTake};
ghost use Rattle.read_stream.specs.QueuedBlocks.{block_given, block_read, pending_blocks, read_block};

use crate::queue::{QueuedBlock, Want};
use crate::ring::push;
use crate::scope::Scope;
use buf_pool::{Look, Pool, Tag};
use circular_buffer::HeapCircularBuffer;
use page_check::World;
use read_plan::{Offer, Plan, Run};
use std::sync::Wait;

/// What a stream has taken from its source and not given back, and its plan.
#[derive(Drop)]
pub struct Blocks<P: Copy> {
    /// The blocks in the source's order. A page that is lent is that of the first.
    pub queue: HeapCircularBuffer<QueuedBlock<P>>,
    pub plan: Plan,
    /// The source has given its last block.
    pub over: bool,
}

/// How the block is to be had, by what the pool has of it now.
fn want_of<W: World, T: Wait>(rt: &T, pool: &Pool<W>, tag: Tag) -> Want
    ensures { IsValidWant W.handles result }
{
    match pool.peek(rt, tag) {
        Look::Hit(_) => Want::Look,
        Look::Busy(reference) => Want::Join(reference),
        Look::Absent => Want::Read,
    }
}

impl<P: Copy> Blocks<P> {
    /// Whether another block is to be taken from the source.
    pub fn wants_more(&self) -> bool
        ensures more { IsTrue result → MayTake self.now }
        ensures idle { (IsTrue result → ⊥) → self.now.plan.blocks_ahead ≡ 0
            → self.now.plan.ios_in_progress ≡ 0 → self.now.over ≡ true }
    {
        !self.over && self.plan.may_look_ahead()
    }

    /// The source has given this block. The answer is the run that is to be started now.
    pub fn take<W: World, T: Wait>(
        &mut self,
        rt: &T,
        pool: &Pool<W>,
        scope: &Scope<W>,
        block: u32,
        per_buffer_data: P,
    ) -> Option<Run>
        requires may_take { MayTake self.old }
        requires room { length self.old.queue.items < self.old.queue.capacity }
        ensures taken { BlockTaken W.handles block per_buffer_data self.old self.new result }
    {
        let want = want_of(rt, pool, scope.tag(block));
        let run = self.plan_block(want, block, scope.combine);
        self.enqueue(QueuedBlock {
            block,
            per_buffer_data,
            want,
        });
        run
    }

    // Tells the plan how the block is to be had. The answer is the run that is to be started now.
    fn plan_block(&mut self, want: Want, block: u32, combine: u32) -> Option<Run>
        ensures blocks { pending_blocks self.old.plan.pending ++ read_block block want
            ≡ pending_blocks result ++ pending_blocks self.new.plan.pending }
        ensures run { IfSome result (IsRun self.old.plan.combine) }
        ensures rest { self.new ≡ record self.old {
          plan = record self.old.plan {
            distance = self.new.plan.distance;
            pending = self.new.plan.pending;
          };
        } }
    {
        match want {
            Want::Read => self.offer(block, combine),
            Want::Look => {
                self.plan.hit();
                self.plan.take_pending()
            }
            Want::Join(_) => self.plan.take_pending(),
        }
    }

    // Offers the block to the plan. The answer is the run that can have no further block.
    fn offer(&mut self, block: u32, combine: u32) -> Option<Run>
        ensures blocks { pending_blocks self.old.plan.pending ++ block ∷ []
            ≡ pending_blocks result ++ pending_blocks self.new.plan.pending }
        ensures run { IfSome result (IsRun self.old.plan.combine) }
        ensures rest { self.new ≡ record self.old {
          plan = record self.old.plan { pending = self.new.plan.pending };
        } }
    {
        if let Offer::Flush(run) = self.plan.offer(block) {
            return Some(run);
        }
        if self.is_whole(combine) {
            self.plan.take_pending()
        } else {
            None
        }
    }

    // Whether the pending run has as many blocks as a run may have.
    fn is_whole(&self, combine: u32) -> bool {
        match self.plan.pending() {
            Some(run) => run.count == combine,
            None => false,
        }
    }

    // Puts the block behind the others.
    fn enqueue(&mut self, asked: QueuedBlock<P>)
        requires room { length self.old.queue.items < self.old.queue.capacity }
        requires ahead { self.old.plan.blocks_ahead < 2 ^ 32 - 1 }
        ensures { self.new ≡ record self.old {
          queue = buffer (self.old.queue.items ++ asked ∷ []) self.old.queue.capacity;
          plan = record self.old.plan { blocks_ahead = self.old.plan.blocks_ahead + 1 };
        } }
    {
        push(&mut self.queue, asked);
        self.plan.taken();
    }

    /// The block at the front.
    pub fn front(&self) -> Option<QueuedBlock<P>>
        ensures { result ≡ slice_get self.now.queue.items 0 }
    {
        self.queue.front().copied()
    }

    /// The block at the front, whose page is lent.
    pub fn lent_block(&self) -> &QueuedBlock<P>
        requires { (asked : QueuedBlock P) × (slice_get self.now.queue.items 0 ≡ Some asked) }
        ensures { slice_get self.now.queue.items 0 ≡ Some result.now }
    {
        let Some(asked) = self.queue.front() else {
            unreachable!()
        };
        asked
    }

    /// Whether the block at the front is had by a read of the stream's own.
    pub fn is_front_read(&self) -> bool
        ensures { (block : ℕ) → HasInFront self.now.queue.items block (block ∷ []) → IsTrue result }
    {
        match self.front() {
            Some(asked) => match asked.want {
                Want::Read => true,
                Want::Look | Want::Join(_) => false,
            },
            None => false,
        }
    }

    /// The block at the front has left the pool: it is read alone.
    pub fn read_front(&mut self)
        requires { self.old.plan.ios_in_progress < 2 ^ 32 - 1 }
        ensures { self.new ≡ block_read self.old }
    {
        if let Some(asked) = self.queue.get_mut(0) {
            asked.want = Want::Read;
        }
        self.plan.started();
    }

    /// The page of the block at the front is given back.
    pub fn release_front(&mut self)
        requires { 0 < self.old.plan.blocks_ahead }
        ensures { self.new ≡ block_given self.old }
    {
        let _ = self.queue.pop_front();
        self.plan.given();
    }
}
