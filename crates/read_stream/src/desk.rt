//! The memory of a stream.
ghost use Rattle.std.specs.Prelude.{◌≡◌, ◌≤◌, ◌+◌, IfOk};
ghost use Rattle.read_stream.specs.IoContexts.{IsValidContext, ContextAdvanced};
ghost use Rattle.read_stream.specs.StreamIos.{Issued, record_count, ios_started};
ghost use Rattle.read_stream.specs.Desks.{AreValidSettings, IsFreeDesk, desk_begun};
ghost use Rattle.read_stream.specs.Desks.{desk_expecting, desk_settings, plan_of_settings};

use crate::blocks::Blocks;
use crate::io_context::IoContext;
use crate::reached::Reached;
use crate::reads::Reads;
use crate::scope::Scope;
use aio_batch::Method;
use aio_callback::ReadIo;
use aio_handle::Execute;
use circular_buffer::HeapCircularBuffer;
use page_check::{PageRules, World};
use read_plan::Plan;
use std::alloc::{AllocError, Global};
use std::sync::Wait;

/// How a stream reads.
#[derive(Clone, Copy, Debug, PartialEq, Eq)]
pub struct Settings {
    /// The most blocks of one I/O, 1 to 128 (`io_combine_limit`).
    pub combine: u32,
    /// The most I/Os under way, 1 to 64.
    pub ios: u32,
    /// The most blocks ahead, 1 to 16384.
    pub limit: u32,
    /// Whether it looks far ahead from the first block on (`READ_STREAM_FULL`).
    pub full: bool,
    /// Whether I/Os are submitted together.
    pub batch: bool,
    /// The segment size in blocks (`RELSEG_SIZE`), at least 1: no read crosses a multiple of it.
    pub segment: u32,
    /// Whether checksums are verified, and what becomes of damaged pages.
    pub rules: PageRules,
}

/// The memory of one stream after the other: the half that asks, and the half that reads.
#[derive(Drop)]
pub struct Desk<W: World, P: Copy> {
    pub(crate) settings: Settings,
    pub(crate) blocks: Blocks<P>,
    pub(crate) reads: Reads<W>,
    /// What its streams have read, if they were expected.
    pub(crate) reached: Reached,
    /// What they will have read with the next one.
    pub(crate) expected: Reached,
}

impl Settings {
    // A plan for a new stream.
    fn plan(&self) -> Plan
        requires { AreValidSettings self.now }
        ensures { result ≡ plan_of_settings self.now }
    {
        Plan::new(self.combine, self.ios, self.limit, self.full, self.segment)
    }
}

impl<W: World, P: Copy> Desk<W, P> {
    /// A desk for streams with these settings. It takes all the memory that its streams need: one
    /// record more than there may be I/Os under way, for a block that has left the pool again.
    pub fn open(alloc: Global, settings: &Settings) -> Result<Desk<W, P>, AllocError>
        requires settings { AreValidSettings settings.now }
        ensures free { IfOk result IsFreeDesk }
        ensures settings { IfOk result (λ d. desk_settings d ≡ settings.now) }
    {
        Ok(Desk {
            settings: *settings,
            blocks: Blocks {
                queue: HeapCircularBuffer::with_capacity(alloc, settings.limit as usize)?,
                plan: settings.plan(),
                over: false,
            },
            reads: Reads::make(alloc, settings.ios + 1, settings.combine)?,
            reached: Reached::nothing(),
            expected: Reached::nothing(),
        })
    }

    /// Tells how many blocks of which relation the next stream has to read, from `first` on.
    ///
    /// A stream begins with a look-ahead distance of 1, or as `full` says. Where it goes on in the
    /// same relation, at the block at which the last one was to end or behind it, it begins with the
    /// distance of that one's end, once streams that went on so have had 256 blocks to read. So does
    /// each worker of a parallel sequential scan, whose stream goes on from chunk to chunk
    /// (`table_block_parallelscan_nextpage` of tableam.c). One that is not expected begins anew, and
    /// so does the next.
    pub fn expect(&mut self, relation: u32, first: u32, count: u32)
        requires free { IsFreeDesk self.old }
        ensures free { IsFreeDesk self.new }
        ensures expecting { self.new ≡ desk_expecting self.old relation first count }
    {
        let distance = self.blocks.plan.distance();
        self.expected = self.reached.then(relation, first, count, distance);
    }

    // For a new stream: it has made no I/O yet.
    pub(crate) fn begin(&mut self)
        requires { AreValidSettings self.old.settings }
        ensures { self.new ≡ desk_begun self.old }
    {
        self.reached = self.expected;
        self.expected = Reached::nothing();
        self.blocks.plan = self.settings.plan();
        self.blocks.plan.raise_distance(self.reached.distance);
        self.blocks.over = false;
        self.reads.taken_in = 0;
    }

    // A stream has ended: its I/Os are taken in. The answer is how many were taken in.
    pub(crate) fn end<M: Method<ReadIo, W>, E: Execute<ReadIo, W>, T: Wait>(
        &mut self,
        rt: &T,
        scope: &Scope<W>,
        context: &mut IoContext<W, M, E>,
    ) -> u64
        requires valid_context { IsValidContext E.Execute W.World scope.now context.old }
        requires settings { AreValidSettings self.old.settings }
        requires desk { (scope.now.combine ≡ self.old.settings.combine)
            × (scope.now.total.value ≡ self.old.settings.ios + 1)
            × (self.old.settings.limit ≤ self.old.blocks.queue.capacity) }
        requires issued { Issued scope.now W.World context.old.actor.now.known self.old.reads }
        requires all { record_count self.old.reads ≡ scope.now.total.value }
        ensures context_advanced { ContextAdvanced E.Execute M.Method context.old context.new }
        ensures issued { Issued scope.now W.World context.new.actor.now.known self.new.reads }
        ensures free { IsFreeDesk self.new × (self.new.settings ≡ self.old.settings) }
        ensures count { (result ≡ self.new.reads.taken_in)
            × (ios_started self.new.reads ≡ ios_started self.old.reads) }
    {
        self.blocks.queue.clear();
        self.reads.finish(rt, scope, context)
    }
}
