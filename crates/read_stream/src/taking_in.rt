//! The calls that take a stream's I/Os in.
ghost use Rattle.std.specs.Prelude.{◌≡◌, ◌<◌, ◌+◌, [], ◌∷◌, IfSome, IfNone, ℕ, List};
ghost use Rattle.read_stream.specs.ActorProgress.{AllSubmitted};
ghost use Rattle.read_stream.specs.IoContexts.{IsValidContext, ContextAdvanced};
ghost use Rattle.read_plan.specs.declared.runs.Run.{Run};
ghost use Rattle.read_stream.specs.StreamIos.{Issued, HeldByCaller, IsTakenIn, HasIdleHandle};
ghost use Rattle.read_stream.specs.StreamIos.{AllRecordsFree, SameReads, run_of};
ghost use Rattle.read_stream.specs.StreamIos.{ReadsForRuns, InFlightForRuns, ReadsBlocks};
ghost use Rattle.read_stream.specs.StreamIos.{record_count, ios_started};

use crate::io_context::IoContext;
use crate::reads::{EndedRead, Reads};
use crate::ring::push;
use crate::scope::Scope;
use aio_batch::Method;
use aio_callback::{Counts, ReadIo};
use aio_handle::{Execute, InFlight};
use aio_waitref::wait_own;
use page_check::World;
use std::sync::Wait;

impl<W: World> Reads<W> {
    /// Waits for an I/O in flight, settles it and gives its handle back.
    pub fn settle<M: Method<ReadIo, W>, E: Execute<ReadIo, W>, T: Wait>(
        &mut self,
        rt: &T,
        scope: &Scope<W>,
        context: &mut IoContext<W, M, E>,
        token: InFlight<W>,
    ) -> ReadIo
        requires valid_context { IsValidContext E.Execute W.World scope.now context.old }
        requires held_by_caller { HeldByCaller scope.now W.World
            context.old.actor.now.known self.old token }
        requires all_submitted { AllSubmitted context.old.actor.now.known }
        ensures context_advanced { ContextAdvanced E.Execute M.Method context.old context.new }
        ensures issued { Issued scope.now W.World context.new.actor.now.known self.new }
        ensures record { IsTakenIn scope.now W.World context.new.actor.now.known result }
        ensures aim { (first count : ℕ) → ReadsBlocks scope.now first count
            context.old.actor.now.known token → (result.first ≡ first) × (result.count ≡ count) }
        ensures all { (self.new.free ≡ self.old.free) × (self.new.ended ≡ self.old.ended)
            × (self.new.in_flight ≡ self.old.in_flight) × (self.new.batch ≡ self.old.batch)
            × (self.new.taken_in ≡ self.old.taken_in + 1) }
        ensures idle { HasIdleHandle context.old.table.now.config context.new.actor.now.known }
        ensures runs { (given : ℕ) (runs : List Run) → ReadsForRuns scope.now
            context.old.actor.now.known self.old given runs → ReadsForRuns scope.now
            context.new.actor.now.known self.new (given + 1) runs }
    {
        let mut local = wait_own(rt, context.table, context.actor, token, context.runner);
        local
            .record_mut()
            .complete_local(&mut Counts { ios: 0, blocks: 0 });
        let io = context.table.reclaim(context.actor, local);
        context.actor.has_seen_its_marks();
        context.actor.has_reclaimed_only_past();
        self.taken_in += 1;
        io
    }

    // Settles the oldest I/O in flight.
    fn settle_oldest<M: Method<ReadIo, W>, E: Execute<ReadIo, W>, T: Wait>(
        &mut self,
        rt: &T,
        scope: &Scope<W>,
        context: &mut IoContext<W, M, E>,
    ) -> Option<ReadIo>
        requires valid_context { IsValidContext E.Execute W.World scope.now context.old }
        requires issued { Issued scope.now W.World context.old.actor.now.known self.old }
        requires batch_empty { self.old.batch ≡ [] }
        ensures context_advanced { ContextAdvanced E.Execute M.Method context.old context.new }
        ensures issued { Issued scope.now W.World context.new.actor.now.known self.new }
        ensures some { IfSome result (λ io. IsTakenIn scope.now W.World
            context.new.actor.now.known io × (record_count self.old ≡ record_count self.new + 1)) }
        ensures idle { IfSome result (λ _. HasIdleHandle context.old.table.now.config
            context.new.actor.now.known) }
        ensures run { IfSome result (λ io. (runs : List Run)
            → InFlightForRuns scope.now context.old.actor.now.known self.old.in_flight.items runs
            → (rest : List Run) × (runs ≡ run_of io ∷ rest)
            × InFlightForRuns scope.now context.new.actor.now.known self.new.in_flight.items rest) }
        ensures none { IfNone result (self.old.in_flight.items ≡ []) }
        ensures same_state { IfNone result ((self.new ≡ self.old) × (context.new.actor.now ≡
            context.old.actor.now)) }
        ensures all { (self.new.free ≡ self.old.free) × (self.new.batch ≡ self.old.batch)
            × (self.new.ended ≡ self.old.ended) × (ios_started self.new ≡ ios_started self.old) }
    {
        match self.in_flight.pop_front() {
            Some(token) => Some(self.settle(rt, scope, context, token)),
            None => None,
        }
    }

    // Takes the oldest I/O in flight in, and keeps its record with its pages. One of the handles is
    // in the middle of no life then.
    pub(crate) fn take_in<M: Method<ReadIo, W>, E: Execute<ReadIo, W>, T: Wait>(
        &mut self,
        rt: &T,
        scope: &Scope<W>,
        context: &mut IoContext<W, M, E>,
    )
        requires valid_context { IsValidContext E.Execute W.World scope.now context.old }
        requires issued { Issued scope.now W.World context.old.actor.now.known self.old }
        requires batch_empty { self.old.batch ≡ [] }
        ensures context_advanced { ContextAdvanced E.Execute M.Method context.old context.new }
        ensures issued { Issued scope.now W.World context.new.actor.now.known self.new }
        ensures same { SameReads scope.now context.old.actor.now.known
            context.new.actor.now.known self.old self.new }
        ensures batch { self.new.batch ≡ self.old.batch }
        ensures idle { HasIdleHandle context.old.table.now.config context.new.actor.now.known }
        ensures taken { self.new.ended.items ≡ [] → self.new.in_flight.items ≡ [] }
    {
        if let Some(io) = self.settle_oldest(rt, scope, context) {
            push(&mut self.ended, EndedRead { io, given: 0 });
        }
    }

    // Has the oldest read taken in, if there is one.
    pub(crate) fn take_up<M: Method<ReadIo, W>, E: Execute<ReadIo, W>, T: Wait>(
        &mut self,
        rt: &T,
        scope: &Scope<W>,
        context: &mut IoContext<W, M, E>,
    )
        requires valid_context { IsValidContext E.Execute W.World scope.now context.old }
        requires issued { Issued scope.now W.World context.old.actor.now.known self.old }
        requires batch_empty { self.old.batch ≡ [] }
        ensures context_advanced { ContextAdvanced E.Execute M.Method context.old context.new }
        ensures issued { Issued scope.now W.World context.new.actor.now.known self.new }
        ensures same { SameReads scope.now context.old.actor.now.known
            context.new.actor.now.known self.old self.new }
        ensures batch { self.new.batch ≡ self.old.batch }
        ensures taken { self.new.ended.items ≡ [] → self.new.in_flight.items ≡ [] }
    {
        if self.ended.is_empty() {
            self.take_in(rt, scope, context);
        }
    }

    // The oldest read that has ended or was submitted, taken in.
    fn take_oldest<M: Method<ReadIo, W>, E: Execute<ReadIo, W>, T: Wait>(
        &mut self,
        rt: &T,
        scope: &Scope<W>,
        context: &mut IoContext<W, M, E>,
    ) -> Option<ReadIo>
        requires valid_context { IsValidContext E.Execute W.World scope.now context.old }
        requires issued { Issued scope.now W.World context.old.actor.now.known self.old }
        requires batch_empty { self.old.batch ≡ [] }
        ensures context_advanced { ContextAdvanced E.Execute M.Method context.old context.new }
        ensures issued { Issued scope.now W.World context.new.actor.now.known self.new }
        ensures some { IfSome result (λ io. IsTakenIn scope.now W.World
            context.new.actor.now.known io × (record_count self.old ≡ record_count self.new + 1)) }
        ensures none { IfNone result (self.old.in_flight.items ≡ []) }
        ensures all { (self.new.free ≡ self.old.free) × (self.new.batch ≡ self.old.batch)
            × (ios_started self.new ≡ ios_started self.old) }
        ensures same_state { IfNone result ((self.old.ended.items ≡ [])
            × (record_count self.new ≡ record_count self.old)
            × (self.new.in_flight ≡ self.old.in_flight)) }
    {
        match self.ended.pop_front() {
            Some(oldest) => Some(oldest.io),
            None => self.settle_oldest(rt, scope, context),
        }
    }

    /// Takes all I/Os in, and has all records free. The answer is how many were taken in since the
    /// stream was opened.
    pub fn finish<M: Method<ReadIo, W>, E: Execute<ReadIo, W>, T: Wait>(
        &mut self,
        rt: &T,
        scope: &Scope<W>,
        context: &mut IoContext<W, M, E>,
    ) -> u64
        requires valid_context { IsValidContext E.Execute W.World scope.now context.old }
        requires issued { Issued scope.now W.World context.old.actor.now.known self.old }
        requires all { record_count self.old ≡ scope.now.total.value }
        ensures context_advanced { ContextAdvanced E.Execute M.Method context.old context.new }
        ensures issued { Issued scope.now W.World context.new.actor.now.known self.new }
        ensures ready { AllRecordsFree scope.now.combine scope.now.total.value self.new }
        ensures count { (result ≡ self.new.taken_in)
            × (ios_started self.new ≡ ios_started self.old) }
    {
        self.submit(rt, scope, context, false);
        while let Some(io) = self.take_oldest(rt, scope, context) {
            self.release(io);
        }
        self.taken_in
    }
}
