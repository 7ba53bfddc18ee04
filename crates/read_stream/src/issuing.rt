//! The calls that start a stream's I/Os.
ghost use Rattle.std.specs.Prelude.{◌≡◌, ◌≤◌, ◌<◌, ◌+◌, ◌^◌, [], ◌∷◌, ◌++◌, length, List, ℕ};
ghost use Rattle.std.specs.Prelude.{slice_get, Some, map, true, false};
ghost use Rattle.std.specs.List.{All};
ghost use Rattle.aio_word.specs.declared.WaitRef.{WaitRef};
ghost use Rattle.aio_word.specs.Stands.{IsIn};
ghost use Rattle.aio_word.specs.Tokens.{IsStaged};
ghost use Rattle.read_stream.specs.IoContexts.{IsValidContext, ContextAdvanced};
ghost use Rattle.aio_handle.specs.ContractViews.{IsActorOf};
ghost use Rattle.aio_handle.specs.Execution.{ExecutesAll};
ghost use Rattle.aio_handle.specs.ClaimAttempt.{OwnerKnowsClaimed};
ghost use Rattle.aio_batch.specs.Heard.{AppendsHeard};
ghost use Rattle.aio_callback.specs.ReadIoView.{ReadIoView, with_aim};
ghost use Rattle.aio_callback.specs.StreamOutcomes.{stream_ids};
ghost use Rattle.read_plan.specs.declared.runs.Run.{Run};
ghost use Rattle.read_plan.specs.Runs.{IsRun};
ghost use Rattle.read_stream.specs.declared.reads.EndedRead.{EndedRead};
ghost use Rattle.read_stream.specs.StreamIos.{Issued, IssuedExcept, IsStreamRecord};
ghost use Rattle.read_stream.specs.StreamIos.{IsNewIncarnation, ReadsForRuns, SameReads};
ghost use Rattle.read_stream.specs.StreamIos.{record_count, ios_started};

use crate::io_context::IoContext;
use crate::reads::{EndedRead, Reads};
use crate::ring::{push, push_front};
use crate::scope::Scope;
use aio_batch::Method;
use aio_callback::{CallbackId, ReadIo};
use aio_handle::{Execute, Staged};
use aio_word::WaitRef;
use buf_pool::Pool;
use method_sync::SyncMethod;
use page_check::{DamagedPages, PageRules, World};
use read_plan::Run;
use std::sync::Wait;

/// How many staged I/Os a batch has room for.
const MOST_STAGED: usize = 32;

/// Where no reference stands yet.
const NO_REFERENCE: WaitRef = WaitRef {
    handle: 0,
    generation: 0,
};

/// The callbacks of a stream's reads, by what becomes of damaged pages. They run from the last to
/// the first.
fn callbacks(damaged: DamagedPages) -> [CallbackId; 3]
    ensures { result ≡ stream_ids damaged }
{
    let check = match damaged {
        DamagedPages::Refuse => CallbackId::Buffer,
        DamagedPages::Zero => CallbackId::ZeroBuffer,
        DamagedPages::Give => CallbackId::MarkBuffer,
    };
    [CallbackId::Count, check, CallbackId::File]
}

/// Tells the pool that the blocks of the run are read by the I/O of the reference. A block that it
/// does not take is read all the same.
fn begin_blocks<W: World, T: Wait>(
    rt: &T,
    pool: &Pool<W>,
    scope: &Scope<W>,
    run: Run,
    reference: WaitRef,
)
    requires range { reference.handle < W.handles }
    requires blocks_in_range { run.first + run.count ≤ 2 ^ 32 }
{
    for index in 0..run.count {
        let _ = pool.begin(rt, scope.tag(run.first + index), reference);
    }
}

/// Aims the record at the run.
fn aim_record(mut io: ReadIo, relation: u32, run: Run, rules: PageRules) -> ReadIo
    requires some { 1 ≤ run.count }
    requires room { run.count ≤ length io.pages }
    requires blocks_in_range { run.first + run.count ≤ 2 ^ 32 }
    ensures { result ≡ with_aim relation run.first run.count rules.checksums
        (stream_ids rules.damaged) io }
{
    let ids = callbacks(rules.damaged);
    match io.aim(relation, run.first, run.count, rules.checksums, &ids) {
        Ok(()) => io,
        Err(_) => unreachable!(),
    }
}

// Has the submitted I/Os begun as one: alone, so that this thread executes each, or by the method.
fn begin<W: World, M: Method<ReadIo, W>, E: Execute<ReadIo, W>, T: Wait>(
    rt: &T,
    context: &mut IoContext<W, M, E>,
    references: &[WaitRef],
    alone: bool,
)
    requires table { IsActorOf context.old.table.now context.old.actor.now }
    requires told { (E.told context.old.runner.now ≡ W.told)
        × (E.relations context.old.runner.now ≡ W.relations) }
    requires range { All (λ t. t.handle < W.handles) references.now }
    ensures context_advanced { ContextAdvanced E.Execute M.Method context.old context.new }
    ensures marks { ExecutesAll [] context.old.actor.now.known context.new.actor.now.known
        (E.reads context.old.runner.now) (E.reads context.new.runner.now)
        (E.faults context.old.runner.now) (E.faults context.new.runner.now) }
    ensures heard { alone ≡ false → AppendsHeard (M.heard context.old.method.now)
        (M.heard context.new.method.now) references.now }
    ensures sees { alone ≡ true → All (λ t. OwnerKnowsClaimed t context.old.actor.now.known
        context.new.actor.now.known) references.now }
{
    let table = context.table;
    if alone {
        SyncMethod.batch_submitted(rt, table, context.actor, context.runner, references);
        return;
    }
    context
        .method
        .batch_submitted(rt, table, context.actor, context.runner, references);
}

impl<W: World> Reads<W> {
    /// Submits what is staged, in the order of staging, and has it begun: alone, so that this thread
    /// executes each, or by the method.
    pub fn submit<M: Method<ReadIo, W>, E: Execute<ReadIo, W>, T: Wait>(
        &mut self,
        rt: &T,
        scope: &Scope<W>,
        context: &mut IoContext<W, M, E>,
        alone: bool,
    )
        requires valid_context { IsValidContext E.Execute W.World scope.now context.old }
        requires issued { Issued scope.now W.World context.old.actor.now.known self.old }
        ensures context_advanced { ContextAdvanced E.Execute M.Method context.old context.new }
        ensures issued { Issued scope.now W.World context.new.actor.now.known self.new }
        ensures none { self.new.batch ≡ [] }
        ensures same { SameReads scope.now context.old.actor.now.known
            context.new.actor.now.known self.old self.new }
        ensures heard { alone ≡ false → AppendsHeard (M.heard context.old.method.now)
            (M.heard context.new.method.now) (map (λ t. t.0) self.old.batch) }
    {
        if self.batch.len() == 0 {
            return;
        }
        let mut references = [NO_REFERENCE; MOST_STAGED];
        let mut submitted = 0;
        while let Some(token) = self.batch.pop_submitted(context.table, context.actor) {
            references[submitted] = token.reference();
            submitted += 1;
            push(&mut self.in_flight, token);
        }
        begin(rt, context, &references[..submitted], alone);
    }

    // Stages an I/O over the run by the record.
    fn stage<M: Method<ReadIo, W>, E: Execute<ReadIo, W>, T: Wait>(
        &mut self,
        rt: &T,
        scope: &Scope<W>,
        pool: &Pool<W>,
        context: &mut IoContext<W, M, E>,
        io: ReadIo,
        run: Run,
    ) -> Staged<ReadIo, W>
        requires valid_context { IsValidContext E.Execute W.World scope.now context.old }
        requires issued { Issued scope.now W.World context.old.actor.now.known self.old }
        requires relation { scope.now.relation < W.relations }
        requires record { length io.pages ≡ scope.now.combine }
        requires run { IsRun scope.now.combine run }
        requires few_ios { ios_started self.old < scope.now.most.value }
        ensures context_advanced { ContextAdvanced E.Execute M.Method context.old context.new }
        ensures issued { IssuedExcept (result.0 ∷ []) scope.now W.World
            context.new.actor.now.known self.new }
        ensures token { IsStaged context.new.actor.now.known result.0
            × IsStreamRecord scope.now result.1 × IsNewIncarnation scope.now result.0 }
        ensures run { (result.1.first ≡ run.first) × (result.1.count ≡ run.count) }
        ensures apart { (u : WaitRef × ReadIoView) → IsIn u self.new.batch → (u.0 ≡ result.0 → ⊥) }
        ensures same { SameReads scope.now context.old.actor.now.known
            context.new.actor.now.known self.old self.new }
        ensures batch { length self.new.batch ≤ length self.old.batch }
    {
        let token = self.acquire(rt, scope, context);
        let io = aim_record(io, scope.relation, run, scope.rules);
        let token = context.table.define(context.actor, token, io);
        begin_blocks(rt, pool, scope, run, token.reference());
        context.table.stage(context.actor, token)
    }

    // Puts the staged I/O into the batch.
    fn put(&mut self, token: Staged<ReadIo, W>)
        requires { length self.old.batch < 32 }
        ensures { self.new ≡ record self.old { batch = self.old.batch ++ token ∷ [] } }
    {
        if self.batch.push(token).is_err() {
            unreachable!()
        }
    }

    /// Starts a read of the run by the record. It is submitted where the batch is full, or where
    /// I/Os are not submitted together: alone, so that this thread executes it, or by the method.
    pub fn start<M: Method<ReadIo, W>, E: Execute<ReadIo, W>, T: Wait>(
        &mut self,
        rt: &T,
        scope: &Scope<W>,
        pool: &Pool<W>,
        context: &mut IoContext<W, M, E>,
        io: ReadIo,
        run: Run,
        alone: bool,
    )
        requires valid_context { IsValidContext E.Execute W.World scope.now context.old }
        requires issued { Issued scope.now W.World context.old.actor.now.known self.old }
        requires relation { scope.now.relation < W.relations }
        requires few { length self.old.batch < 32 }
        requires room { record_count self.old < scope.now.total.value }
        requires record { length io.pages ≡ scope.now.combine }
        requires run { IsRun scope.now.combine run }
        requires few_ios { ios_started self.old < scope.now.most.value }
        ensures context_advanced { ContextAdvanced E.Execute M.Method context.old context.new }
        ensures issued { Issued scope.now W.World context.new.actor.now.known self.new }
        ensures few { length self.new.batch < 32 }
        ensures all { (record_count self.new ≡ record_count self.old + 1)
            × (ios_started self.new ≡ ios_started self.old + 1) × (self.new.free ≡ self.old.free) }
        ensures runs { (given : ℕ) (runs : List Run) → ReadsForRuns scope.now
            context.old.actor.now.known self.old given runs → ReadsForRuns scope.now
            context.new.actor.now.known self.new given (runs ++ run ∷ []) }
    {
        let token = self.stage(rt, scope, pool, context, io, run);
        self.put(token);
        if !scope.batched || self.batch.len() == MOST_STAGED {
            self.submit(rt, scope, context, alone);
        }
    }

    /// Reads the run by the record, at once and by this thread, and has it before the other reads.
    pub fn read<M: Method<ReadIo, W>, E: Execute<ReadIo, W>, T: Wait>(
        &mut self,
        rt: &T,
        scope: &Scope<W>,
        pool: &Pool<W>,
        context: &mut IoContext<W, M, E>,
        io: ReadIo,
        run: Run,
    )
        requires valid_context { IsValidContext E.Execute W.World scope.now context.old }
        requires issued { Issued scope.now W.World context.old.actor.now.known self.old }
        requires room { record_count self.old < scope.now.total.value }
        requires relation { scope.now.relation < W.relations }
        requires record { length io.pages ≡ scope.now.combine }
        requires run { IsRun scope.now.combine run }
        requires few_ios { ios_started self.old < scope.now.most.value }
        ensures context_advanced { ContextAdvanced E.Execute M.Method context.old context.new }
        ensures issued { Issued scope.now W.World context.new.actor.now.known self.new }
        ensures none { self.new.batch ≡ [] }
        ensures all { (record_count self.new ≡ record_count self.old + 1)
            × (ios_started self.new ≡ ios_started self.old + 1) × (self.new.free ≡ self.old.free) }
        ensures runs { (given : ℕ) (runs : List Run) → ReadsForRuns scope.now
            context.old.actor.now.known self.old given runs → ReadsForRuns scope.now
            context.new.actor.now.known self.new given (run ∷ runs) }
        ensures oldest { (oldest : EndedRead) × (slice_get self.new.ended.items 0 ≡ Some oldest)
            × (oldest.given ≡ 0) }
    {
        self.submit(rt, scope, context, false);
        let token = self.stage(rt, scope, pool, context, io, run);
        self.put(token);
        let table = context.table;
        let Some(token) = self
            .batch
            .submit_next(rt, table, context.actor, &mut SyncMethod, context.runner)
        else {
            unreachable!()
        };
        let io = self.settle(rt, scope, context, token);
        push_front(&mut self.ended, EndedRead { io, given: 0 });
    }
}
