//! A read stream.
ghost use Rattle.std.specs.Prelude.{◌≡◌, ◌<◌, ◌≤◌, ◌+◌, ℕ, [], length, IfSome};
ghost use Rattle.std.specs.declared.snapshot.Snapshot.{Snapshot};
ghost use Rattle.page_check.specs.PageBytes.{IsPage};
ghost use Rattle.page_check.specs.IsAnswer.{IfPage, Stop as SaidStop};
ghost use Rattle.aio_word.specs.Events.{lives_ended};
ghost use Rattle.aio_handle.specs.EndStates.{HasNoOwnerTokens};
ghost use Rattle.aio_handle.specs.FreeHandles.{IsRoom};
ghost use Rattle.aio_handle.specs.ContractViews.{ActorView, IsActorOf};
ghost use Rattle.stream_answer.specs.StreamAnswers.{synchronous_answer};
ghost use Rattle.read_stream.specs.StreamViews.{answer_of, new_stream, IsStreamAnswer};
ghost use Rattle.read_stream.specs.StreamViews.{HasNoFailedRead, IsSynchronousAnswer, CallAdvanced};
ghost use Rattle.read_stream.specs.Desks.{IsFreeDesk, desk_settings};
ghost use Rattle.read_stream.specs.StreamState.{IsOpen, IsOpenFor, StreamAnswered, answer_at_hand};
ghost use Rattle.read_stream.specs.StreamState.{stream_view};
ghost use Rattle.read_stream.specs.ActorProgress.{local_mark_count};

use crate::at_hand::AtHand;
use crate::desk::Desk;
use crate::io_context::IoContext;
use crate::parts::Stop;
use crate::scope::Scope;
use aio_batch::Method;
use aio_callback::ReadIo;
use aio_handle::{Actor, Execute, Table};
use block_source::BlockSource;
use buf_pool::Pool;
use page_check::laws::a_page_has_8192_bytes;
use page_check::{PageMark, World};
use std::snapshot::Snapshot;
use std::sync::Wait;
use stream_answer::Next;

/// A stream of the pages of one relation, in the order of a source. It must be spent by `close`.
/// Contracts speak of what it reads, how far it has come, and its actor (`stream_view`).
pub struct ReadStream<'d, 'p, W: World, S: BlockSource<P> + Drop, P: Copy> {
    pub(crate) desk: &'d mut Desk<W, P>,
    pub(crate) pool: &'p Pool<W>,
    pub(crate) scope: Scope<W>,
    pub(crate) source: S,
    pub(crate) at_hand: AtHand<'p, W>,
    // The source as it was when the stream was opened, and the actor as the last call left it.
    pub(crate) source_was: Snapshot<S>,
    pub(crate) actor_is: Snapshot<Actor<ReadIo, W>>,
}

impl<'d, 'p, W: World, S: BlockSource<P> + Drop, P: Copy> ReadStream<'d, 'p, W, S, P> {
    ghost use Rattle.read_stream.specs.contracts.stream.ReadStream.{the_row};
    ghost use Rattle.std.specs.Io.BufRead.{Rests};
    ghost use types.Logic.{sem};
    ghost use mir.Syntax.{named};

    /// A stream over the blocks that the source has left. It takes no memory and makes no step.
    pub fn open(
        desk: &'d mut Desk<W, P>,
        pool: &'p Pool<W>,
        actor: &Actor<ReadIo, W>,
        relation: u32,
        source: S,
    ) -> ReadStream<'d, 'p, W, S, P>
        requires desk { IsFreeDesk desk.old }
        requires backend { actor.now.known.number < actor.now.known.config.backends }
        requires no_owner_tokens { HasNoOwnerTokens actor.now.known }
        requires room { (room : ℕ) × IsRoom actor.now.known.config actor.now.known room
            × (length (S.left source) ≤ room) }
        requires relation { relation < W.relations }
        ensures stream { stream_view S.left result ≡ new_stream desk.entry.ghost_name
            (desk_settings desk.old) relation (S.left source) actor.now }
        ensures is_open { IsOpenFor S.left W.World result actor.now }
    {
        let source_was = Snapshot::of(&source);
        let settings = desk.settings;
        let total = Snapshot::of(&(settings.ios + 1));
        let most = Snapshot::of(&actor.room());
        let scope = Scope {
            relation,
            combine: settings.combine,
            batched: settings.batch,
            rules: settings.rules,
            total,
            most,
            was: Snapshot::of(actor),
        };
        desk.begin();
        ReadStream {
            desk,
            pool,
            scope,
            source,
            at_hand: AtHand::Nothing,
            source_was,
            actor_is: Snapshot::of(actor),
        }
    }

    /// The page of the next block, lent with the source's data until the next call; or how the
    /// stream has ended, which each later call says again. `Unread` comes where a read of this
    /// stream has failed, `Invalid` where a page is damaged and the settings refuse such pages,
    /// `PastEnd` where the relation has no such block. It may wait.
    ///
    /// Between two calls the actor makes no I/O of its own and executes none. It may look.
    ///
    /// The clause `after` speaks of the moment when the lent page is given back, which `Rests` names:
    /// the stream is then as `StreamAnswered` says, open and with what was answered counted.
    pub fn next<M: Method<ReadIo, W>, E: Execute<ReadIo, W>, T: Wait>(
        &mut self,
        rt: &T,
        table: &Table<ReadIo, W>,
        actor: &mut Actor<ReadIo, W>,
        method: &mut M,
        runner: &mut E,
    ) -> Next<'_, P>
        requires table { IsActorOf table.now actor.old }
        requires told { (E.told runner.old ≡ W.told) × (E.relations runner.old ≡ W.relations) }
        requires is_open { IsOpenFor S.left W.World self.old actor.old }
        ensures advanced { CallAdvanced E.Execute M.Method actor.old actor.new runner.old runner.new
            method.old method.new }
        ensures answer { IsStreamAnswer W.told (stream_view S.left self.old) actor.new
            (answer_of (stream_view S.left self.old) result) }
        ensures complete { HasNoFailedRead (stream_view S.left self.old).actor_was actor.new
            → IsSynchronousAnswer W.told (stream_view S.left self.old)
            (answer_of (stream_view S.left self.old) result) }
        ensures answer_repeated { IfSome (stream_view S.left self.old).ending
            (λ e. answer_of (stream_view S.left self.old) result ≡ SaidStop e) }
        ensures* after { sem 𝓛 (Rests
            (the_row (record { mir = named 0; lft = [] }) (record { mir = named 1; lft = [] })
            W.row S.row P.row W.World)
            self.entry
            (λ n. StreamAnswered S.left W.World self.old n actor.new
            (answer_of (stream_view S.left self.old) result))) }
    {
        let mut context = IoContext {
            table,
            actor,
            method,
            runner,
        };
        self.note_actor(context.actor);
        self.advance(rt, &mut context);
        self.answer()
    }

    // The actor may have looked since the last call.
    fn note_actor(&mut self, actor: &Actor<ReadIo, W>)
        requires is_open { IsOpenFor S.left W.World self.old actor.now }
        ensures is_open { IsOpen S.left W.World self.new }
        ensures noted { (actor_is : Snapshot ActorView) × (actor_is.value ≡ actor.now)
            × (self.new ≡ record self.old { actor_is = actor_is }) }
    {
        self.actor_is = Snapshot::of(actor);
    }

    // The last answer, lent.
    fn answer(&self) -> Next<'_, P>
        requires is_open { IsOpen S.left W.World self.now }
        ensures answer { synchronous_answer self.now.scope.relation result
            ≡ answer_at_hand self.now }
        ensures page { IfPage (synchronous_answer self.now.scope.relation result) IsPage }
    {
        match &self.at_hand {
            AtHand::Pinned(pin) => {
                let asked = self.desk.blocks.lent_block();
                let page = pin.page();
                a_page_has_8192_bytes(page);
                Next::Page(page, asked.block, &asked.per_buffer_data)
            }
            AtHand::Lent => {
                let asked = self.desk.blocks.lent_block();
                let oldest = self.desk.reads.oldest();
                let page = oldest.io.page(oldest.given);
                a_page_has_8192_bytes(page);
                let data = &asked.per_buffer_data;
                match oldest.io.mark(oldest.given) {
                    PageMark::Valid => Next::Page(page, asked.block, data),
                    PageMark::Zeroed => Next::Zeroed(page, asked.block, data),
                    PageMark::Damaged => Next::Damaged(page, asked.block, data),
                }
            }
            AtHand::Stopped(block, Stop::Invalid) => Next::Invalid(*block),
            AtHand::Stopped(block, Stop::Unread) => Next::Unread(*block),
            AtHand::Stopped(block, Stop::PastEnd) => Next::PastEnd(*block),
            AtHand::Nothing | AtHand::Ended => Next::End,
        }
    }

    /// Ends the stream: no token of its actor is out, and its desk is free. The answer is how many
    /// I/Os of the stream its actor took in. It may wait.
    pub fn close<M: Method<ReadIo, W>, E: Execute<ReadIo, W>, T: Wait>(
        self,
        rt: &T,
        table: &Table<ReadIo, W>,
        actor: &mut Actor<ReadIo, W>,
        method: &mut M,
        runner: &mut E,
    ) -> (u64, &'d mut Desk<W, P>)
        requires table { IsActorOf table.now actor.old }
        requires told { (E.told runner.old ≡ W.told) × (E.relations runner.old ≡ W.relations) }
        requires is_open { IsOpenFor S.left W.World self actor.old }
        ensures advanced { CallAdvanced E.Execute M.Method actor.old actor.new runner.old runner.new
            method.old method.new }
        ensures no_owner_tokens { HasNoOwnerTokens actor.new.known }
        ensures count { local_mark_count actor.new.known.marks
            ≡ local_mark_count (stream_view S.left self.entry).actor_was.known.marks + result.0 }
        ensures few { result.0 ≤ length (stream_view S.left self.entry).blocks }
        ensures lives_bound { (h : ℕ) → lives_ended h actor.new.known.marks
            ≤ lives_ended h (stream_view S.left self.entry).actor_was.known.marks + result.0 }
        ensures desk { (result.1.ghost_name ≡ (stream_view S.left self.entry).desk)
            × IsFreeDesk result.1.now
            × (desk_settings result.1.now ≡ (stream_view S.left self.entry).settings) }
    {
        let mut stream = self;
        stream.note_actor(actor);
        let ReadStream {
            desk,
            pool,
            scope,
            source: _,
            at_hand,
            source_was: _,
            actor_is: _,
        } = stream;
        match at_hand {
            AtHand::Pinned(pin) => pool.unpin(rt, pin),
            AtHand::Nothing | AtHand::Lent | AtHand::Stopped(_, _) | AtHand::Ended => {}
        }
        let mut context = IoContext {
            table,
            actor,
            method,
            runner,
        };
        let taken_in = desk.end(rt, &scope, &mut context);
        (taken_in, desk)
    }
}
