//! The submission queue and its seats.
ghost use Rattle.std.specs.Prelude.{◌≡◌, ◌≤◌, ◌<◌, ◌+◌, ◌-◌, ◌^◌, ◌++◌, [], ◌∷◌, ℕ, List, min};
ghost use Rattle.std.specs.Prelude.{length, take, IfOk, IfErr, OnOk};
ghost use Rattle.aio_word.specs.declared.WaitRef.{WaitRef};
ghost use Rattle.std.specs.List.{All};
ghost use Rattle.method_worker.specs.QueueViews.{IsNewSeat, IsSeatOf, IsSameSeat};
ghost use Rattle.method_worker.specs.SeatCalls.{RuleAllows, WasFull, SeatPushes, PopAnswers};
ghost use Rattle.method_worker.specs.SeatCalls.{SeatCloses};

use crate::idle_workers::{IdleWorkers, MOST_WORKERS, Slept};
use crate::log::{Log, Notes};
use crate::rule::{PushStep, QueuePass, RuledQueue, SeatSplit, pop_entry};
use crate::words::{
    WordSeat, Words, close_under, heard, load_closing, open_under, open_words, ring,
    split_word_seat,
};
use aio_word::WaitRef;
use page_check::World;
use std::alloc::{AllocError, Global};
use std::marker::Model;
use std::sync::Wait;

/// How many references the queue has room for.
const ROOM: usize = 64;

/// The greatest number of reopenings that is counted.
const LAST_REOPENING: u64 = (1 << 63) - 1;

/// What a pop answers.
#[derive(Clone, Copy, Debug, PartialEq, Eq)]
pub enum Pop {
    /// The oldest entry.
    Entry(WaitRef),
    /// There is none, and the queue is open.
    Empty,
    /// There is none, and the queue is closed.
    Closed,
}

/// The queue has 64 entries: the reference comes back.
#[derive(Clone, Copy, Debug, PartialEq, Eq)]
pub struct QueueFull(pub WaitRef);

/// The submission queue of I/Os for workers (`PgAioWorkerSubmissionQueue` of `method_worker.c`): 64
/// references, first in, first out, without a lock. Contracts see which queue it is, and how often
/// it was opened again.
#[derive(Drop)]
pub struct SubmitQueue<W: World> {
    entries: RuledQueue<W>,
    words: Words,
    reopened: u64,
    idle_workers: IdleWorkers,
}

impl<W: World> Model for SubmitQueue<W> {
    ghost use Rattle.std.specs.Prelude.{◌≡◌, ◌<◌, ◌^◌};
    ghost use Rattle.crossbeam_queue.specs.Passes.{ruled_capacity};
    ghost use Rattle.method_worker.specs.ClosingWord.{word_count};
    ghost use Rattle.method_worker.specs.QueueViews.{QueueView};

    ghost Value = { QueueView };

    ghost view = { λ q. record {
      entries = q.entries.table.shared.table_id;
      words = q.words.shared.table_id;
      reopened = q.reopened;
    } };

    ghost invariant = { λ q. (ruled_capacity q.entries ≡ 64)
        × (q.words.shared.table_id.words ≡ word_count) × (q.reopened < 2 ^ 63) };
}

/// A seat of a queue: who pushes and pops, one thread at a time. Contracts see what it has pushed
/// and popped, the closing words that it has read, and the numbers of reopenings under which it has
/// closed the queue.
#[derive(Drop)]
pub struct QueueSeat {
    pass: QueuePass,
    word_seat: WordSeat,
    // Each seat of a queue has another, so that its worker has a bit and a latch of its own.
    number: u32,
}

impl Model for QueueSeat {
    ghost use Rattle.std.specs.Prelude.{◌≡◌, ◌<◌, []};
    ghost use Rattle.method_worker.specs.QueueViews.{SeatView, seat_view};

    ghost Value = { SeatView };

    ghost view = { λ s. seat_view s.pass.table_id s.word_seat.table_id s.pass.me.0.client
        s.word_seat.me.0 };

    ghost invariant = { λ s. (s.pass.me.1 ≡ []) × (0 < s.pass.me.0.client.parts)
        × (s.word_seat.me.1 ≡ []) × (s.number < 48) };
}

impl<W: World> SubmitQueue<W> {
    /// An open queue with no entries, and this many seats. It takes all memory that the queue ever
    /// takes.
    pub fn open(alloc: Global, seats: u32) -> Result<(SubmitQueue<W>, Vec<QueueSeat>), AllocError>
        requires seats { (1 ≤ seats) × (seats ≤ 48) }
        ensures queue { IfOk result (λ q. q.0.reopened ≡ 0) }
        ensures count { IfOk result (λ q. length q.1.items ≡ seats) }
        ensures seats { IfOk result (λ q. All (IsNewSeat q.0 seats) q.1.items) }
    {
        let mut all = Vec::with_capacity(alloc, seats as usize)?;
        let (entries, pass) = RuledQueue::ruled(alloc, ROOM)?;
        let (words, word_seat) = open_words(alloc)?;
        let queue = SubmitQueue {
            entries,
            words,
            reopened: 0,
            idle_workers: IdleWorkers::none(),
        };
        let mut first = QueueSeat {
            pass,
            word_seat,
            number: 0,
        };
        for number in 1..seats {
            let seat = queue.seat(&mut first, number);
            all.push_reserved(seat);
        }
        all.push_reserved(first);
        Ok((queue, all))
    }

    // A further seat with this number, for one of the parts of the first.
    fn seat(&self, first: &mut QueueSeat, number: u32) -> QueueSeat
        requires queue { IsSeatOf self.now first.old }
        requires parts { 1 < first.old.parts }
        requires number { number < 48 }
        ensures queue { IsSeatOf self.now first.new }
        ensures parts { first.new.parts + 1 ≡ first.old.parts }
        ensures same { (first.new.pushes ≡ first.old.pushes) × (first.new.pops ≡ first.old.pops)
            × (first.new.loads ≡ first.old.loads) × (first.new.closes ≡ first.old.closes) }
        ensures new { IsNewSeat self.now 2 result }
    {
        QueueSeat {
            pass: self.entries.another::<SeatSplit>(&mut first.pass),
            word_seat: split_word_seat(&self.words, &mut first.word_seat),
            number,
        }
    }

    /// Puts the reference at the back, and wakes one idle worker, where there is one.
    ///
    /// `QueueFull` comes only where at some moment of the call 64 entries stood in the queue; it
    /// gives the reference back, and nothing is changed.
    pub fn push<T: Wait>(
        &self,
        rt: &T,
        seat: &mut QueueSeat,
        reference: WaitRef,
    ) -> Result<(), QueueFull>
        requires queue { IsSeatOf self.now seat.old }
        requires range { reference.handle < W.handles }
        ensures same { IsSameSeat seat.old seat.new }
        ensures seat_pushes { OnOk result (SeatPushes (reference ∷ []) seat.old seat.new) }
        ensures moment { OnOk result ((items : List WaitRef)
            × RuleAllows W.handles seat.new (items ++ reference ∷ [])) }
        ensures full { IfErr result
            (λ e. (e.0 ≡ reference) × (seat.new ≡ seat.old) × WasFull W.handles seat.old) }
    {
        let answer = self.put(rt, seat, reference);
        if answer.is_ok() {
            self.wake(seat, 1);
        }
        answer
    }

    /// Puts the references at the back in their order, up to the first for which there is no room,
    /// and then wakes as many idle workers as it has put entries. It makes at most one system call
    /// for each. The answer is how many references it has put there.
    pub fn push_all<T: Wait>(&self, rt: &T, seat: &mut QueueSeat, references: &[WaitRef]) -> usize
        requires queue { IsSeatOf self.now seat.old }
        requires range { All (λ t. t.handle < W.handles) references.now }
        ensures same { IsSameSeat seat.old seat.new }
        ensures count { result ≤ length references.now }
        ensures seat_pushes { SeatPushes (take result references.now) seat.old seat.new }
        ensures full { result < length references.now → WasFull W.handles seat.new }
    {
        let pushed = self.put_all(rt, seat, references);
        if pushed > 0 {
            self.wake(seat, pushed);
        }
        pushed
    }

    // Puts the references at the back, up to the first for which there is no room. The answer is
    // how many.
    fn put_all<T: Wait>(&self, rt: &T, seat: &mut QueueSeat, references: &[WaitRef]) -> usize
        requires queue { IsSeatOf self.now seat.old }
        requires range { All (λ t. t.handle < W.handles) references.now }
        ensures same { IsSameSeat seat.old seat.new }
        ensures count { result ≤ length references.now }
        ensures seat_pushes { SeatPushes (take result references.now) seat.old seat.new }
        ensures full { result < length references.now → WasFull W.handles seat.new }
    {
        for (pushed, reference) in references.iter().enumerate() {
            if self.put(rt, seat, *reference).is_err() {
                return pushed;
            }
        }
        references.len()
    }

    // Puts the reference at the back, and wakes nobody (`pgaio_worker_submission_queue_insert`).
    fn put<T: Wait>(
        &self,
        rt: &T,
        seat: &mut QueueSeat,
        reference: WaitRef,
    ) -> Result<(), QueueFull>
        requires queue { IsSeatOf self.now seat.old }
        requires range { reference.handle < W.handles }
        ensures same { IsSameSeat seat.old seat.new }
        ensures seat_pushes { OnOk result (SeatPushes (reference ∷ []) seat.old seat.new) }
        ensures moment { OnOk result ((items : List WaitRef)
            × RuleAllows W.handles seat.new (items ++ reference ∷ [])) }
        ensures full { IfErr result
            (λ e. (e.0 ≡ reference) × (seat.new ≡ seat.old) × WasFull W.handles seat.old) }
    {
        if let Err(reference) = self
            .entries
            .push_as::<PushStep<W>, T>(rt, &mut seat.pass, reference)
        {
            return Err(QueueFull(reference));
        }
        Ok(())
    }

    // Raises the bell, and then wakes idle workers, at most so many.
    fn wake(&self, seat: &mut QueueSeat, most: usize)
        requires queue { IsSeatOf self.now seat.old }
        ensures seat { seat.new ≡ seat.old }
    {
        let ring = ring(&self.words, &mut seat.word_seat);
        self.idle_workers
            .wake(&ring, &self.words, &mut seat.word_seat, most);
    }

    /// Takes the oldest entry (`pgaio_worker_submission_queue_consume`).
    ///
    /// It reads the closing word first. Where it then finds no entry at some moment of the call,
    /// the answer is `Closed` after a word that said so, and else `Empty`.
    pub fn pop<T: Wait>(&self, rt: &T, seat: &mut QueueSeat) -> Pop
        requires queue { IsSeatOf self.now seat.old }
        ensures same { IsSameSeat seat.old seat.new }
        ensures pop_answers { (word : ℕ)
            × PopAnswers W.handles self.now.reopened word seat.old seat.new result }
    {
        let word = load_closing(&self.words, &mut seat.word_seat);
        if let Some(reference) = pop_entry(rt, &self.entries, &mut seat.pass, &word) {
            return Pop::Entry(reference);
        }
        if word.get() == self.reopened * 2 + 1 {
            return Pop::Closed;
        }
        Pop::Empty
    }

    /// Closes the queue, and wakes all idle workers. Entries stay and are still popped. A
    /// queue that is closed stays so.
    pub fn close<T: Wait>(&self, rt: &T, seat: &mut QueueSeat)
        requires queue { IsSeatOf self.now seat.old }
        ensures same { IsSameSeat seat.old seat.new }
        ensures closed { SeatCloses self.now.reopened seat.old seat.new }
    {
        let _ = rt;
        close_under(&self.words, &mut seat.word_seat, self.reopened);
        self.wake(seat, MOST_WORKERS);
    }

    /// Opens the queue again. Its entries stay. Reopenings are counted up to 2^63 - 1.
    pub fn reopen(&mut self, seat: &mut QueueSeat)
        requires queue { IsSeatOf self.old seat.old }
        ensures queue { (self.new.entries ≡ self.old.entries) × (self.new.words ≡ self.old.words) }
        ensures number { self.new.reopened ≡ min (self.old.reopened + 1) (2 ^ 63 - 1) }
        ensures seat { seat.new ≡ seat.old }
    {
        if self.reopened < LAST_REOPENING {
            self.reopened += 1;
        }
        open_under(&mut self.words, &mut seat.word_seat, self.reopened);
    }

    /// The bell, which each push and each close raises.
    pub(crate) fn bell(&self) -> u64 {
        heard(&self.words)
    }

    /// Rests as an idle worker, until a push or a close chooses to wake it, or for no reason. It
    /// does not sleep where a push or a close came since this bell was read.
    pub(crate) fn rest<T: Wait>(&self, rt: &T, seat: &QueueSeat, bell: u64) -> Slept
        requires queue { IsSeatOf self.now seat.now }
    {
        self.idle_workers.rest(rt, &self.words, seat.number, bell)
    }
}
