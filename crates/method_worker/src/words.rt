//! The closing word, the bell and the latches.
ghost use Rattle.std.specs.Prelude.{◌≡◌, ◌<◌, ◌^◌, ◌/◌, ◌%◌, ◌++◌, ◌∷◌, [], IfOk};
ghost use Rattle.method_worker.specs.ClosingWord.{word_count, word_notes, ClosingWordHasCloser};

use crate::log::Notes;
use atomic_table::{Play, Seat, Split, Table, TableRule};
use std::alloc::{AllocError, Global};
use std::sync::Wait;

/// The closing word: twice the number of reopenings, and one more while the queue is closed.
const CLOSING: usize = 0;

/// The bell is raised after each push and each close.
const BELL: usize = 1;

/// Here the workers' latches begin: 64 of them, as the mask of idle workers has bits. A latch
/// changes before each wake of its worker.
const LATCHES: usize = 2;

const FIRST: [u64; 66] = [0; 66];

/// The closing word is odd only where some seat has closed the queue under its number.
pub(crate) struct ClosingRule;

impl TableRule<(), Notes, ()> for ClosingRule {
    ghost use Rattle.std.specs.Prelude.{[]};
    ghost use Rattle.method_worker.specs.ClosingWord.{word_notes, ClosingWordIsLawful};

    ghost holds = { λ _ s. ClosingWordIsLawful s };

    ghost first = { λ _. word_notes [] [] };
}

/// A load notes what it found.
struct LoadStep;

impl Play<(), Notes> for LoadStep {
    ghost use Rattle.std.specs.Prelude.{◌≡◌, ◌++◌, ◌∷◌, [], ◌%◌};
    ghost use Rattle.method_worker.specs.ClosingWord.{word_notes, ClosingWordHasCloser};

    ghost then = { λ s v n w. (w ≡ (word_notes v.0.closes (v.0.loads ++ n ∷ []), v.1))
        × (n % 2 ≡ 1 → ClosingWordHasCloser w.0 n) };
}

/// A close notes its number, and writes an odd word.
struct CloseStep;

impl Play<(), Notes> for CloseStep {
    ghost use Rattle.std.specs.Prelude.{◌≡◌, ◌++◌, ◌∷◌, [], ◌/◌, ◌%◌};
    ghost use Rattle.method_worker.specs.ClosingWord.{word_notes};

    ghost then = { λ s v n w. (w ≡ (word_notes (v.0.closes ++ s.first / 2 ∷ []) v.0.loads, v.1))
        × (s.first % 2 ≡ 1) };
}

/// A reopening, a ring of the bell and a change of a latch note nothing.
struct SilentStep;

impl Play<(), Notes> for SilentStep {
    ghost use Rattle.std.specs.Prelude.{◌≡◌};

    ghost then = { λ s v n w. w ≡ v };
}

/// A new seat has noted nothing.
pub(crate) struct NewSeat;

impl Split<Notes> for NewSeat {
    ghost use Rattle.std.specs.Prelude.{[]};
    ghost use Rattle.method_worker.specs.ClosingWord.{word_notes};

    ghost left = { λ v. v };

    ghost right = { λ v. word_notes [] [] };
}

pub(crate) type Words = Table<(), Notes, (), ClosingRule, Global>;

pub(crate) type WordSeat = Seat<(), Notes>;

pub(crate) fn open_words(alloc: Global) -> Result<(Words, WordSeat), AllocError>
    ensures { IfOk result
        (λ t. (t.1.table_id ≡ t.0.shared.table_id) × (t.0.shared.table_id.words ≡ word_count)
        × (t.1.me ≡ (word_notes [] [], []))) }
{
    Table::of_words(alloc, FIRST.as_slice(), &())
}

/// A further seat on the words.
pub(crate) fn split_word_seat(words: &Words, seat: &mut WordSeat) -> WordSeat
    requires same_table { (seat.old.table_id ≡ words.now.shared.table_id)
        × (words.now.shared.table_id.words ≡ word_count) }
    ensures same { (seat.new.table_id ≡ seat.old.table_id) × (seat.new.me ≡ seat.old.me) }
    ensures new { (result.table_id ≡ seat.old.table_id) × (result.me ≡ (word_notes [] [], [])) }
{
    words.shared.split_seat::<NewSeat>(seat)
}

/// A closing word that a seat has read. Only [`load_closing`] makes one.
#[derive(Drop)]
pub(crate) struct ClosingWord {
    word: u64,
}

impl ClosingWord {
    pub(crate) fn get(&self) -> u64
        ensures { result ≡ self.now.word }
    {
        self.word
    }
}

/// Reads the closing word.
pub(crate) fn load_closing(words: &Words, seat: &mut WordSeat) -> ClosingWord
    requires same_table { (seat.old.table_id ≡ words.now.shared.table_id)
        × (words.now.shared.table_id.words ≡ word_count) }
    ensures same { seat.new.table_id ≡ seat.old.table_id }
    ensures notes_are { seat.new.me
        ≡ (
          word_notes seat.old.me.0.closes (seat.old.me.0.loads ++ result.word ∷ []),
          seat.old.me.1,
        ) }
    ensures closed { result.word % 2 ≡ 1 → ClosingWordHasCloser seat.new.me.0 result.word }
{
    ClosingWord {
        word: words.shared.load::<LoadStep>(seat, CLOSING),
    }
}

/// Closes under this number of reopenings.
pub(crate) fn close_under(words: &Words, seat: &mut WordSeat, number: u64)
    requires same_table { (seat.old.table_id ≡ words.now.shared.table_id)
        × (words.now.shared.table_id.words ≡ word_count) }
    requires few { number < 2 ^ 63 }
    ensures same { seat.new.table_id ≡ seat.old.table_id }
    ensures notes_are { seat.new.me
        ≡ (word_notes (seat.old.me.0.closes ++ number ∷ []) seat.old.me.0.loads, seat.old.me.1) }
{
    words
        .shared
        .fetch_max::<CloseStep>(seat, CLOSING, number * 2 + 1);
}

/// Opens under this number of reopenings. Only who has the words alone may do so: else a push or a
/// pop could open a queue that another has closed.
pub(crate) fn open_under(words: &mut Words, seat: &mut WordSeat, number: u64)
    requires same_table { (seat.old.table_id ≡ words.old.shared.table_id)
        × (words.old.shared.table_id.words ≡ word_count) }
    requires few { number < 2 ^ 63 }
    ensures same { (seat.new.table_id ≡ seat.old.table_id) × (seat.new.me ≡ seat.old.me) }
    ensures words { words.new ≡ words.old }
{
    words.shared.store::<SilentStep>(seat, CLOSING, number * 2);
}

/// The bell was raised by this thread. Only [`ring`] makes one.
#[derive(Drop)]
pub(crate) struct BellRing(());

/// Raises the bell, wrapping.
pub(crate) fn ring(words: &Words, seat: &mut WordSeat) -> BellRing
    requires same_table { (seat.old.table_id ≡ words.now.shared.table_id)
        × (words.now.shared.table_id.words ≡ word_count) }
    ensures same { (seat.new.table_id ≡ seat.old.table_id) × (seat.new.me ≡ seat.old.me) }
{
    words.shared.fetch_add::<SilentStep>(seat, BELL, 1);
    BellRing(())
}

/// The bell.
pub(crate) fn heard(words: &Words) -> u64
    requires { words.now.shared.table_id.words ≡ word_count }
{
    words.shared.peek(BELL)
}

/// What stands in this worker's latch.
pub(crate) fn latch(words: &Words, worker: u32) -> u64
    requires words { words.now.shared.table_id.words ≡ word_count }
    requires worker { worker < 64 }
{
    words.shared.peek(LATCHES + worker as usize)
}

/// Sleeps while the low 32 bits of this worker's latch are those of this number, until a wake.
pub(crate) fn sleep<T: Wait>(rt: &T, words: &Words, worker: u32, latch: u64)
    requires words { words.now.shared.table_id.words ≡ word_count }
    requires worker { worker < 64 }
{
    words
        .shared
        .park(rt, LATCHES + worker as usize, (latch % (1 << 32)) as u32);
}

/// Changes this worker's latch, and wakes the worker where it sleeps (`SetLatch`). Where it has
/// read its latch but does not sleep yet, it does not fall asleep.
pub(crate) fn set_latch(words: &Words, seat: &mut WordSeat, worker: u32)
    requires same_table { (seat.old.table_id ≡ words.now.shared.table_id)
        × (words.now.shared.table_id.words ≡ word_count) }
    requires worker { worker < 64 }
    ensures same { (seat.new.table_id ≡ seat.old.table_id) × (seat.new.me ≡ seat.old.me) }
{
    let word = LATCHES + worker as usize;
    words.shared.fetch_add::<SilentStep>(seat, word, 1);
    words.shared.wake_one(word);
}
