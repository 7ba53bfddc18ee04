//! The end of a read: its callbacks, and where its pages go.
ghost use Rattle.std.specs.Prelude.{◌≡◌, ◌≢◌, ◌≤◌, ◌<◌, ◌&&◌, ℕ, length, true, false, not};
ghost use Rattle.std.specs.Prelude.{nat_lt, option_map, if◌then◌else◌, Option, Some, None, IfSome};
ghost use Rattle.page_check.specs.Told.{Told};
ghost use Rattle.aio_word.specs.declared.Class.TheVariants.{Unended};
ghost use Rattle.read_callbacks.specs.CallbackCounts.{counts_after};
ghost use Rattle.read_callbacks.specs.Chain.{good_count, is_marked};

use super::{ReadIo, fill_room};
use aio_word::WaitRef;
use page_check::{Page, PageMark, World};
use read_callbacks::{Counts, Places, first_result, run_chain, run_local};
use std::sync::Wait;

impl ReadIo {
    ghost use Rattle.aio_callback.specs.ReadIoView.{record_page, record_mark, record_aim};
    ghost use Rattle.aio_callback.specs.ReadIoView.{HasAnswer, ReadFits};
    ghost use Rattle.aio_callback.specs.ReadIoView.{AllGood, IsAfterShared, after_local};
    ghost use Rattle.aio_callback.specs.ReadIoView.{IsCompletedRead};
    ghost use Rattle.read_callbacks.specs.Finishes.{FinishesGrew};
    ghost use Rattle.aio_callback.specs.Finishes.{all_finishes};

    // The page of a block, where it is good and not marked.
    fn page_if(&self, index: u32, good: u32) -> Option<&Page>
        requires ended { self.now.label.ended ≢ Unended }
        requires room { good ≤ length self.now.pages }
        ensures { option_map (λ p. p.now) result
            ≡ (if nat_lt index good && not (is_marked (record_mark self.now index))
            then Some (record_page self.now index) else None) }
    {
        if index < good && matches!(self.marks[index as usize], PageMark::Valid) {
            Some(&self.pages[index as usize])
        } else {
            None
        }
    }

    // Runs the callbacks, from the last to the first.
    fn run_shared(&mut self)
        requires answered { self.old.raw ≢ None }
        ensures value { IfSome self.old.raw (IsAfterShared self.new self.old) }
        ensures room { (self.old.count ≤ length self.old.pages)
            × (self.new.count ≤ length self.new.pages) }
        ensures some { self.old.aimed ≡ true → 0 < self.old.count }
        ensures ended { self.new.label.ended ≢ Unended }
    {
        let Some(answer) = self.raw else {
            unreachable!()
        };
        fill_room(&mut self.pages, self.room);
        self.marks.fill(PageMark::Valid);
        self.result = run_chain(
            &self.ids[..self.id_count],
            self.checksums,
            self.first,
            self.count,
            self.pages.as_mut_slice(),
            self.marks.as_mut_slice(),
            first_result(answer),
        );
        self.label.ended = answer.class(self.count);
        self.label.settled = false;
    }

    // Hands each block over, with its page where it is good and not marked.
    fn finish_all<W: World, P: Places<W>, T: Wait>(&self, rt: &T, places: &mut P)
        requires ended { self.now.label.ended ≢ Unended }
        requires few { good_count self.now.ids self.now.result ≤ length self.now.pages }
        requires good { AllGood W.told self.now (good_count self.now.ids self.now.result) }
        ensures { FinishesGrew (P.finished places.old) (P.finished places.new)
            (all_finishes self.now) }
    {
        let good = self.good();
        let reference = WaitRef {
            handle: self.label.handle,
            generation: self.label.generation,
        };
        for index in 0..self.count {
            let page = self.page_if(index, good);
            places.finish(
                rt,
                self.relation,
                self.first + index,
                self.checksums,
                reference,
                page,
            );
        }
    }

    /// Runs the callbacks from the last to the first (`pgaio_io_call_complete_shared` of
    /// `aio_callback.c`), and tells `places` of each block, in rising order.
    ///
    /// An answer stands and says what the disk said of the pages, where that is told, and the
    /// record has not ended. Afterwards it has ended and is not settled.
    pub fn complete_shared<W: World, P: Places<W>, T: Wait>(&mut self, rt: &T, places: &mut P)
        requires answered { HasAnswer W.told self.old }
        requires unended { self.old.label.ended ≡ Unended }
        ensures value { IfSome self.old.raw (IsAfterShared self.new self.old) }
        ensures completed { IsCompletedRead W.told self.new }
        ensures fits { (relations : ℕ) → self.old.aimed ≡ true → self.old.relation < relations
            → ReadFits W.told relations self.new }
        ensures label { (self.new.label.ended ≢ Unended)
            × (self.new.label
            ≡ record self.old.label { ended = self.new.label.ended; settled = false }) }
        ensures aim { record_aim self.new ≡ record_aim self.old }
        ensures finished { FinishesGrew (P.finished places.old) (P.finished places.new)
            (all_finishes self.new) }
    {
        self.run_shared();
        self.finish_all::<W, P, T>(rt, places);
    }

    /// Runs the local callbacks (`pgaio_io_call_complete_local` of `aio_callback.c`): each Count
    /// adds one I/O, and as many blocks as the result says.
    ///
    /// The record has ended and is not settled; afterwards it is settled.
    pub fn complete_local(&mut self, counts: &mut Counts)
        requires ended { self.old.label.ended ≢ Unended }
        requires unsettled { self.old.label.settled ≡ false }
        ensures value { self.new ≡ after_local self.old }
        ensures fits { (told : Option Told) (relations : ℕ) → ReadFits told relations self.old
            → ReadFits told relations self.new }
        ensures counts { counts.new ≡ counts_after self.old.ids self.old.result counts.old }
    {
        run_local(&self.ids[..self.id_count], self.result, counts);
        self.label.settled = true;
    }
}
