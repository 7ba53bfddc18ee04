//! The memory of a frame.
ghost use Rattle.std.specs.Prelude.{◌≡◌, IfSome};
ghost use Rattle.counted_slot.specs.Counting.{readers};
ghost use Rattle.buf_pool.specs.FrameMemory.{Carries};
ghost use Rattle.buf_pool.specs.LookupAnswers.{pinned_tag, pinned_page};
ghost use Rattle.read_callbacks.specs.GoodPages.{IsGood};

use crate::carried_page::CarriedPage;
use crate::descriptor::Tag;
use crate::memory::PageMemory;
use crate::pin::Pin;
use counted_slot::{Claim, Counted, FREE, MOST_READERS, ONE_READER, PRESENT, TAKEN};
use page_check::{Page, World};
use std::alloc::{AllocError, Global};
use std::marker::PhantomData;

// How often a reader tries again because another reader came or left.
const TRIES: u32 = 1000;

fn readers_of(word: u64) -> u64
    ensures { result ≡ readers word }
{
    word % (1 << 32) / ONE_READER
}

/// The memory of a frame: a page in place, which many may read or one may write. The word is
/// `PRESENT`, with the number of readers, while the page is in the slot. A writer takes the page
/// out, writes it while it is the writer's alone, and puts it in again; meanwhile the slot is
/// empty,
/// and its word is `FREE`.
#[derive(Drop)]
pub(crate) struct PageSlot<W: World> {
    inner: Counted<Option<CarriedPage<W>>>,
}

impl<W: World> PageSlot<W> {
    /// A page that carries no tag. The memory for it is taken here.
    pub(crate) fn open(alloc: Global) -> Result<PageSlot<W>, AllocError> {
        let carried = CarriedPage {
            tag: None,
            memory: PageMemory::open(alloc)?,
            marker: PhantomData,
        };
        let slot = PageSlot {
            inner: Counted::new(None, &()),
        };
        let _ = slot.put_in(carried);
        Ok(slot)
    }

    // A reader's right, where the page is in the slot.
    fn reader(&self) -> Option<Claim<'_, Option<CarriedPage<W>>>>
        ensures { IfSome result (λ claim. claim.right ≡ 1) }
    {
        for _ in 0..TRIES {
            let word = self.inner.load();
            if word % 4 != PRESENT || readers_of(word) >= MOST_READERS {
                return None;
            }
            let (found, claim) = self.inner.turn(word, word + ONE_READER);
            if found == word {
                return Some(claim);
            }
            claim.done();
        }
        None
    }

    /// A reader's right on the page of the tag, where the slot has that and gives a turn.
    pub(crate) fn pin(&self, frame: u32, tag: Tag) -> Option<Pin<'_, W>>
        ensures tag { IfSome result (λ pin. pinned_tag pin ≡ tag) }
        ensures good { IfSome result
            (λ pin. IsGood W.told tag.checksums tag.relation tag.block (pinned_page pin)) }
    {
        let claim = self.reader()?;
        let carries = match claim.get() {
            Some(carried) => carried.tag == Some(tag),
            None => false,
        };
        if !carries {
            let _ = claim.leave();
            return None;
        }
        Some(Pin { frame, tag, claim })
    }

    // Takes the page out, where it is in the slot and nobody reads it.
    fn take_out(&self) -> Option<CarriedPage<W>> {
        let (found, claim) = self.inner.turn(PRESENT, TAKEN);
        if found != PRESENT {
            claim.done();
            return None;
        }
        claim.put(None, FREE)
    }

    // Puts the page in; whether it did. It does where this caller took the page out, since nobody
    // else turns the word of an empty slot.
    fn put_in(&self, carried: CarriedPage<W>) -> bool
        requires { Carries W.told carried.tag carried.memory }
    {
        let (found, claim) = self.inner.turn(FREE, TAKEN);
        if found != FREE {
            claim.done();
            return false;
        }
        let _ = claim.put(Some(carried), PRESENT);
        true
    }

    /// Copies the page into the slot, where nobody reads or writes it; whether it did.
    pub(crate) fn write(&self, tag: Tag, page: &Page) -> bool
        requires { IsGood W.told tag.checksums tag.relation tag.block page.now }
    {
        let Some(mut carried) = self.take_out() else {
            return false;
        };
        carried.memory.write(page);
        carried.tag = Some(tag);
        self.put_in(carried)
    }
}
