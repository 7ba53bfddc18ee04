//! What takes pages, and how pages end.
ghost use Rattle.std.specs.Prelude.{◌≡◌, ◌<◌, ◌++◌, ◌∷◌, [], ℕ, List, length, IsFalse};
ghost use Rattle.page_check.specs.SynchronousAnswer.{Given, IsValidUnlessDamaged};

use page_check::{Page, PageMark};

/// How the pages of a source's blocks ended.
#[derive(Clone, Copy, Debug, PartialEq, Eq)]
pub enum Ended {
    /// Behind the last block of the source: each page was taken.
    End,
    /// The consumer wanted no further page: it has enough.
    Stopped,
    /// The page of this block is damaged, and the settings refuse such pages.
    Invalid(u32),
    /// This block could not be read: a read of the disk has failed.
    Unread(u32),
    /// The relation has no such block.
    PastEnd(u32),
}

/// Takes the pages of a relation, one after the other, as the loop around
/// `read_stream_next_buffer` of PostgreSQL's `read_stream.c` does.
///
/// A type that implements it says what it holds once it has taken some pages. What a call of
/// [`for_each_page`](crate::for_each_page) promises is said of these pages.
pub trait PageConsumer {
    /// What it is once it has taken these pages.
    ghost holds: { Self → List (Given (Unit {0})) → Type 0 };

    /// How many pages it can take. It has to be as many as the source has blocks.
    ghost most: { Self → ℕ };

    /// When it may stop before the last block: never, where it does not say.
    ghost has_enough: { Self → Type 0 } = { λ _. ⊥ };

    /// Takes the page of a block, which is lent for the call, and its mark: whether the page is
    /// valid, zeros in place of a damaged one, or damaged and given as it is. The last two come
    /// only where the settings say so.
    fn take(&mut self, block: u32, page: &Page, mark: PageMark)
        requires valid { IsValidUnlessDamaged mark page.now }
        requires room { (pages : List (Given (Unit {0}))) × holds self.old pages
            × (length pages < most self.old) }
        ensures takes { (pages : List (Given (Unit {0}))) (given : Given (Unit {0}))
            → given.page ≡ page.now → given.entry.block ≡ block → given.mark ≡ mark
            → holds self.old pages → holds self.new (pages ++ given ∷ []) }
        ensures most { most self.new ≡ most self.old };

    /// Whether it wants a further page. It is asked behind each page, and where it says no, the
    /// pages end with [`Ended::Stopped`].
    fn wants_more(&self) -> bool
        ensures enough { IsFalse result → has_enough self.now }
    {
        true
    }
}
