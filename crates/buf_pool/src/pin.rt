//! A pin on a page of the pool.
ghost use Rattle.std.specs.Prelude.{◌≡◌, true};
ghost use Rattle.buf_pool.specs.PinnedPages.{carries_tag};

use crate::carried_page::CarriedPage;
use crate::descriptor::Tag;
use counted_slot::Claim;
use page_check::{Page, World};

/// A pin: a reader's right on a frame, which shows the page of its tag in place, for its whole
/// life. It must be spent by `Pool::unpin`, until which its frame takes no other page.
pub struct Pin<'p, W: World> {
    pub(crate) frame: u32,
    pub(crate) tag: Tag,
    pub(crate) claim: Claim<'p, Option<CarriedPage<W>>>,
    ghost reads: { claim.right ≡ 1 },
    ghost carries: { carries_tag claim.value tag ≡ true },
}

impl<'p, W: World> Pin<'p, W> {
    ghost use Rattle.buf_pool.specs.LookupAnswers.{pinned_tag, pinned_page};
    ghost use Rattle.read_callbacks.specs.GoodPages.{IsGood};

    /// The tag that was asked for.
    pub fn tag(&self) -> Tag
        ensures { result ≡ pinned_tag self.now }
    {
        self.tag
    }

    /// The page: the told one of the tag, and valid.
    pub fn page(&self) -> &Page
        ensures page { result.now ≡ pinned_page self.now }
        ensures good { IsGood W.told (pinned_tag self.now).checksums (pinned_tag self.now).relation
            (pinned_tag self.now).block
            result.now }
    {
        match self.claim.get() {
            Some(carried) => match carried.memory.page() {
                Some(page) => page,
                None => unreachable!(),
            },
            None => unreachable!(),
        }
    }
}
