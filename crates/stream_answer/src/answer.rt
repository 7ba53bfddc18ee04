//! What a stream answers.
ghost use Rattle.std.specs.Prelude.{◌≡◌, ℕ, option_map};
ghost use Rattle.stream_answer.specs.StreamAnswers.{answer_page, synchronous_answer};

use page_check::Page;

/// What a read stream gives at each call. The page and the caller's data are lent until the next
/// call.
#[derive(Clone, Copy)]
pub enum Next<'s, P> {
    /// The page of the block, and the data that the source gave with it.
    Page(&'s Page, u32, &'s P),
    /// The same of a page that is not valid and was set to zeros.
    Zeroed(&'s Page, u32, &'s P),
    /// The same of a page that is not valid and is given as it is.
    Damaged(&'s Page, u32, &'s P),
    /// The source has no further block.
    End,
    /// The page of this block is not valid, and is not given.
    Invalid(u32),
    /// The block could not be read.
    Unread(u32),
    /// The relation has no such block.
    PastEnd(u32),
}

impl<'s, P> Next<'s, P> {
    /// The page that it gives, whatever its mark: `None` where it is an ending. It is lent as long
    /// as the answer is.
    pub fn page(&self) -> Option<&'s Page>
        ensures { (relation : ℕ) → option_map (λ page. page.now) result
            ≡ answer_page (synchronous_answer relation self.now) }
    {
        match *self {
            Next::Page(page, _, _) | Next::Zeroed(page, _, _) | Next::Damaged(page, _, _) => {
                Some(page)
            }
            Next::End | Next::Invalid(_) | Next::Unread(_) | Next::PastEnd(_) => None,
        }
    }
}
