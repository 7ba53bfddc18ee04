//! What takes the pages of a stream.
ghost use Rattle.std.specs.Prelude.{◌≡◌, ◌<◌, ℕ, List, length};
ghost use Rattle.page_check.specs.SynchronousAnswer.{Given, IsValidUnlessDamaged};
ghost use Rattle.stream_answer.specs.StreamAnswers.{synchronous_answer};
ghost use Rattle.page_check.specs.IsAnswer.{IfGiven};
ghost use Rattle.scan_jobs.specs.ConsumedPages.{AnswerConsumed};

use crate::job::Ending;
use stream_answer::Next;

/// Takes the pages of a stream, one after the other.
pub trait Consumer: Drop {
    /// What it holds is what comes of these pages.
    ghost holds: { Self → List (Given (Unit {0})) → Type 0 };

    /// How many pages it can take.
    ghost most: { Self → ℕ };

    /// What stays as it is while it takes pages.
    ghost Kept: { Type 0 };

    ghost kept: { Self → Kept };

    /// Takes what a stream answers next. Some where that was an ending, or where there was no
    /// memory for the page, which is not taken then.
    fn take(&mut self, relation: u32, answer: Next<'_, ()>) -> Option<Ending>
        requires valid { IfGiven (synchronous_answer relation answer)
            (λ g. IsValidUnlessDamaged g.mark g.page) }
        requires room { IfGiven (synchronous_answer relation answer) (λ _.
            (pages : List (Given (Unit {0}))) × holds self.old pages
            × (length pages < most self.old)) }
        ensures takes { AnswerConsumed (holds self.old) (holds self.new)
            (synchronous_answer relation answer.entry) result }
        ensures most { most self.new ≡ most self.old }
        ensures kept { kept self.new ≡ kept self.old };
}
