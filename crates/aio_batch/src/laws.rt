//! What an actor keeps of its tokens over the calls of a batch, for callers that hold several. The
//! functions do nothing: each is there for its contract. Those on other calls are
//! `aio_handle::laws`.
ghost use Rattle.std.specs.Prelude.{◌≢◌, ℕ, List, [], ◌∷◌, ◌++◌};
ghost use Rattle.aio_word.specs.declared.Known.{Known};
ghost use Rattle.aio_word.specs.declared.Step.TheVariants.{Stage};
ghost use Rattle.aio_word.specs.declared.WaitRef.{WaitRef};
ghost use Rattle.aio_word.specs.Stands.{IsIn};
ghost use Rattle.aio_word.specs.Tokens.{IsDefined, IsStaged};
ghost use Rattle.aio_handle.specs.UnchangedTokens.{TokenUnchanged};
ghost use Rattle.aio_handle.specs.LifeWords.{defined_word, staged_word};
ghost use Rattle.aio_handle.specs.CallEvents.{EventMade};
ghost use Rattle.aio_batch.specs.StagedTokens.{AreStagedTokens};
ghost use Rattle.aio_batch.specs.NextSubmission.{IsNextSubmission};

use aio_handle::Record;

/// The next submission of a batch keeps each token but the one that it submits. A token that is not
/// staged is another.
pub fn submitting_keeps_tokens<R: Record>()
    ensures { (aim_in : R → List ℕ) (before after : List (WaitRef × R)) (t u : WaitRef)
        (p q : Known) (reads reads' faults faults' : ℕ)
        → AreStagedTokens p before
        → IsNextSubmission aim_in before after t p q reads reads' faults faults'
        → (IsStaged p u → u ≢ t) → TokenUnchanged u p q }
{}

/// The tokens of a batch stay staged and apart where each of them is kept.
pub fn batches_are_kept<R: Record>()
    ensures { (held : List (WaitRef × R)) (p q : Known)
        → ((u : WaitRef × R) → IsIn u held → TokenUnchanged u.0 p q) → AreStagedTokens p held
        → AreStagedTokens q held }
{}

/// An I/O that its actor stages may be pushed behind what it has staged before, and where there is
/// no room for it the others stay.
pub fn what_is_staged_may_be_pushed<R: Record>()
    ensures pushed { (held : List (WaitRef × R)) (token : WaitRef × R) (aim : List ℕ)
        (p q : Known) → AreStagedTokens p held → IsDefined p token.0
        → EventMade Stage token.0.handle (defined_word token.0.generation)
        (staged_word token.0.generation) aim p q
        → IsStaged q token.0 → AreStagedTokens q (held ++ token ∷ []) }
    ensures others { (held : List (WaitRef × R)) (token : WaitRef × R) (aim : List ℕ)
        (p q : Known) → AreStagedTokens p held → IsDefined p token.0
        → EventMade Stage token.0.handle (defined_word token.0.generation)
        (staged_word token.0.generation) aim p q
        → AreStagedTokens q held }
{}
