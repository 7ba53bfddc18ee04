//! Laws on the lists of a table's actors, each the contract of a function that does nothing: what
//! was executed, that a claim has one winner, what an actor that holds several tokens keeps of those
//! that it does not use, and that a backend with room is served.
ghost use Rattle.std.specs.Prelude.{◌≡◌, ◌≢◌, ℕ, ◌+◌, ◌<◌, ◌≤◌, List, sum_by};
ghost use Rattle.aio_word.specs.declared.Config.{Config};
ghost use Rattle.aio_word.specs.declared.Class.{Class};
ghost use Rattle.aio_word.specs.declared.Kind.{Kind};
ghost use Rattle.aio_word.specs.declared.Kind.TheVariants as kind;
ghost use Rattle.aio_word.specs.declared.Known.{Known};
ghost use Rattle.aio_word.specs.declared.Mark.{Mark};
ghost use Rattle.aio_word.specs.declared.Step.{Step as Event};
ghost use Rattle.aio_word.specs.declared.Step.TheVariants.{Define, Claim};
ghost use Rattle.aio_word.specs.declared.WaitRef.{WaitRef};
ghost use Rattle.aio_word.specs.declared.Word.{Word};
ghost use Rattle.aio_word.specs.Events.{make_mark, wait_ref, lives_ended, mark_count, owner};
ghost use Rattle.aio_word.specs.Stands.{IsIn, Stands, seen_rank};
ghost use Rattle.aio_word.specs.Tokens.{MarksOnceAndSeen, IsClaimed, io_mark_count};
ghost use Rattle.aio_word.specs.Tokens.{claimed_mark_count};
ghost use Rattle.aio_word.specs.Tokens.{failed_mark_count, failed_result_count};
ghost use Rattle.aio_handle.specs.declared.actor.AcquireRefusal.{AcquireRefusal};
ghost use Rattle.aio_handle.specs.EndStates.{EndState, IsExecutedIn, HasNoOwnerTokens};
ghost use Rattle.aio_handle.specs.Execution.{ExecutesAll};
ghost use Rattle.aio_handle.specs.FreeHandles.{IsRoom, IsCause};
ghost use Rattle.aio_handle.specs.UnchangedTokens.{TokenUnchanged, ClaimUnchanged, UsesToken};
ghost use Rattle.aio_handle.specs.LifeWords.{handed_out_word, defined_word, unclaimed_word};
ghost use Rattle.aio_handle.specs.LifeWords.{claimed_word};
ghost use Rattle.aio_handle.specs.CallEvents.{EventMade, WordLoaded, IsByOwner};
ghost use Rattle.aio_handle.specs.ActorPairs.{StandTogether};

/// Once no token is out, each actor has executed as many I/Os as it has claimed.
pub fn each_claim_was_executed()
    ensures { (c : Config) (parts : List Known) → EndState c parts → (p : Known) → IsIn p parts
        → io_mark_count p.marks ≡ claimed_mark_count p.marks }
{}

/// At every moment, an I/O whose result was taken was executed by one actor, and ended with the
/// class of the Local mark: a failed result has a failed execution.
pub fn each_result_was_executed()
    ensures { (c : Config) (words : List Word) (parts : List Known) → Stands c words parts
        → (p : Known) → IsIn p parts → (t : WaitRef) (class : Class)
        → IsIn (make_mark t (kind.Local class)) p.marks → IsExecutedIn parts t class }
{}

/// Of two actors of one table, at most one has won a claim of an incarnation; and so with every mark
/// of a life. `Table::stand_together` gives the condition.
pub fn one_claim_has_one_winner()
    ensures won { (c : Config) (p q : Known) (t : WaitRef) → StandTogether c p q
        → IsClaimed p t → IsClaimed q t → ⊥ }
    ensures each { (c : Config) (p q : Known) (t : WaitRef) (k : Kind) → StandTogether c p q
        → 0 < mark_count t k p.marks → mark_count t k q.marks ≡ 0 }
{}

/// What one actor has claimed its owner has submitted. `Table::stand_together` gives the condition.
pub fn what_is_claimed_was_submitted()
    ensures { (c : Config) (p q : Known) (t : WaitRef) → StandTogether c p q
        → q.number ≡ owner c t.handle → 0 < mark_count t kind.Claimed p.marks
        → 0 < mark_count t kind.Submitted q.marks }
{}

/// Whatever the actor executes by an executor or a method, each of its tokens stays.
pub fn execution_keeps_tokens()
    ensures { (t : WaitRef) (held : List Mark) (p q : Known) (reads reads' faults faults' : ℕ)
        → ExecutesAll held p q reads reads' faults faults' → TokenUnchanged t p q }
{}

/// A look keeps each token.
pub fn look_keeps_tokens()
    ensures { (t : WaitRef) (h : ℕ) (w : Word) (p q : Known) → WordLoaded h w p q
        → TokenUnchanged t p q }
{}

/// An event keeps the tokens of other incarnations, and one that uses no token keeps each.
pub fn events_keep_other_tokens()
    ensures elsewhere { (t : WaitRef) (e : Event) (h : ℕ) (w after : Word) (aim : List ℕ)
        (p q : Known) → EventMade e h w after aim p q → t ≢ wait_ref h w.generation
        → TokenUnchanged t p q }
    ensures unused { (t : WaitRef) (e : Event) (h : ℕ) (w after : Word) (aim : List ℕ)
        (p q : Known) → EventMade e h w after aim p q → (UsesToken e → ⊥) → TokenUnchanged t p q }
{}

/// What is defined is a new incarnation: each token stays. `Actor::has_seen_its_marks` gives the
/// condition.
pub fn define_keeps_tokens()
    ensures { (t : WaitRef) (h g : ℕ) (aim : List ℕ) (p q : Known)
        → MarksOnceAndSeen (seen_rank p) p.marks
        → EventMade Define h (handed_out_word g) (defined_word g) aim p q → TokenUnchanged t p q }
{}

/// A look keeps each I/O that the actor has claimed.
pub fn look_keeps_claims()
    ensures { (t : WaitRef) (h : ℕ) (w : Word) (p q : Known) → WordLoaded h w p q
        → ClaimUnchanged t p q }
{}

/// An event keeps the claimed I/Os of other incarnations, and an owner's event keeps each.
pub fn events_keep_other_claims()
    ensures elsewhere { (t : WaitRef) (e : Event) (h : ℕ) (w after : Word) (aim : List ℕ)
        (p q : Known) → EventMade e h w after aim p q → t ≢ wait_ref h w.generation
        → ClaimUnchanged t p q }
    ensures owners { (t : WaitRef) (e : Event) (h : ℕ) (w after : Word) (aim : List ℕ)
        (p q : Known) → EventMade e h w after aim p q → IsByOwner e → ClaimUnchanged t p q }
{}

/// What is claimed was not claimed by this actor before: each of its claimed I/Os is another one,
/// and stays. `Actor::has_seen_its_marks` gives the condition.
pub fn claim_keeps_claims()
    ensures claims_stay { (t : WaitRef) (h g : ℕ) (aim : List ℕ) (p q : Known)
        → MarksOnceAndSeen (seen_rank p) p.marks
        → EventMade Claim h (unclaimed_word g) (claimed_word g) aim p q → ClaimUnchanged t p q }
    ensures other { (t : WaitRef) (h g : ℕ) (aim : List ℕ) (p q : Known)
        → MarksOnceAndSeen (seen_rank p) p.marks → EventMade Claim h (unclaimed_word g)
        (claimed_word g) aim p q
        → IsClaimed p t → t ≢ wait_ref h g }
{}

/// At every moment, at most as many results of failed I/Os were taken as executions failed: each
/// failed result has a failed execution of its own.
pub fn failed_results_are_failed_executions()
    ensures { (c : Config) (words : List Word) (parts : List Known) → Stands c words parts
        → sum_by (λ (p : Known). failed_result_count p.marks) parts
        ≤ sum_by (λ (p : Known). failed_mark_count p.marks) parts }
{}

/// A backend at rest is never refused a handle where fewer lives of each handle have ended since
/// than it then had room for. `Actor::room` gives the room; with none ended since, it is the room
/// that it has.
pub fn a_backend_at_rest_with_room_is_served()
    ensures { (c : Config) (p q : Known) (room ended : ℕ) (why : AcquireRefusal)
        → p.number < c.backends → IsRoom c p room → ended < room → q.number ≡ p.number
        → ((h : ℕ) → lives_ended h q.marks ≤ lives_ended h p.marks + ended) → HasNoOwnerTokens q
        → IsCause c q why → ⊥ }
{}
