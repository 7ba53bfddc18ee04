//! What follows from the machine and from what its lists say, for every event and every state. The
//! functions do nothing: each is there for its contract.

ghost use Rattle.std.specs.Prelude.{◌≡◌, ◌<◌, ◌≤◌, ◌+◌, ◌^◌, ◌↔◌, ℕ, List, Some, None, slice_get};
ghost use Rattle.aio_word.specs.declared.Config.{Config};
ghost use Rattle.aio_word.specs.declared.Event.{Event};
ghost use Rattle.aio_word.specs.declared.Kind.{Kind};
ghost use Rattle.aio_word.specs.declared.Kind.TheVariants as kind;
ghost use Rattle.aio_word.specs.declared.Known.{Known};
ghost use Rattle.aio_word.specs.declared.State.TheVariants.{Idle};
ghost use Rattle.aio_word.specs.declared.Step.{Step};
ghost use Rattle.aio_word.specs.declared.WaitRef.{WaitRef};
ghost use Rattle.aio_word.specs.declared.Word.{Word};
ghost use Rattle.aio_word.specs.Words.{IsDone, IsLawful, last_generation, word_place, word_rank};
ghost use Rattle.aio_word.specs.Events.{Machine, IsReachable, machine_after, kind_place, wait_ref};
ghost use Rattle.aio_word.specs.Events.{any_local, kind_of_step};
ghost use Rattle.aio_word.specs.Events.{word_after};
ghost use Rattle.aio_word.specs.Stands.{IsLawfulMachine, Stands, mark_total};
ghost use Rattle.aio_word.specs.StandsByRank.{StandsByRank};
ghost use Rattle.aio_word.specs.Totals.{incarnations, by_backends, by_runners};

/// Every event that the machine allows keeps what the lists say of the words, from every state in
/// which they say it.
pub fn step_keeps_stands()
    ensures { (c : Config) (before after : Machine) (e : Event)
        → IsLawfulMachine c before → machine_after c before e ≡ Some after
        → IsLawfulMachine c after }
{}

/// The first machine's lists stand for its words, and so do those of each machine that comes from
/// it by allowed events, whatever they are.
pub fn every_reached_machine_stands()
    ensures { (c : Config) (m : Machine) → c.start < 2 ^ 58 → IsReachable c m
        → IsLawfulMachine c m }
{}

/// A step that leaves a mark leaves the next one of the life, and raises the pair of generation and
/// place to the one that follows; hand out and release keep the pair.
pub fn each_mark_is_the_next_one()
    ensures marked { (w after : Word) (s : Step) (k : Kind) → IsLawful w
        → (w.generation ≡ last_generation → w.state ≡ Idle)
        → word_after w s ≡ Some after → kind_of_step w.class s ≡ Some k
        → (kind_place k ≡ word_place w) × (word_rank after ≡ word_rank w + 1) }
    ensures unmarked { (w after : Word) (s : Step) → IsLawful w
        → (w.generation ≡ last_generation → w.state ≡ Idle)
        → word_after w s ≡ Some after → kind_of_step w.class s ≡ None
        → word_rank after ≡ word_rank w }
{}

/// Each generation that is over has each of the eight marks of a life exactly once over all lists.
pub fn over_has_each_mark_once()
    ensures { (c : Config) (words : List Word) (parts : List Known) (h g : ℕ) (w : Word) (k : Kind)
        → Stands c words parts → slice_get words h ≡ Some w → c.start ≤ g → g < w.generation
        → mark_total (wait_ref h g) k parts ≡ 1 }
{}

/// No incarnation has a mark twice, over all lists; so none is claimed twice.
pub fn claimed_once()
    ensures claimed { (c : Config) (words : List Word) (parts : List Known) (t : WaitRef)
        → Stands c words parts → mark_total t kind.Claimed parts ≤ 1 }
    ensures each { (c : Config) (words : List Word) (parts : List Known) (t : WaitRef) (k : Kind)
        → Stands c words parts → mark_total t k parts ≤ 1 }
{}

/// An incarnation that is taken by its owner was completed shared before, and each once. So with
/// all marks: where a later one of a life stands, each earlier one does.
pub fn shared_then_taken()
    ensures once { (c : Config) (words : List Word) (parts : List Known) (t : WaitRef)
        → Stands c words parts → 0 < mark_total t any_local parts
        → (mark_total t kind.Shared parts ≡ 1) × (mark_total t any_local parts ≡ 1) }
    ensures earlier { (c : Config) (words : List Word) (parts : List Known)
        (t : WaitRef) (earlier later : Kind)
        → Stands c words parts → kind_place earlier ≤ kind_place later
        → mark_total t later parts ≤ mark_total t earlier parts }
{}

/// An incarnation has a mark only if every earlier one of its handle, from the first generation on,
/// was reclaimed.
pub fn reclaimed_before_the_next()
    ensures { (c : Config) (words : List Word) (parts : List Known) (h g next : ℕ) (k : Kind)
        → Stands c words parts → c.start ≤ g → g < next → 0 < mark_total (wait_ref h next) k parts
        → mark_total (wait_ref h g) kind.Reclaimed parts ≡ 1 }
{}

/// A generation, from the first one on, is done exactly where the Shared mark of that very
/// incarnation stands.
pub fn done_where_shared()
    ensures { (c : Config) (words : List Word) (parts : List Known) (h g : ℕ) (w : Word)
        → Stands c words parts → slice_get words h ≡ Some w → c.start ≤ g
        → IsDone w g ↔ (mark_total (wait_ref h g) kind.Shared parts ≡ 1) }
{}

/// The pair of generation and place, and the one number that the proofs use for it, say the same.
pub fn pairs_and_ranks_agree()
    ensures { (c : Config) (words : List Word) (parts : List Known)
        → Stands c words parts ↔ StandsByRank c words parts }
{}

/// Where no incarnation has begun that is not over, as many were claimed, by backends and runners
/// together, as are over.
pub fn totals_agree()
    ensures { (c : Config) (words : List Word) (parts : List Known)
        → Stands c words parts
        → ((h : ℕ) (w : Word) → slice_get words h ≡ Some w → word_place w ≡ 0)
        → incarnations c words ≡ by_backends c parts + by_runners c parts }
{}
