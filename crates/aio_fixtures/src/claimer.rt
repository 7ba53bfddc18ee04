//! The calls of an I/O's claimer.
ghost use Rattle.std.specs.Prelude.{◌≡◌, ◌≢◌, ◌<◌, [], ◌∷◌, IsTrue, IsFalse, List, IfSome};
ghost use Rattle.aio_word.specs.declared.Class.TheVariants.{Unended};
ghost use Rattle.aio_word.specs.declared.Kind.TheVariants as kind;
ghost use Rattle.aio_word.specs.declared.WaitRef.{WaitRef};
ghost use Rattle.aio_word.specs.declared.Word.{Word};
ghost use Rattle.aio_word.specs.Stands.{IsIn};
ghost use Rattle.aio_word.specs.Tokens.{AppendsMarks, IsClaimed, make_mark};
ghost use Rattle.aio_handle.specs.EndStates.{HasNoOwnerTokens};
ghost use Rattle.aio_handle.specs.UnchangedTokens.{TokenUnchanged};
ghost use Rattle.aio_handle.specs.Labels.{bound_label};
ghost use Rattle.aio_handle.specs.LifeWords.{unclaimed_word};
ghost use Rattle.aio_handle.specs.CallEvents.{WordLoaded};
ghost use Rattle.aio_handle.specs.ContractViews.{IsActorOf, IsSameActor};
ghost use Rattle.aio_fixtures.specs.Actors.{HasClaimed};
ghost use Rattle.aio_fixtures.specs.Lives.{HasUnreclaimed, KeepsLives};

use crate::empty_io::EmptyIo;
use aio_handle::{Actor, Claimed, Table};
use aio_word::{Class, WaitRef};
use page_check::World;

/// Claims an I/O that nobody has claimed.
pub fn claim_io<W: World>(
    table: &Table<EmptyIo, W>,
    actor: &mut Actor<EmptyIo, W>,
    reference: WaitRef,
) -> Option<Claimed<EmptyIo, W>>
    requires table { IsActorOf table.now actor.old }
    requires range { reference.handle < W.handles }
    ensures { IfSome result (λ t. HasClaimed table.now actor.new t.0 t.1.label) }
{
    match table.claim(actor, reference) {
        Some(claimed) => Some(claimed),
        None => None,
    }
}

/// Completes a claimed I/O with this class.
pub fn complete_as<W: World>(
    table: &Table<EmptyIo, W>,
    actor: &mut Actor<EmptyIo, W>,
    mut claimed: Claimed<EmptyIo, W>,
    class: Class,
)
    requires table { IsActorOf table.now actor.old }
    requires token { IsClaimed actor.old.known claimed.0
        × IsIn (claimed.0, []) actor.old.known.aims }
    requires record { claimed.1.label ≡ bound_label claimed.0.handle claimed.0.generation }
    requires class { class ≢ Unended }
    ensures same { IsSameActor actor.old actor.new }
    ensures marks { AppendsMarks actor.old.known actor.new.known
        (make_mark claimed.0 (kind.Io class) ∷ make_mark claimed.0 kind.Shared ∷ []) }
    ensures lives { KeepsLives actor.old.known actor.new.known }
{
    claimed.record_mut().label.ended = class;
    table.complete_io(actor, &mut claimed, class);
    table.complete_shared(actor, claimed);
}

/// Claims an I/O and completes it with this class, where nobody has claimed it before. The answer
/// is whether it did.
pub fn claim_and_complete<W: World>(
    table: &Table<EmptyIo, W>,
    actor: &mut Actor<EmptyIo, W>,
    reference: WaitRef,
    class: Class,
) -> bool
    requires table { IsActorOf table.now actor.old }
    requires range { reference.handle < W.handles }
    requires class { class ≢ Unended }
    ensures same { IsSameActor actor.old actor.new }
    ensures marks { IsTrue result → AppendsMarks actor.old.known actor.new.known
        (make_mark reference kind.Claimed ∷ make_mark reference (kind.Io class)
        ∷ make_mark reference kind.Shared ∷ []) }
    ensures tokens_unchanged { (u : WaitRef) → TokenUnchanged u actor.old.known actor.new.known }
    ensures unreclaimed { (ts : List WaitRef) → HasUnreclaimed ts actor.old.known
        → HasUnreclaimed ts actor.new.known }
    ensures no_owner_tokens { HasNoOwnerTokens actor.old.known → HasNoOwnerTokens actor.new.known }
    ensures lost { IsFalse result → ((w : Word)
        × WordLoaded reference.handle w actor.old.known actor.new.known
        × (w ≢ unclaimed_word reference.generation)) }
{
    let Some(claimed) = table.claim(actor, reference) else {
        return false;
    };
    complete_as(table, actor, claimed, class);
    true
}
