//! The completions of a group.
ghost use Rattle.std.specs.Prelude.{◌≡◌, ◌≢◌, ◌<◌, [], true, Some};
ghost use Rattle.aio_word.specs.declared.WaitRef.{WaitRef};
ghost use Rattle.aio_word.specs.Stands.{IsIn};
ghost use Rattle.aio_word.specs.Tokens.{IsClaimed};
ghost use Rattle.aio_handle.specs.Labels.{bound_label};
ghost use Rattle.aio_handle.specs.UnchangedTokens.{ClaimUnchanged};
ghost use Rattle.aio_handle.specs.ContractViews.{IsActorOf, IsSameActor};
ghost use Rattle.read_callbacks.specs.Chain.{class_of};
ghost use Rattle.aio_callback.specs.ReadIoView.{HasAnswer, record_aim};
ghost use Rattle.method_ring.specs.ClaimedIos.{AllClaimedIos};
ghost use Rattle.method_ring.specs.RingRunner.{ReadCompletedAs, CompletesGroup};

use crate::group::Group;
use crate::ring::Ring;
use aio_callback::{Places, Raw, ReadIo};
use aio_handle::{Actor, Claimed, Table};
use page_check::World;
use std::sync::Wait;

/// Ends a claimed I/O whose read was answered: the callbacks run, and the record goes home.
fn complete<W: World, P: Places<W>, T: Wait>(
    rt: &T,
    table: &Table<ReadIo, W>,
    actor: &mut Actor<ReadIo, W>,
    places: &mut P,
    mut claimed: Claimed<ReadIo, W>,
    raw: Raw,
)
    requires table { IsActorOf table.now actor.old }
    requires token { IsClaimed actor.old.known claimed.0
        × IsIn (claimed.0, record_aim claimed.1) actor.old.known.aims }
    requires label { claimed.1.label ≡ bound_label claimed.0.handle claimed.0.generation }
    requires aimed { (claimed.1.aimed ≡ true) × (claimed.1.relation < W.relations) }
    requires raw { claimed.1.raw ≡ Some raw }
    requires answered { HasAnswer W.told claimed.1 }
    ensures same { IsSameActor actor.old actor.new }
    ensures read_completed { ReadCompletedAs W.told claimed.0 (record_aim claimed.1)
        (class_of claimed.1.count raw)
        actor.old.known actor.new.known (P.finished places.old) (P.finished places.new) }
    ensures other_claims_unchanged { (t : WaitRef) → t ≢ claimed.0
        → ClaimUnchanged t actor.old.known actor.new.known }
{
    aio_handle::laws::events_keep_other_claims();
    let count = claimed.record().count();
    table.complete_io(actor, &mut claimed, raw.class(count));
    claimed.record_mut().complete_shared::<W, P, T>(rt, places);
    table.complete_shared(actor, claimed);
}

/// Completes each I/O of a group, where the ring picks it.
pub(crate) fn finish<W: World, G: Ring, P: Places<W>, T: Wait>(
    rt: &T,
    table: &Table<ReadIo, W>,
    actor: &mut Actor<ReadIo, W>,
    places: &mut P,
    group: &mut Group<G, W>,
)
    requires table { IsActorOf table.now actor.old }
    requires told { (G.told group.old.ring ≡ W.told)
        × (G.relations group.old.ring ≡ W.relations) }
    requires all_claimed { AllClaimedIos W.World actor.old.known group.old.claimed_ios }
    ensures empty { group.new.claimed_ios ≡ [] }
    ensures pending { G.pending group.new.ring ≡ [] }
    ensures same { IsSameActor actor.old actor.new }
    ensures told { (G.told group.new.ring ≡ G.told group.old.ring)
        × (G.relations group.new.ring ≡ G.relations group.old.ring) }
    ensures finishes { CompletesGroup W.told group.old.claimed_ios [] actor.old.known
        actor.new.known
        (P.finished places.old) (P.finished places.new) (G.reads group.old.ring)
        (G.reads group.new.ring) (G.faults group.old.ring) (G.faults group.new.ring) }
{
    while let Some((claimed, raw)) = group.next() {
        complete(rt, table, actor, places, claimed, raw);
    }
}
