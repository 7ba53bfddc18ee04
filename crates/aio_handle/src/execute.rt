//! Who executes claimed I/O.
ghost use Rattle.std.specs.Prelude.{◌≡◌, ◌≢◌, ◌∷◌, [], ℕ, Option, None, IfSome};
ghost use Rattle.page_check.specs.Told.{Told};
ghost use Rattle.aio_word.specs.declared.Kind.TheVariants as kind;
ghost use Rattle.aio_word.specs.Stands.{IsIn};
ghost use Rattle.aio_word.specs.Tokens.{IsClaimed, make_mark};
ghost use Rattle.aio_handle.specs.Labels.{bound_label};
ghost use Rattle.aio_handle.specs.ContractViews.{IsActorOf, IsSameActor};
ghost use Rattle.aio_handle.specs.Execution.{ExecutesAll};

use crate::actor::Actor;
use crate::record::Record;
use crate::table::Table;
use crate::tokens::Claimed;
use page_check::World;
use std::sync::Wait;

/// Executes claimed I/Os (`pgaio_io_perform_synchronously` and the I/O workers of PostgreSQL).
///
/// Its meanings are those of the disk that it reads: what the disk tells, how many relations it
/// has, and how often a read was made and how often one failed. A count that has come to its last
/// value stands still there.
pub trait Execute<R: Record, W: World> {
    ghost relations: { Self → ℕ };

    ghost told: { Self → Option Told };

    ghost faults: { Self → ℕ };

    ghost reads: { Self → ℕ };

    /// What an executor writes: it takes the token out and ends it. Callers call `execute`.
    fn run<T: Wait>(
        &mut self,
        rt: &T,
        table: &Table<R, W>,
        actor: &mut Actor<R, W>,
        claimed: &mut Option<Claimed<R, W>>,
    )
        requires table { IsActorOf table.now actor.old }
        requires told { (told self.old ≡ W.told) × (relations self.old ≡ W.relations) }
        requires given { claimed.old ≢ None }
        requires token { IfSome claimed.old
            (λ t. IsClaimed actor.old.known t.0 × IsIn (t.0, R.aim t.1) actor.old.known.aims) }
        requires record { IfSome claimed.old
            (λ t. (R.label t.1 ≡ bound_label t.0.handle t.0.generation)
            × R.fits W.told W.relations t.1) }
        ensures taken { claimed.new ≡ None }
        ensures same { IsSameActor actor.old actor.new }
        ensures told { (told self.new ≡ told self.old) × (relations self.new ≡ relations self.old) }
        ensures marks { IfSome claimed.old
            (λ t. ExecutesAll (make_mark t.0 kind.Claimed ∷ []) actor.old.known actor.new.known
            (reads self.old) (reads self.new) (faults self.old) (faults self.new)) };

    /// Ends the claimed incarnation: on return its Io and Shared marks stand in the actor's list.
    /// It may take up further incarnations, of which it appends all three marks, and appends no
    /// other mark and hands out no handle.
    final fn execute<T: Wait>(
        &mut self,
        rt: &T,
        table: &Table<R, W>,
        actor: &mut Actor<R, W>,
        claimed: Claimed<R, W>,
    )
        requires table { IsActorOf table.now actor.old }
        requires told { (told self.old ≡ W.told) × (relations self.old ≡ W.relations) }
        requires token { IsClaimed actor.old.known claimed.0
            × IsIn (claimed.0, R.aim claimed.1) actor.old.known.aims }
        requires record { (R.label claimed.1 ≡ bound_label claimed.0.handle claimed.0.generation)
            × R.fits W.told W.relations claimed.1 }
        ensures same { IsSameActor actor.old actor.new }
        ensures told { (told self.new ≡ told self.old) × (relations self.new ≡ relations self.old) }
        ensures marks { ExecutesAll
            (make_mark claimed.0 kind.Claimed ∷ []) actor.old.known actor.new.known (reads self.old)
            (reads self.new) (faults self.old) (faults self.new) }
    {
        let mut claimed = Some(claimed);
        self.run(rt, table, actor, &mut claimed);
    }
}
