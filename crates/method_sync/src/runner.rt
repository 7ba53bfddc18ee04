//! Who executes an I/O by one read of a disk.
ghost use Rattle.std.specs.Prelude.{◌≡◌, ◌≢◌, ◌∷◌, [], None, IfSome};
ghost use Rattle.aio_disk.specs.Counts.{count_plus};
ghost use Rattle.aio_word.specs.declared.Kind.TheVariants as kind;
ghost use Rattle.aio_word.specs.Stands.{IsIn};
ghost use Rattle.aio_word.specs.Tokens.{IsClaimed, make_mark};
ghost use Rattle.aio_handle.specs.Labels.{bound_label};
ghost use Rattle.aio_handle.specs.ContractViews.{IsActorOf, IsSameActor};
ghost use Rattle.aio_handle.specs.Execution.{ExecutesAll};
ghost use Rattle.aio_callback.specs.ReadIoView.{record_aim, ReadFits};
ghost use Rattle.method_sync.specs.Executed.{IsExecutedAs};

use aio_callback::{Places, Raw, ReadIo};
use aio_disk::Disk;
use aio_handle::{Actor, Claimed, Execute, Table};
use page_check::World;
use std::sync::Wait;

/// An executor of reads (`pgaio_io_perform_synchronously`): a disk, and where the pages go.
///
/// Its counts are the disk's. It executes what it is handed and takes up nothing else.
#[derive(Drop)]
pub struct Runner<D, P> {
    pub disk: D,
    pub places: P,
}

impl<W: World, D: Disk, P: Places<W>> Execute<ReadIo, W> for Runner<D, P> {
    ghost relations = { λ r. D.relations r.disk };

    ghost told = { λ r. D.told r.disk };

    ghost faults = { λ r. D.faults r.disk };

    ghost reads = { λ r. D.reads r.disk };

    /// Makes one read of the disk, tells the places each block, and sends the record home.
    fn run<T: Wait>(
        &mut self,
        rt: &T,
        table: &Table<ReadIo, W>,
        actor: &mut Actor<ReadIo, W>,
        claimed: &mut Option<Claimed<ReadIo, W>>,
    )
        requires table { IsActorOf table.now actor.old }
        requires told { (D.told self.old.disk ≡ W.told)
            × (D.relations self.old.disk ≡ W.relations) }
        requires given { claimed.old ≢ None }
        requires token { IfSome claimed.old
            (λ t. IsClaimed actor.old.known t.0 × IsIn (t.0, record_aim t.1) actor.old.known.aims) }
        requires record { IfSome claimed.old
            (λ t. (t.1.label ≡ bound_label t.0.handle t.0.generation)
            × ReadFits W.told W.relations t.1) }
        ensures taken { claimed.new ≡ None }
        ensures same { IsSameActor actor.old actor.new }
        ensures told { (D.told self.new.disk ≡ D.told self.old.disk)
            × (D.relations self.new.disk ≡ D.relations self.old.disk) }
        ensures reads { D.reads self.new.disk ≡ count_plus 1 (D.reads self.old.disk) }
        ensures marks { IfSome claimed.old
            (λ t. ExecutesAll (make_mark t.0 kind.Claimed ∷ []) actor.old.known actor.new.known
            (D.reads self.old.disk) (D.reads self.new.disk) (D.faults self.old.disk)
            (D.faults self.new.disk)) }
        ensures executed { IfSome claimed.old
            (λ t. IsExecutedAs W.told t.0 (record_aim t.1) actor.old.known actor.new.known
            (P.finished self.old.places) (P.finished self.new.places) (D.faults self.old.disk)
            (D.faults self.new.disk)) }
    {
        let Some(mut claimed) = claimed.take() else {
            unreachable!()
        };
        let relation = claimed.record().relation();
        let first = claimed.record().first();
        let count = claimed.record().count();
        let pages = claimed.record_mut().pages_mut();
        let raw = match self.disk.read(relation, first, pages) {
            Ok(read) => Raw::Read(read),
            Err(_) => Raw::Failed,
        };
        claimed.record_mut().answer(raw);
        table.complete_io(actor, &mut claimed, raw.class(count));
        claimed
            .record_mut()
            .complete_shared::<W, P, T>(rt, &mut self.places);
        table.complete_shared(actor, claimed);
    }
}
