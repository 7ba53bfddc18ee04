//! The end of a scan.
ghost use Rattle.std.specs.Prelude.{◌≡◌, ◌+◌, ◌<◌, ◌≤◌, ◌++◌, ◌∷◌, [], map, Some};
ghost use Rattle.std.specs.Prelude.{vec_len, vec_capacity};
ghost use Rattle.std.specs.List.{All};
ghost use Rattle.scan_rounds.specs.Rounds.{results_taken_count};
ghost use Rattle.scan_rounds.specs.Scans.{IsScan, IsFinished, HasDisk, opened_disks};
ghost use Rattle.scan_rounds.specs.Scans.{actor_of, disk_of, scan_disk_actors, known_lists};

use crate::disk_actor::{DiskActor, HasDiskActor};
use crate::scan::Scan;
use crate::shared::SharedState;
use aio_callback::ReadIo;
use aio_disk::Disk;
use aio_handle::{Actor, Totals};
use page_check::World;

// Puts the actor and its disk behind the others.
fn push_parts<W: World, D: Disk>(
    disk_actor: DiskActor<W, D>,
    actors: &mut Vec<Actor<ReadIo, W>>,
    disks: &mut Vec<D>,
)
    requires disk_actor { HasDisk disk_actor }
    requires actors { vec_len actors.old < vec_capacity actors.old }
    requires disks { vec_len disks.old < vec_capacity disks.old }
    ensures actors { actors.new.items ≡ actors.old.items ++ actor_of disk_actor ∷ [] }
    ensures disks { map Some disks.new.items ≡ map Some disks.old.items ++ disk_of disk_actor ∷ [] }
    ensures lengths { (vec_len actors.new ≡ vec_len actors.old + 1)
        × (vec_len disks.new ≡ vec_len disks.old + 1) }
    ensures capacities { (vec_capacity actors.new ≡ vec_capacity actors.old)
        × (vec_capacity disks.new ≡ vec_capacity disks.old) }
{
    let DiskActor { actor, disk } = disk_actor;
    let Some(disk) = disk else { unreachable!() };
    actors.push_reserved(actor);
    disks.push_reserved(disk);
}

// Puts the actors of all of these and their disks behind the others, in their order.
fn push_all_parts<W: World, D: Disk, A: HasDiskActor<W, D>>(
    all: Vec<A>,
    actors: &mut Vec<Actor<ReadIo, W>>,
    disks: &mut Vec<D>,
)
    requires disk_actors { All (λ a. HasDisk (A.disk_actor a)) all.items }
    requires actors { vec_len actors.old + vec_len all ≤ vec_capacity actors.old }
    requires disks { vec_len disks.old + vec_len all ≤ vec_capacity disks.old }
    ensures actors { actors.new.items
        ≡ actors.old.items ++ map actor_of (map A.disk_actor all.items) }
    ensures disks { map Some disks.new.items
        ≡ map Some disks.old.items ++ map disk_of (map A.disk_actor all.items) }
    ensures lengths { (vec_len actors.new ≡ vec_len actors.old + vec_len all)
        × (vec_len disks.new ≡ vec_len disks.old + vec_len all) }
    ensures capacities { (vec_capacity actors.new ≡ vec_capacity actors.old)
        × (vec_capacity disks.new ≡ vec_capacity disks.old) }
{
    for each in all {
        push_parts(each.into_disk_actor(), actors, disks);
    }
}

impl<W: World, D: Disk> Scan<W, D> {
    /// Closes the table. The disks come back in the order in which they were handed in. It takes
    /// no memory.
    pub fn finish(self) -> (Totals, Vec<D>)
        requires scan { IsScan D.Disk W.World self }
        ensures finished { IsFinished D.Disk W.World self.shared.table.config self.unread
            (results_taken_count self.backends.items) (opened_disks self) result.1.items
            (known_lists (scan_disk_actors self)) result.0 }
        ensures disks { map Some result.1.items ≡ map disk_of (scan_disk_actors self) }
    {
        let Scan {
            shared,
            backends,
            workers,
            mut actors,
            mut disks,
            ..
        } = self;
        push_all_parts(backends, &mut actors, &mut disks);
        push_all_parts(workers, &mut actors, &mut disks);
        let SharedState { table, .. } = shared;
        (table.close(actors), disks)
    }
}
