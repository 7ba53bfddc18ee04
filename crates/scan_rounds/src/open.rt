//! Opens a scan.
ghost use Rattle.std.specs.Prelude.{◌≡◌, ◌≤◌, ◌<◌, ◌*◌, ◌^◌, [], length, drop, IfErr, IfOk};
ghost use Rattle.std.specs.Prelude.{slice_get, vec_capacity};
ghost use Rattle.std.specs.List.{All};
ghost use Rattle.std.specs.Vec.Iter.{into_iter_items};
ghost use Rattle.scan_settings.specs.Settings.{AreValidScanSettings};
ghost use Rattle.scan_rounds.specs.OpenedScan.{GivesBackends, GivesWorkers};
ghost use Rattle.scan_rounds.specs.OpenedScan.{IsBackendOf, IsDiskActorOf, IsLeftByBackends};
ghost use Rattle.scan_rounds.specs.OpenedScan.{IsLeftByWorkers, IsOpenedScan, IsScanMemory};
ghost use Rattle.scan_rounds.specs.OpenedScan.{IsWorkerOf};
ghost use Rattle.scan_settings.specs.Settings.{required_disks};

use crate::backend::Backend;
use crate::disk_actor::DiskActor;
use crate::memory::Memory;
use crate::ring::IdleRingState;
use crate::scan::Scan;
use crate::worker::Worker;
use aio_callback::ReadIo;
use aio_disk::Disk;
use aio_handle::Actor;
use method_worker::QueueSeat;
use page_check::World;
use read_stream::Desk;
use scan_settings::{PageText, ScanSettings};
use std::alloc::Global;
use std::snapshot::Snapshot;
use std::vec::IntoIter;

/// The generation at which a handle is handed out no more.
const LAST_GENERATION: u64 = (1 << 58) - 1;

/// What backends and workers are made of, in the order of their numbers.
#[derive(Drop)]
struct Parts<W: World, D: Disk> {
    actors: IntoIter<Actor<ReadIo, W>, Global>,
    disks: IntoIter<D, Global>,
    seats: IntoIter<QueueSeat, Global>,
    rings: IntoIter<IdleRingState<W>, Global>,
    desks: IntoIter<Desk<W, ()>, Global>,
}

// The next of these, where there is one.
fn next_of<T>(items: &mut IntoIter<T, Global>) -> Option<T>
    ensures next { slice_get (into_iter_items items.old) 0 ≡ result }
    ensures left { into_iter_items items.new ≡ drop 1 (into_iter_items items.old) }
{
    items.next()
}

impl<W: World, D: Disk> Parts<W, D> {
    // The next actor with the next disk.
    fn disk_actor(&mut self) -> DiskActor<W, D>
        requires actor { 1 ≤ length (into_iter_items self.old.actors) }
        ensures disk_actor { IsDiskActorOf self.old 0 result }
        ensures actors { into_iter_items self.new.actors
            ≡ drop 1 (into_iter_items self.old.actors) }
        ensures disks { into_iter_items self.new.disks ≡ drop 1 (into_iter_items self.old.disks) }
        ensures others { (self.new.seats ≡ self.old.seats) × (self.new.rings ≡ self.old.rings)
            × (self.new.desks ≡ self.old.desks) }
    {
        let Some(actor) = next_of(&mut self.actors) else {
            unreachable!()
        };
        DiskActor {
            disk: next_of(&mut self.disks),
            actor,
        }
    }

    // The next backend. It has a seat if there is one, and a ring if there is one.
    fn backend(&mut self, page_text: PageText) -> Backend<W, D>
        requires actor { 1 ≤ length (into_iter_items self.old.actors) }
        requires desk { 1 ≤ length (into_iter_items self.old.desks) }
        ensures backend { IsBackendOf page_text self.old 0 result }
        ensures left { IsLeftByBackends 1 self.old self.new }
    {
        let disk_actor = self.disk_actor();
        let Some(desk) = next_of(&mut self.desks) else {
            unreachable!()
        };
        Backend {
            disk_actor,
            desk,
            seat: next_of(&mut self.seats),
            ring: next_of(&mut self.rings),
            page_text,
        }
    }

    // The next worker.
    fn worker(&mut self) -> Worker<W, D>
        requires actor { 1 ≤ length (into_iter_items self.old.actors) }
        requires seat { 1 ≤ length (into_iter_items self.old.seats) }
        ensures worker { IsWorkerOf self.old 0 result }
        ensures left { IsLeftByWorkers 1 self.old self.new }
    {
        let disk_actor = self.disk_actor();
        let Some(seat) = next_of(&mut self.seats) else {
            unreachable!()
        };
        Worker { disk_actor, seat }
    }

    // So many backends, in this list.
    fn backends(
        &mut self,
        count: u32,
        page_text: PageText,
        mut backends: Vec<Backend<W, D>>,
    ) -> Vec<Backend<W, D>>
        requires actors { count ≤ length (into_iter_items self.old.actors) }
        requires desks { count ≤ length (into_iter_items self.old.desks) }
        requires empty { (backends.items ≡ []) × (count ≤ vec_capacity backends) }
        ensures made { GivesBackends page_text self.old self.new result.items }
        ensures count { length result.items ≡ count }
    {
        for _ in 0..count {
            backends.push_reserved(self.backend(page_text));
        }
        backends
    }

    // So many workers, in this list.
    fn workers(&mut self, count: u32, mut workers: Vec<Worker<W, D>>) -> Vec<Worker<W, D>>
        requires actors { count ≤ length (into_iter_items self.old.actors) }
        requires seats { count ≤ length (into_iter_items self.old.seats) }
        requires empty { (workers.items ≡ []) × (count ≤ vec_capacity workers) }
        ensures made { GivesWorkers self.old self.new result.items }
        ensures count { length result.items ≡ count }
    {
        for _ in 0..count {
            workers.push_reserved(self.worker());
        }
        workers
    }
}

// A scan in this memory, over these disks. The handles are at generation `start`.
fn assemble_scan<W: World, D: Disk>(
    alloc: Global,
    settings: &ScanSettings,
    memory: Memory<W, D>,
    disks: Vec<D>,
    start: u64,
) -> Scan<W, D>
    requires settings { AreValidScanSettings settings.now }
    requires start { start < 2 ^ 58 }
    requires memory { IsScanMemory settings.now start memory }
    requires disks { length disks.items ≡ required_disks settings.now }
    requires tell { All (λ d. (D.told d ≡ W.told) × (D.relations d ≡ W.relations)) disks.items }
    ensures { IsOpenedScan D.Disk W.World settings.now start disks.items result }
{
    let opened = Snapshot::of(&disks);
    let lists = memory.lists;
    let mut parts = Parts {
        actors: memory.actors.into_iter(),
        disks: disks.into_iter(),
        seats: memory.seats.into_iter(),
        rings: memory.rings.into_iter(),
        desks: memory.desks.into_iter(),
    };
    let backends = parts.backends(settings.backends, settings.page_text, lists.backends);
    let workers = parts.workers(settings.worker_count(), lists.workers);
    Scan {
        shared: memory.shared,
        backends,
        workers,
        alloc,
        room: LAST_GENERATION - start,
        unread: 0,
        rules: settings.page_rules(),
        page_text: settings.page_text,
        opened,
        actors: lists.actors,
        disks: lists.disks,
    }
}

impl<W: World, D: Disk> Scan<W, D> {
    /// A scan with these settings, over a disk for each backend and then for each worker. It takes
    /// all memory that its rounds ever take, but for the texts of jobs; where there is none, the
    /// disks come back as they are. A run takes memory for its shares when it begins.
    pub fn open(alloc: Global, settings: &ScanSettings, disks: Vec<D>) -> Result<Scan<W, D>, Vec<D>>
        requires settings { AreValidScanSettings settings.now }
        requires disks { length disks.items ≡ required_disks settings.now }
        requires tell { All (λ d. (D.told d ≡ W.told) × (D.relations d ≡ W.relations)) disks.items }
        requires segments { All (λ d. D.segment d ≡ settings.now.segment) disks.items }
        requires handles { settings.now.backends * settings.now.handles ≡ W.handles }
        ensures opened { IfOk result (IsOpenedScan D.Disk W.World settings.now 0 disks.items) }
        ensures disks_returned { IfErr result (λ d. d ≡ disks) }
    {
        Scan::open_at(alloc, settings, disks, 0)
    }

    /// The same, with the generations of the table's handles from `start` on. Each life takes a
    /// handle to its next generation, and at the last one, 2^58 - 1, it is handed out no more.
    pub fn open_at(
        alloc: Global,
        settings: &ScanSettings,
        disks: Vec<D>,
        start: u64,
    ) -> Result<Scan<W, D>, Vec<D>>
        requires settings { AreValidScanSettings settings.now }
        requires disks { length disks.items ≡ required_disks settings.now }
        requires tell { All (λ d. (D.told d ≡ W.told) × (D.relations d ≡ W.relations)) disks.items }
        requires segments { All (λ d. D.segment d ≡ settings.now.segment) disks.items }
        requires handles { settings.now.backends * settings.now.handles ≡ W.handles }
        requires start { start < 2 ^ 58 }
        ensures opened { IfOk result (IsOpenedScan D.Disk W.World settings.now start disks.items) }
        ensures disks_returned { IfErr result (λ d. d ≡ disks) }
    {
        match Memory::open(alloc, settings, start) {
            Ok(memory) => Ok(assemble_scan(alloc, settings, memory, disks, start)),
            Err(_) => Err(disks),
        }
    }
}
