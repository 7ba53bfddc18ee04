//! The memory that a scan takes when it is opened.
ghost use Rattle.std.specs.Prelude.{◌≡◌, ◌≤◌, ◌<◌, ◌+◌, ◌*◌, ◌^◌, length, IfOk, OnOk};
ghost use Rattle.std.specs.List.{All};
ghost use Rattle.aio_handle.specs.ContractViews.{AreNewActors};
ghost use Rattle.method_worker.specs.QueueViews.{QueueView, IsSeatOf};
ghost use Rattle.scan_settings.specs.Settings.{AreValidScanSettings};
ghost use Rattle.scan_rounds.specs.OpenedScan.{AreStreamSettings};
ghost use Rattle.scan_rounds.specs.OpenedScan.{HasEmptyLists, IsDeskFor, IsScanMemory, config_of};
ghost use Rattle.scan_settings.specs.Settings.{rings_of_settings, seats_of_settings};
ghost use Rattle.scan_settings.specs.Settings.{workers_of_settings};
ghost use Rattle.scan_rounds.specs.Rings.{IsRingOf};

use crate::backend::Backend;
use crate::ring::IdleRingState;
use crate::shared::SharedState;
use crate::worker::Worker;
use aio_callback::ReadIo;
use aio_disk::Disk;
use aio_handle::{Actor, Table};
use buf_pool::Pool;
use method_worker::{QueueSeat, SubmitQueue};
use page_check::World;
use read_stream::{Desk, Settings};
use scan_settings::ScanSettings;
use std::alloc::{AllocError, Global};

/// The lists of a scan, all empty.
#[derive(Drop)]
pub(crate) struct Lists<W: World, D: Disk> {
    pub(crate) backends: Vec<Backend<W, D>>,
    pub(crate) workers: Vec<Worker<W, D>>,
    // For the end of the scan.
    pub(crate) actors: Vec<Actor<ReadIo, W>>,
    pub(crate) disks: Vec<D>,
}

/// All memory that a scan takes when it is opened, before it has the disks.
#[derive(Drop)]
pub(crate) struct Memory<W: World, D: Disk> {
    pub(crate) shared: SharedState<W>,
    // Those of the backends, and then those of the workers.
    pub(crate) actors: Vec<Actor<ReadIo, W>>,
    // None with `MethodKind::Sync`.
    pub(crate) seats: Vec<QueueSeat>,
    // One for each backend with `MethodKind::Ring`.
    pub(crate) rings: Vec<IdleRingState<W>>,
    pub(crate) desks: Vec<Desk<W, ()>>,
    pub(crate) lists: Lists<W, D>,
}

// How the streams of a scan read. The frames of the pool are shared out to the backends.
fn stream_settings(settings: &ScanSettings) -> Settings
    requires { AreValidScanSettings settings.now }
    ensures { AreStreamSettings settings.now result }
{
    let ios = settings.concurrency.min(settings.handles);
    let share = settings.buffers / settings.backends;
    Settings {
        combine: settings.combine,
        ios,
        limit: share.min(ios * settings.combine).max(1),
        full: settings.full,
        batch: settings.batch,
        segment: settings.segment,
        rules: settings.page_rules(),
    }
}

// A queue with this many seats. It has one at least, which is dropped where none is wanted.
fn open_queue<W: World>(
    alloc: Global,
    count: u32,
) -> Result<(SubmitQueue<W>, Vec<QueueSeat>), AllocError>
    requires { count ≤ 48 }
    ensures count { IfOk result (λ q. length q.1.items ≡ count) }
    ensures seats { IfOk result (λ q. All (IsSeatOf q.0) q.1.items) }
{
    let (queue, mut seats) = SubmitQueue::open(alloc, count.max(1))?;
    seats.truncate(count as usize);
    Ok((queue, seats))
}

// A desk for each backend.
fn open_desks<W: World>(
    alloc: Global,
    settings: &ScanSettings,
) -> Result<Vec<Desk<W, ()>>, AllocError>
    requires { AreValidScanSettings settings.now }
    ensures count { IfOk result (λ d. length d.items ≡ settings.now.backends) }
    ensures desks { IfOk result (λ d. All (IsDeskFor settings.now) d.items) }
{
    let streams = stream_settings(settings);
    let mut desks = Vec::with_capacity(alloc, settings.backends as usize)?;
    for _ in 0..settings.backends {
        desks.push_reserved(Desk::open(alloc, &streams)?);
    }
    Ok(desks)
}

// So many rings, which take their seats from the end of the list.
fn open_rings<W: World>(
    alloc: Global,
    count: u32,
    seats: &mut Vec<QueueSeat>,
) -> Result<Vec<IdleRingState<W>>, AllocError>
    requires { count ≤ length seats.old.items }
    ensures count { IfOk result (λ r. length r.items ≡ count) }
    ensures left { OnOk result (length seats.new.items + count ≡ length seats.old.items) }
    ensures seats { (q : QueueView) → All (IsSeatOf q) seats.old.items
        → All (IsSeatOf q) seats.new.items }
    ensures rings { (q : QueueView) → All (IsSeatOf q) seats.old.items
        → IfOk result (λ r. All (IsRingOf q) r.items) }
{
    let mut rings = Vec::with_capacity(alloc, count as usize)?;
    for _ in 0..count {
        let Some(seat) = seats.pop() else {
            unreachable!()
        };
        rings.push_reserved(IdleRingState::open(alloc, seat)?);
    }
    Ok(rings)
}

// The table with its actors, the pool, and the queue with all its seats.
fn open_shared<W: World>(
    alloc: Global,
    settings: &ScanSettings,
    start: u64,
) -> Result<(SharedState<W>, Vec<Actor<ReadIo, W>>, Vec<QueueSeat>), AllocError>
    requires settings { AreValidScanSettings settings.now }
    requires handles { settings.now.backends * settings.now.handles ≡ W.handles }
    requires start { start < 2 ^ 58 }
    ensures config { IfOk result (λ c. c.0.table.config ≡ config_of settings.now start) }
    ensures actors { IfOk result (λ c. AreNewActors c.0.table 0 c.1.items
        × (length c.1.items ≡ settings.now.backends + workers_of_settings settings.now)) }
    ensures seats { IfOk result (λ c. All (IsSeatOf c.0.queue) c.2.items
        × (length c.2.items ≡ seats_of_settings settings.now + rings_of_settings settings.now)) }
    ensures frames { IfOk result (λ c. c.0.pool ≡ settings.now.buffers) }
{
    let workers = settings.worker_count();
    let seats = settings.seat_count() + settings.ring_count();
    let (table, actors) = Table::open(alloc, settings.backends, settings.handles, workers, start)?;
    let (queue, seats) = open_queue(alloc, seats)?;
    let pool = Pool::open(alloc, settings.buffers)?;
    Ok((SharedState { table, pool, queue }, actors, seats))
}

impl<W: World, D: Disk> Lists<W, D> {
    fn open(alloc: Global, backends: u32, workers: u32) -> Result<Lists<W, D>, AllocError>
        requires { backends + workers < 2 ^ 32 }
        ensures { IfOk result (HasEmptyLists backends workers) }
    {
        let all = (backends + workers) as usize;
        Ok(Lists {
            backends: Vec::with_capacity(alloc, backends as usize)?,
            workers: Vec::with_capacity(alloc, workers as usize)?,
            actors: Vec::with_capacity(alloc, all)?,
            disks: Vec::with_capacity(alloc, all)?,
        })
    }
}

impl<W: World, D: Disk> Memory<W, D> {
    /// The memory of a scan with these settings, whose handles begin at this generation.
    pub(crate) fn open(
        alloc: Global,
        settings: &ScanSettings,
        start: u64,
    ) -> Result<Memory<W, D>, AllocError>
        requires settings { AreValidScanSettings settings.now }
        requires handles { settings.now.backends * settings.now.handles ≡ W.handles }
        requires start { start < 2 ^ 58 }
        ensures { IfOk result (IsScanMemory settings.now start) }
    {
        let (shared, actors, mut seats) = open_shared(alloc, settings, start)?;
        let rings = open_rings(alloc, settings.ring_count(), &mut seats)?;
        Ok(Memory {
            shared,
            actors,
            seats,
            rings,
            desks: open_desks(alloc, settings)?,
            lists: Lists::open(alloc, settings.backends, settings.worker_count())?,
        })
    }
}
