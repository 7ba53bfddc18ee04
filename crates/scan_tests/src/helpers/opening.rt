//! Scans that are opened over disks of a shelf.
ghost use Rattle.std.specs.Prelude.{◌≡◌, ◌*◌, ◌^◌, ◌<◌, length, map, IfOk, IfSome};
ghost use Rattle.std.specs.Prelude.{IsTrue, string_bytes};
ghost use Rattle.std.specs.List.{All};
ghost use Rattle.aio_disk.specs.Shelf.{shelf_told};
ghost use Rattle.scan_settings.specs.Settings.{AreValidScanSettings, required_disks};
ghost use Rattle.scan_rounds.specs.Scans.{IsScan};

use aio_disk::{Disk, Shelf};
use page_check::{DamagedPages, World};
use scan_rounds::{MethodKind, PageText, Scan, ScanSettings};
use std::alloc::Global;
use std::test::Fail;

/// The settings that a scan has unless a test says otherwise.
pub(crate) const USUAL: ScanSettings = ScanSettings {
    method: MethodKind::Worker,
    workers: 3,
    backends: 2,
    combine: 16,
    concurrency: 16,
    handles: 16,
    buffers: 128,
    batch: false,
    full: false,
    segment: 131072,
    checksums: false,
    damaged: DamagedPages::Refuse,
    page_text: PageText::Items,
};

/// Each method with its name.
pub(crate) const METHODS: [(&str, MethodKind); 3] = [
    ("sync", MethodKind::Sync),
    ("worker", MethodKind::Worker),
    ("ring", MethodKind::Ring),
];

/// One backend with one handle, which reads block by block, and one worker or none.
pub(crate) fn one_handle(method: MethodKind) -> ScanSettings {
    ScanSettings {
        method,
        workers: 1,
        backends: 1,
        combine: 1,
        handles: 1,
        ..USUAL
    }
}

/// Whether a scan may be opened so.
pub(crate) fn is_in_range(settings: &ScanSettings) -> bool
    ensures { IsTrue result → AreValidScanSettings settings.now }
{
    let ScanSettings {
        method: _,
        workers,
        backends,
        combine,
        concurrency,
        handles,
        buffers,
        batch: _,
        full: _,
        segment,
        checksums: _,
        damaged: _,
        page_text: _,
    } = *settings;
    let actors = 1 <= workers && workers <= 32 && 1 <= backends && backends <= 16;
    let reads = 1 <= combine && combine <= 128 && 1 <= concurrency && concurrency <= 256;
    let memory = 1 <= handles && handles <= 64 && 16 <= buffers && buffers <= 16384;
    actors && reads && memory && 1 <= segment
}

/// Opens so many disks of the same relations.
pub(crate) fn open_disks<S: Shelf>(
    alloc: Global,
    shelf: &mut S,
    names: &[String],
    count: usize,
) -> Result<Vec<S::Disk>, Fail>
    ensures count { IfOk result (λ disks. length disks.items ≡ count) }
    ensures tell { IfOk result (λ disks. All (λ d.
        (S.Disk.told d ≡ shelf_told (S.told shelf.old) (map string_bytes names.now))
        × (S.Disk.relations d ≡ length names.now)) disks.items) }
    ensures segments { IfOk result (λ disks.
        All (λ d. S.Disk.segment d ≡ S.segment shelf.old) disks.items) }
{
    let mut disks = Vec::new(alloc);
    for _ in 0..count {
        let disk = shelf.open(names).ok().ok_or("no disk")?;
        disks.push(disk)?;
    }
    Ok(disks)
}

/// A scan, with the generations of its handles from `start` on where that is given.
pub(crate) fn open_scan<W: World, D: Disk>(
    alloc: Global,
    settings: &ScanSettings,
    disks: Vec<D>,
    start: Option<u64>,
) -> Result<Scan<W, D>, Fail>
    requires settings { AreValidScanSettings settings.now }
    requires disks { length disks.items ≡ required_disks settings.now }
    requires tell { All (λ d. (D.told d ≡ W.told) × (D.relations d ≡ W.relations)) disks.items }
    requires segments { All (λ d. D.segment d ≡ settings.now.segment) disks.items }
    requires handles { settings.now.backends * settings.now.handles ≡ W.handles }
    requires start { IfSome start (λ s. s < 2 ^ 58) }
    ensures { IfOk result (λ s. IsScan D.Disk W.World s) }
{
    let opened = match start {
        Some(start) => Scan::open_at(alloc, settings, disks, start),
        None => Scan::open(alloc, settings, disks),
    };
    match opened {
        Ok(scan) => Ok(scan),
        Err(_) => Err(Fail::from("no memory for a scan")),
    }
}
