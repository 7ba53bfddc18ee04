//! What a scan is asked for between its opening and its end.
ghost use Rattle.std.specs.Prelude.{◌≡◌, ◌≤◌, ◌<◌, ◌+◌, ◌*◌, [], length, None, Some};
ghost use Rattle.std.specs.List.{All};
ghost use Rattle.scan_rounds.specs.Calls.{ScanReadMap, ScanMadeRound, ScanMayReadMap};
ghost use Rattle.scan_rounds.specs.Calls.{ScanMayMakeRound};
ghost use Rattle.scan_rounds.specs.DiskActors.{IsBackend};
ghost use Rattle.scan_rounds.specs.Rounds.{AllBackendsHaveRoom, FirstBackendReadMap};
ghost use Rattle.scan_jobs.specs.BlockFilter.{map_filter};

use crate::backend::Backend;
use crate::counts::{count_one, least_room};
use crate::scan::Scan;
use crate::shared::SharedState;
use aio_disk::Disk;
use page_check::World;
use scan_jobs::{Ending, Job, MapFilter};
use std::sync::Wait;
use std::thread::Threads;
use vis_map::{Skip, VisMap};

// The first of some backends reads a map.
fn read_by_first<W: World, D: Disk, R: Wait>(
    rt: &R,
    shared: &SharedState<W>,
    backends: &mut [Backend<W, D>],
    relation: u32,
    map: &mut VisMap,
    warnings: &mut Vec<u8>,
) -> Ending
    requires backends { All (IsBackend D.Disk W.World shared.now.table shared.now.queue)
        backends.old }
    requires some { 1 ≤ length backends.old }
    requires room { AllBackendsHaveRoom 65 backends.old }
    requires relation { relation < W.relations }
    requires none { (map.old.added ≡ []) × (warnings.old.items ≡ []) }
    ensures read { FirstBackendReadMap D.Disk W.World shared.now.table shared.now.queue
        backends.old backends.new relation map.old.pages map.new warnings.new.items result }
    ensures pages { map.new.pages ≡ map.old.pages }
{
    backends[0].read_map(rt, shared, relation, map, warnings)
}

impl<W: World, D: Disk> Scan<W, D> {
    /// Reads the pages of a visibility map, which is a relation, by the first backend, in the
    /// caller's thread and without the workers: as many as the map was opened for. The map holds
    /// those before the ending, and the warnings are a line for each of them that was invalid and
    /// is given as zeros. Want of memory is that for a warning. It may wait.
    pub fn map<R: Wait>(
        &mut self,
        rt: &R,
        relation: u32,
        map: &mut VisMap,
        warnings: &mut Vec<u8>,
    ) -> Ending
        requires may { ScanMayReadMap D.Disk W.World relation self.old map.old warnings.old.items }
        ensures map_read { ScanReadMap D.Disk W.World relation self.old self.new map.old
            map.new warnings.new.items result }
    {
        let Scan {
            shared,
            backends,
            room,
            unread,
            ..
        } = self;
        let backends = backends.as_mut_slice();
        let ending = read_by_first(rt, shared, backends, relation, map, warnings);
        *room = least_room(backends);
        *unread = count_one(*unread, ending);
        ending
    }
}

impl<W: World + Send + Sync, D: Disk> Scan<W, D> {
    /// One round: job `i` is listed by backend `i`, beside the workers, which end with the round.
    /// It may wait.
    ///
    /// Where no thread can be made the parts run one after the other, the backends first, each of
    /// which executes what no worker has claimed.
    pub fn round<R: Threads + Wait + Sync>(&mut self, rt: &R, jobs: &mut [Job])
        requires may { ScanMayMakeRound D.Disk W.World self.old jobs.old }
        ensures made_round { ScanMadeRound D.Disk W.World None self.old self.new jobs.old jobs.new }
    {
        self.round_by(rt, None, jobs);
    }

    /// The same, without the blocks that the map marks: those that are all-visible, or all-frozen.
    pub fn round_filtered<R: Threads + Wait + Sync>(
        &mut self,
        rt: &R,
        jobs: &mut [Job],
        map: &VisMap,
        skip: Skip,
    )
        requires may { ScanMayMakeRound D.Disk W.World self.old jobs.old }
        ensures made_round { ScanMadeRound D.Disk W.World (map_filter map.now skip) self.old
            self.new jobs.old jobs.new }
    {
        self.round_by(rt, Some(MapFilter { map, skip }), jobs);
    }
}
