//! A run, led by the caller's thread: its shares go out, go round, and come back.
ghost use Rattle.std.specs.Prelude.{◌≡◌, ◌≤◌, ◌+◌, ◌++◌, length, List, Option, map, vec_capacity};
ghost use Rattle.std.specs.List.{All, AllZip};
ghost use Rattle.scan_jobs.specs.BlockFilter.{BlockFilter, filter_of_skipping};
ghost use Rattle.scan_rounds.specs.Exchanges.{AreClientsOf, ClientsHold};
ghost use Rattle.scan_rounds.specs.RunLeads.{BackendsMayGoOut, AreIdle, IsNewShare, MayLeadRun};
ghost use Rattle.scan_rounds.specs.RunLeads.{RunLed, share_backend};
ghost use Rattle.scan_rounds.specs.Shares.{AreTermsOf, ShareMayBeListed, ShareSpent};
ghost use Rattle.scan_rounds.specs.declared.share.Share.{Share};

use crate::backend::Backend;
use crate::exchange::{RunProgress, exchange_until_over, take_share};
use crate::rounds::close_queue;
use crate::share::{Share, ShareClient, ShareHandoff};
use crate::shared::SharedState;
use aio_disk::Disk;
use page_check::World;
use scan_jobs::{Job, JobSource, MapFilter};
use std::sync::Wait;

/// Gives the backends out, each with a list of this many places for jobs. None is asked for yet.
#[cycle(going_out)]
pub(crate) fn give_out_backends<W: World, D: Disk>(
    shared: &SharedState<W>,
    handoffs: &[ShareHandoff<W, D>],
    clients: &mut [ShareClient<W, D>],
    backends: &mut Vec<Backend<W, D>>,
    lists: &mut Vec<Vec<Job>>,
    places: usize,
)
    requires terms { (f : Option BlockFilter)
        × All (λ h. AreTermsOf h.key shared.now f) handoffs.now }
    requires clients { AreClientsOf handoffs.now clients.old × AreIdle clients.old }
    requires backends { (length clients.old ≤ length backends.old.items)
        × BackendsMayGoOut D.Disk W.World shared.now.table shared.now.queue backends.old.items }
    requires lists { (length clients.old ≤ length lists.old.items)
        × All (λ l. length l.items ≡ places) lists.old.items }
    ensures clients { AreClientsOf handoffs.now clients.new }
    ensures capacity { vec_capacity backends.new ≡ vec_capacity backends.old }
    ensures lists { (length lists.new.items + length clients.old ≡ length lists.old.items)
        × All (λ l. length l.items ≡ places) lists.new.items }
    ensures out { (rs : List (Share W D)) × ClientsHold clients.new rs
        × (backends.old.items ≡ backends.new.items ++ map share_backend rs)
        × All (IsNewShare places) rs }
{
    let Some((client, later)) = clients.split_first_mut() else {
        return;
    };
    let Some((handoff, others)) = handoffs.split_first() else {
        unreachable!()
    };
    give_out_backends(shared, others, later, backends, lists, places);
    let Some(backend) = backends.pop() else {
        unreachable!()
    };
    let Some(jobs) = lists.pop() else {
        unreachable!()
    };
    handoff.put(
        client,
        Share {
            backend,
            jobs,
            count: 0,
        },
    );
}

// Takes the shares back for good, and closes the handoffs.
#[cycle(coming_home)]
fn gather_backends<W: World, D: Disk, R: Wait>(
    rt: &R,
    shared: &SharedState<W>,
    by_map: Option<MapFilter<'_>>,
    handoffs: &[ShareHandoff<W, D>],
    clients: &mut [ShareClient<W, D>],
    backends: &mut Vec<Backend<W, D>>,
)
    requires terms { All (λ h. AreTermsOf h.key shared.now (filter_of_skipping by_map))
        handoffs.now }
    requires clients { AreClientsOf handoffs.now clients.old }
    requires held { (ss : List (Share W D)) × ClientsHold clients.old ss
        × All (ShareMayBeListed D.Disk W.World shared.now.table shared.now.queue) ss }
    requires fit { length backends.old.items + length clients.old ≤ vec_capacity backends.old }
    ensures gathered { (ss : List (Share W D)) → ClientsHold clients.old ss
        → (rs : List (Share W D)) × AllZip (ShareSpent D.Disk W.World shared.now.table
        shared.now.queue (filter_of_skipping by_map.entry)) ss rs
        × (backends.new.items ≡ backends.old.items ++ map share_backend rs) }
{
    let Some((client, later)) = clients.split_first_mut() else {
        return;
    };
    let Some((handoff, others)) = handoffs.split_first() else {
        unreachable!()
    };
    let share = take_share(rt, shared, by_map, handoff, client, false);
    handoff.close(client);
    backends.push_reserved(share.backend);
    gather_backends(rt, shared, by_map, others, later, backends);
}

/// Exchanges the shares until the job source is over. Then the backends come home, and the queue
/// is closed.
pub(crate) fn lead_run<W: World, D: Disk, R: Wait, A: JobSource<W>>(
    rt: &R,
    shared: &SharedState<W>,
    by_map: Option<MapFilter<'_>>,
    handoffs: &[ShareHandoff<W, D>],
    clients: &mut [ShareClient<W, D>],
    backends: &mut Vec<Backend<W, D>>,
    progress: &mut RunProgress<A>,
)
    requires may { MayLeadRun D.Disk W.World A.JobSource shared.now (filter_of_skipping by_map)
        handoffs.now clients.old backends.old.items (vec_capacity backends.old) progress.old }
    ensures led { RunLed D.Disk W.World A.JobSource shared.now.table shared.now.queue clients.old
        backends.new.items progress.old progress.new }
{
    exchange_until_over(rt, shared, by_map, handoffs, clients, progress);
    gather_backends(rt, shared, by_map, handoffs, clients, backends);
    close_queue(rt, shared, backends.as_mut_slice());
}
