//! The threads in which the backends of a run list their shares.
ghost use Rattle.std.specs.List.{All};
ghost use Rattle.std.specs.Thread.{IsSync};
ghost use Rattle.scan_jobs.specs.BlockFilter.{filter_of_skipping};
ghost use Rattle.scan_rounds.specs.Shares.{AreTermsOf};

use crate::share::{ShareHandoff, list_share};
use crate::shared::SharedState;
use aio_disk::Disk;
use page_check::World;
use scan_jobs::MapFilter;
use std::sync::Wait;
use std::thread;
use std::thread::Threads;

// Lists the shares that come, until the handoff is closed.
fn serve_shares<W: World, D: Disk, T: Wait>(
    rt: &T,
    shared: &SharedState<W>,
    by_map: Option<MapFilter<'_>>,
    handoff: &ShareHandoff<W, D>,
)
    requires terms { AreTermsOf handoff.now.key shared.now (filter_of_skipping by_map) }
{
    for _ in rt.forever() {
        match handoff.next(rt) {
            Some((share, pending)) => {
                handoff.reply(pending, list_share(rt, shared, by_map, share));
            }
            None => return,
        }
    }
}

/// A server for each handoff: one in the thread that calls this, the others in threads of their
/// own. What the closures hold has one lifetime, since the borrow checker takes no two in closures
/// that name the same `W`.
#[cycle(servers)]
pub(crate) fn serve_all<'a, W: World + Send + Sync, D: Disk, R: Threads + Wait + Sync>(
    rt: &'a R,
    shared: &'a SharedState<W>,
    by_map: &'a Option<MapFilter<'a>>,
    handoffs: &'a [ShareHandoff<W, D>],
)
    requires terms { All (λ h. AreTermsOf h.key shared.now (filter_of_skipping by_map.now))
        handoffs.now }
{
    let Some((first, others)) = handoffs.split_first() else {
        return;
    };
    if others.is_empty() {
        serve_shares(rt, shared, *by_map, first);
        return;
    }
    thread::join(
        rt,
        ||
            requires { IsSync R.row × AreTermsOf first.now.key shared.now
                (filter_of_skipping by_map.now) }
        { serve_shares(rt, shared, *by_map, first) },
        ||
            requires { IsSync R.row × All (λ h. AreTermsOf h.key shared.now
                (filter_of_skipping by_map.now)) others.now }
        { serve_all(rt, shared, by_map, others) },
    );
}
