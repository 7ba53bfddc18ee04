//! What a backend is given to list in a thread of its own, and what comes back.
ghost use Rattle.std.specs.Prelude.{None, ⊤};
ghost use Rattle.scan_jobs.specs.BlockFilter.{filter_of_skipping};
ghost use Rattle.scan_rounds.specs.DiskActors.{BackendListed, BackendMayList};
ghost use Rattle.scan_rounds.specs.Shares.{AreTermsOf, ShareListed, ShareMayBeListed, terms_filter};

use crate::backend::Backend;
use crate::shared::SharedState;
use aio_disk::Disk;
use handoff::{Client, Handoff, Service};
use page_check::World;
use scan_jobs::{Job, MapFilter, neighbouring_jobs};
use std::marker::PhantomData;
use std::snapshot::Snapshot;
use std::sync::Wait;
use vis_map::{Skip, VisMap};

/// A backend with jobs: it is to list the first of these, or has listed them.
#[derive(Drop)]
pub(crate) struct Share<W: World, D: Disk> {
    pub(crate) backend: Backend<W, D>,
    /// As many places in each share of a run.
    pub(crate) jobs: Vec<Job>,
    pub(crate) count: usize,
}

/// What the threads of a run agree on: what they share, and which blocks are left out. Its only
/// bytes say which of the blocks that a map marks are left out.
#[derive(Drop)]
pub(crate) struct RunTerms<W: World> {
    pub(crate) shared: Snapshot<SharedState<W>>,
    pub(crate) by_map: Option<(Snapshot<VisMap>, Skip)>,
}

impl<W: World> RunTerms<W> {
    /// Those of this run.
    pub(crate) fn of(shared: &SharedState<W>, by_map: Option<MapFilter<'_>>) -> RunTerms<W>
        ensures { AreTermsOf result shared.now (filter_of_skipping by_map.entry) }
    {
        RunTerms {
            shared: Snapshot::of(shared),
            by_map: match by_map {
                None => None,
                Some(MapFilter { map, skip }) => Some((Snapshot::of(map), skip)),
            },
        }
    }
}

/// A request is a share whose jobs are new, and the reply is the same share with its jobs listed.
pub(crate) struct ShareListing<W: World, D: Disk> {
    of: PhantomData<(W, D)>,
}

impl<W: World, D: Disk> Service<RunTerms<W>, Share<W, D>, Share<W, D>> for ShareListing<W, D> {
    ghost may_request = { λ k s. ShareMayBeListed D.Disk W.World k.shared.value.table
        k.shared.value.queue s };

    ghost replies = { λ k s r. ShareListed D.Disk W.World k.shared.value.table
        k.shared.value.queue (terms_filter k) s r };
}

pub(crate) type ShareHandoff<W, D> = Handoff<
    RunTerms<W>,
    Share<W, D>,
    Share<W, D>,
    ShareListing<W, D>,
>;

pub(crate) type ShareClient<W, D> = Client<RunTerms<W>, Share<W, D>, Share<W, D>>;

// A backend lists these jobs. One stream reads those that ask for neighbouring blocks.
#[cycle(jobs)]
fn do_jobs<W: World, D: Disk, T: Wait>(
    rt: &T,
    shared: &SharedState<W>,
    by_map: Option<MapFilter<'_>>,
    backend: &mut Backend<W, D>,
    jobs: &mut [Job],
)
    requires may { BackendMayList D.Disk W.World shared.now.table shared.now.queue backend.old
        jobs.old }
    ensures done { BackendListed D.Disk W.World shared.now.table shared.now.queue (λ _. ⊤)
        (filter_of_skipping by_map.entry) backend.old backend.new jobs.old jobs.new }
{
    if jobs.is_empty() {
        return;
    }
    let (many, blocks) = neighbouring_jobs(jobs, by_map);
    let (first, later) = jobs.split_at_mut(many);
    backend.list(rt, shared, blocks, first);
    do_jobs(rt, shared, by_map, backend, later);
}

/// The backend lists its jobs, without the blocks that are left out.
pub(crate) fn list_share<W: World, D: Disk, T: Wait>(
    rt: &T,
    shared: &SharedState<W>,
    by_map: Option<MapFilter<'_>>,
    share: Share<W, D>,
) -> Share<W, D>
    requires may { ShareMayBeListed D.Disk W.World shared.now.table shared.now.queue share }
    ensures listed { ShareListed D.Disk W.World shared.now.table shared.now.queue
        (filter_of_skipping by_map.entry) share result }
{
    let Share {
        mut backend,
        mut jobs,
        count,
    } = share;
    let (asked, _) = jobs.as_mut_slice().split_at_mut(count);
    do_jobs(rt, shared, by_map, &mut backend, asked);
    Share {
        backend,
        jobs,
        count,
    }
}
