//! The caller's thread in a run: it takes shares back and gives them out again.
ghost use Rattle.std.specs.Prelude.{◌≡◌, ◌≤◌, ◌<◌, ◌≢◌, ℕ, [], ◌∷◌, length, take, List, Some};
ghost use Rattle.std.specs.Prelude.{None, true, false};
ghost use Rattle.std.specs.List.{All};
ghost use Rattle.handoff.specs.HandoffViews.{IsClientOf, IsSameClient};
ghost use Rattle.scan_jobs.specs.BlockFilter.{filter_of_skipping};
ghost use Rattle.scan_rounds.specs.Exchanges.{AreClientsOf, ClientsHold, JobsAsked, JobsTakenBack};
ghost use Rattle.scan_rounds.specs.Exchanges.{MayExchange, NothingIsOut};
ghost use Rattle.scan_rounds.specs.Exchanges.{ShareStandsIn, ShareTakenBack, SharesAdvanced};
ghost use Rattle.scan_rounds.specs.Exchanges.{SharesExchanged, SomeGiven};
ghost use Rattle.scan_jobs.specs.Jobs.{IsNewJob};
ghost use Rattle.scan_rounds.specs.Shares.{AreTermsOf, ShareMayBeListed};
ghost use Rattle.scan_rounds.specs.declared.share.Share.{Share};

use crate::counts::count_unread;
use crate::share::{Share, ShareClient, ShareHandoff, list_share};
use crate::shared::SharedState;
use aio_disk::Disk;
use handoff::Completion;
use page_check::World;
use scan_jobs::{Job, JobSource, MapFilter};
use std::mem;
use std::sync::Wait;

/// What the job source is still asked for.
#[derive(Clone, Copy)]
pub(crate) enum Phase {
    /// For further jobs.
    Asking,
    /// To take back the jobs that are out. It has no further ones.
    Finishing,
    /// For nothing: what is out is listed in vain.
    Stopped,
}

impl Phase {
    // Whether jobs that were listed are taken back.
    fn takes_back(self) -> bool
        ensures wanted { self ≢ Phase.Stopped → result ≡ true }
        ensures in_vain { self ≡ Phase.Stopped → result ≡ false }
    {
        !matches!(self, Phase::Stopped)
    }
}

/// How far a run has come.
#[derive(Drop)]
pub(crate) struct RunProgress<A> {
    pub(crate) job_source: A,
    pub(crate) phase: Phase,
    /// The jobs that came back last: the list that the next share takes for its own.
    pub(crate) spare: Vec<Job>,
    /// How many jobs have ended in Unread.
    pub(crate) unread: u64,
}

/// Takes a share back. What no server has taken is listed here, where it is wanted.
pub(crate) fn take_share<W: World, D: Disk, R: Wait>(
    rt: &R,
    shared: &SharedState<W>,
    by_map: Option<MapFilter<'_>>,
    handoff: &ShareHandoff<W, D>,
    client: &mut ShareClient<W, D>,
    wanted: bool,
) -> Share<W, D>
    requires terms { AreTermsOf handoff.now.key shared.now (filter_of_skipping by_map) }
    requires client { IsClientOf handoff.now client.old }
    requires holds { client.old.requested ≢ None }
    requires may { (s : Share W D) → client.old.requested ≡ Some s
        → ShareMayBeListed D.Disk W.World shared.now.table shared.now.queue s }
    ensures same { IsSameClient client.old client.new }
    ensures idle { client.new.requested ≡ None }
    ensures taken { (s : Share W D) → client.old.requested ≡ Some s
        → ShareTakenBack D.Disk W.World shared.now.table shared.now.queue
        (filter_of_skipping by_map.entry) wanted s result }
{
    match handoff.complete(rt, client) {
        Completion::Reply(share) => share,
        Completion::Request(share) => {
            if wanted {
                list_share(rt, shared, by_map, share)
            } else {
                share
            }
        }
    }
}

// Asks the job source for jobs, at most so many, where it may have some.
fn ask_jobs<W: World, A: JobSource<W>>(
    job_source: &mut A,
    places: &mut [Job],
    many: usize,
    phase: &mut Phase,
) -> usize
    requires places { (1 ≤ many) × (many ≤ length places.old) }
    ensures places { length places.new ≡ length places.old }
    ensures asked { JobsAsked W.World A.JobSource job_source.old job_source.new phase.old phase.new
        places.new result }
{
    match *phase {
        Phase::Asking => {
            let (asked, _) = places.split_at_mut(many);
            let count = job_source.next_jobs(asked);
            if count == 0 {
                *phase = Phase::Finishing;
            }
            count
        }
        _ => 0,
    }
}

// Has the job source take back the jobs of a share, where there are some and it wants them.
fn finish_share<W: World, A: JobSource<W>>(job_source: &mut A, jobs: &[Job], phase: &mut Phase)
    ensures finished { JobsTakenBack W.told A.JobSource job_source.old job_source.new phase.old
        phase.new jobs.now }
{
    match *phase {
        Phase::Stopped => {}
        _ => {
            if !jobs.is_empty() && !job_source.finish_jobs(jobs) {
                *phase = Phase::Stopped;
            }
        }
    }
}

// How many blocks the first of so many jobs asks for: 0 where there are none.
fn first_blocks(jobs: &[Job], count: usize) -> u32
    requires { (relations : ℕ) × All (IsNewJob relations) (take count jobs.now)
        × (count ≤ length jobs.now) }
    ensures none { result ≡ 0 → count ≡ 0 }
    ensures some { 0 < result → 0 < count }
{
    if count == 0 { 0 } else { jobs[0].count }
}

// Takes a share back, gives it out with the next jobs, at most so many, and then has the job
// source take back what came. How many blocks the first of the next jobs asks for: 0 where there
// are none.
fn exchange_share<W: World, D: Disk, R: Wait, A: JobSource<W>>(
    rt: &R,
    shared: &SharedState<W>,
    by_map: Option<MapFilter<'_>>,
    handoff: &ShareHandoff<W, D>,
    client: &mut ShareClient<W, D>,
    many: usize,
    progress: &mut RunProgress<A>,
) -> u32
    requires terms { AreTermsOf handoff.now.key shared.now (filter_of_skipping by_map) }
    requires filter { A.block_filter progress.old.job_source ≡ filter_of_skipping by_map }
    requires client { IsClientOf handoff.now client.old }
    requires holds { client.old.requested ≢ None }
    requires stands { (s : Share W D) → client.old.requested ≡ Some s
        → ShareStandsIn D.Disk W.World shared.now.table shared.now.queue A.JobSource
        progress.old s }
    requires places { (1 ≤ many) × (many ≤ length progress.old.spare.items) }
    ensures same { IsSameClient client.old client.new }
    ensures places { length progress.new.spare.items ≡ length progress.old.spare.items }
    ensures exchanged { (s : Share W D) → client.old.requested ≡ Some s
        → (r : Share W D) × (client.new.requested ≡ Some r)
        × SharesExchanged D.Disk W.World shared.now.table shared.now.queue A.JobSource
        (s ∷ []) (r ∷ []) progress.old progress.new
        × SomeGiven A.JobSource progress.old progress.new (r ∷ []) result }
{
    let RunProgress {
        job_source,
        phase,
        spare,
        unread,
    } = progress;
    let wanted = phase.takes_back();
    let Share {
        backend,
        mut jobs,
        count: listed,
    } = take_share(rt, shared, by_map, handoff, client, wanted);
    mem::swap(&mut jobs, spare);
    let count = ask_jobs(job_source, jobs.as_mut_slice(), many, phase);
    let blocks = first_blocks(jobs.as_slice(), count);
    handoff.put(
        client,
        Share {
            backend,
            jobs,
            count,
        },
    );
    let (came, _) = spare.as_slice().split_at(listed);
    *unread = count_unread(*unread, came);
    finish_share(job_source, came, phase);
    blocks
}

/// Takes all shares back, in their order, and gives them out again with the next jobs, each with
/// at most so many. How many blocks the first of these jobs ask for, one in each share: 0 where no
/// jobs are out.
#[cycle(shares)]
pub(crate) fn exchange_all<W: World, D: Disk, R: Wait, A: JobSource<W>>(
    rt: &R,
    shared: &SharedState<W>,
    by_map: Option<MapFilter<'_>>,
    handoffs: &[ShareHandoff<W, D>],
    clients: &mut [ShareClient<W, D>],
    many: usize,
    progress: &mut RunProgress<A>,
) -> u32
    requires terms { All (λ h. AreTermsOf h.key shared.now (filter_of_skipping by_map))
        handoffs.now }
    requires filter { A.block_filter progress.old.job_source ≡ filter_of_skipping by_map }
    requires clients { AreClientsOf handoffs.now clients.old }
    requires stands { (ss : List (Share W D)) × ClientsHold clients.old ss
        × All (ShareStandsIn D.Disk W.World shared.now.table shared.now.queue A.JobSource
        progress.old) ss }
    requires places { (1 ≤ many) × (many ≤ length progress.old.spare.items) }
    ensures clients { AreClientsOf handoffs.now clients.new }
    ensures places { length progress.new.spare.items ≡ length progress.old.spare.items }
    ensures exchanged { (ss : List (Share W D)) → ClientsHold clients.old ss
        → (rs : List (Share W D)) × ClientsHold clients.new rs
        × SharesExchanged D.Disk W.World shared.now.table shared.now.queue A.JobSource ss rs
        progress.old progress.new × SomeGiven A.JobSource progress.old progress.new rs result }
{
    let Some((client, later)) = clients.split_first_mut() else {
        return 0;
    };
    let Some((handoff, others)) = handoffs.split_first() else {
        unreachable!()
    };
    let first = exchange_share(rt, shared, by_map, handoff, client, many, progress);
    let given = exchange_all(rt, shared, by_map, others, later, many, progress);
    first.saturating_add(given)
}

/// Exchanges all shares again and again, with twice as many jobs each time as far as they have
/// places, until none has jobs.
pub(crate) fn exchange_until_over<W: World, D: Disk, R: Wait, A: JobSource<W>>(
    rt: &R,
    shared: &SharedState<W>,
    by_map: Option<MapFilter<'_>>,
    handoffs: &[ShareHandoff<W, D>],
    clients: &mut [ShareClient<W, D>],
    progress: &mut RunProgress<A>,
)
    requires may { MayExchange D.Disk W.World A.JobSource shared.now (filter_of_skipping by_map)
        handoffs.now clients.old progress.old }
    ensures clients { AreClientsOf handoffs.now clients.new }
    ensures exchanged { (ss : List (Share W D)) → ClientsHold clients.old ss
        → (rs : List (Share W D)) × ClientsHold clients.new rs
        × SharesAdvanced D.Disk W.World shared.now.table shared.now.queue A.JobSource ss rs
        progress.old progress.new × NothingIsOut rs progress.new.phase }
{
    let places = progress.spare.len();
    let mut many = 1;
    loop {
        if exchange_all(rt, shared, by_map, handoffs, clients, many, progress) == 0 {
            return;
        }
        many = places.min(many.saturating_mul(2));
    }
}
