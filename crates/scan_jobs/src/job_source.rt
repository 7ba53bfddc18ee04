//! What a run lists, and what becomes of it.
ghost use Rattle.std.specs.Prelude.{◌≡◌, ◌≤◌, ◌<◌, ◌+◌, ◌++◌, ℕ, List, [], Option, length, take, false};
ghost use Rattle.std.specs.List.{All};
ghost use Rattle.scan_settings.specs.ListOptions.{ListOptions};
ghost use Rattle.scan_jobs.specs.Jobs.{IsNewJob, AllJobsAnswered, job_block_count};
ghost use Rattle.scan_jobs.specs.Jobs.{count_unskipped, unread_job_count};
ghost use Rattle.scan_jobs.specs.BlockFilter.{BlockFilter};
ghost use Rattle.scan_jobs.specs.declared.job.Job.{Job};

use crate::job::Job;
use page_check::World;

/// Gives the jobs of a run, some at a time, and takes them back when they have ended.
pub trait JobSource<W: World>: Drop {
    /// How many more blocks it asks for at most.
    ghost blocks_left: { Self → ℕ };

    /// How many of them are not left out, at most.
    ghost unskipped_left: { Self → ℕ };

    /// Which blocks are left out of its jobs.
    ghost block_filter: { Self → Option BlockFilter };

    /// How many of the jobs that it has taken ended in Unread, as far as it says.
    ghost unread: { Self → ℕ };

    /// In the first state it gives these jobs, and is then in the second.
    ghost gives_jobs: { Self → List Job → Self → Type 0 };

    /// Some jobs have led from the first state to the second: they were given and taken back.
    ghost follows: { Self → Self → Type 0 };

    /// With which options it takes blocks to be listed.
    ghost options: { Self → ListOptions };

    /// It wants no further jobs.
    ghost is_over: { Self → Type 0 };

    /// Gives the next jobs into the first places: the answer is how many, 0 where there are none.
    fn next_jobs(&mut self, jobs: &mut [Job]) -> usize
        requires some { 1 ≤ length jobs.old }
        ensures few { (result ≤ length jobs.new) × (length jobs.new ≡ length jobs.old) }
        ensures fresh { All (IsNewJob W.relations) (take result jobs.new) }
        ensures left { blocks_left self.new + job_block_count (take result jobs.new)
            ≤ blocks_left self.old }
        ensures unskipped { unskipped_left self.new + count_unskipped (block_filter self.old)
            (take result jobs.new) ≤ unskipped_left self.old }
        ensures unread { unread self.new ≡ unread self.old }
        ensures block_filter { block_filter self.new ≡ block_filter self.old }
        ensures options { options self.new ≡ options self.old }
        ensures gives_jobs { gives_jobs self.old (take result jobs.new) self.new }
        ensures over { result ≡ 0 → is_over self.new };

    /// Takes back the jobs that it gave first of those that are out, each with its text and its
    /// ending. Those that it gave after them may still be out. Whether it takes back these too:
    /// where not, what is out is listed in vain. A job behind one that ended early may not have been
    /// read: it ends in `NoMemory`.
    fn finish_jobs(&mut self, jobs: &[Job]) -> bool
        ensures follows { (was : Self) (asked later : List Job)
            → gives_jobs was (asked ++ later) self.old
            → AllJobsAnswered (block_filter self.old) (options self.old) W.told asked jobs.now
            → (next : Self) × follows was next × gives_jobs next later self.new }
        ensures left { blocks_left self.new ≤ blocks_left self.old }
        ensures unskipped { unskipped_left self.new ≤ unskipped_left self.old }
        ensures block_filter { block_filter self.new ≡ block_filter self.old }
        ensures options { options self.new ≡ options self.old }
        ensures unread { unread self.new ≤ unread self.old + unread_job_count jobs.now }
        ensures over { result ≡ false → is_over self.new }
        ensures over_then { is_over self.old → is_over self.new }
        ensures in_vain { result ≡ false → (next : Self) (later : List Job)
            → gives_jobs next later self.new → follows next self.new };

    /// To give no job changes nothing.
    ghost giving_none: { (a : Self) → gives_jobs a [] a };

    /// Jobs, and then further ones.
    ghost giving_more: { (a b c : Self) (asked later : List Job) → gives_jobs a asked b
        → gives_jobs b later c → gives_jobs a (asked ++ later) c };

    /// Where no job was given, the second state follows the first.
    ghost giving_none_follows: { (a b : Self) → gives_jobs a [] b → follows a b };

    /// Each state follows itself.
    ghost follows_itself: { (a : Self) → follows a a };

    /// Some jobs, and then further ones.
    ghost follows_on: { (a b c : Self) → follows a b → follows b c → follows a c };
}
