//! The job source of a listing: it cuts jobs, and writes their texts.
ghost use Rattle.std.specs.Prelude.{◌≡◌, ◌≢◌, ◌≤◌, ◌++◌, ◌∷◌, [], length, take, false, None};
ghost use Rattle.std.specs.Prelude.{IsErrOf, OnErr};
ghost use Rattle.std.specs.List.{All};
ghost use Rattle.scan_jobs.specs.Jobs.{IsNewJob, unread_job_count};
ghost use Rattle.run_report.specs.Output.{WriteFaultsCounted};
ghost use Rattle.lister.specs.ListerState.{unskipped_job_parts};
ghost use Rattle.run_report.specs.Outcomes.{unread_count};
ghost use Rattle.lister.specs.ListerState.{outcome_of_ending};
ghost use Rattle.lister.specs.ListerState.{JobTextWritten, AllJobTextsWritten};
ghost use Rattle.run_report.specs.ErrorLine.{AppendsErrorText, AppendsWarnings, error_stream};
ghost use Rattle.aio_disk.specs.Counts.{CountRose};
ghost use Rattle.aio_disk.specs.Sink.{SinkTakes};
ghost use Rattle.aio_disk.specs.declared.fault.WriteFault.TheVariants.{Device};
ghost use Rattle.run_report.specs.Sums.{saturated_sums};
ghost use Rattle.heap_scan.specs.Sums.{sums_joined};

use aio_disk::{Sink, WriteFault};
use heap_scan::PageSums;
use page_check::{PageRules, World};
use request_list::Cutter;
use run_report::{Line, Outcome, write_warnings};
use scan_jobs::{Ending, Job, JobSource, MapFilter};
use scan_settings::PageText;

/// What a run has still to list, and where to.
#[derive(Drop)]
pub struct Lister<'a, 'e, 'm, 'w, W: World, O: Sink, E: Sink> {
    pub blocks: Cutter<'a, 'w, W>,
    /// The map by which blocks are left out, where there is one.
    pub by_map: Option<MapFilter<'m>>,
    pub out: &'a mut O,
    pub err: &'e mut E,
    /// How much of the warnings so far reached the error stream.
    pub line: Line,
    /// How pages are read.
    pub rules: PageRules,
    /// What is written of a page.
    pub page_text: PageText,
    /// `Done` as long as nothing has ended the run.
    pub outcome: Outcome,
    /// The sums over the pages of the jobs that were done.
    pub sums: PageSums,
}

// Puts the next blocks into jobs: so many.
fn fill<W: World>(blocks: &mut Cutter<'_, '_, W>, jobs: &mut [Job]) -> usize
    ensures few { (result ≤ length jobs.new) × (length jobs.new ≡ length jobs.old) }
    ensures fresh { All (IsNewJob W.relations) (take result jobs.new) }
    ensures cut { blocks.old ≡ unskipped_job_parts None (take result jobs.new) ++ blocks.new }
    ensures none { 1 ≤ length jobs.old → result ≡ 0 → blocks.new ≡ [] }
{
    for place in 0..jobs.len() {
        let Some(cut) = blocks.next() else {
            return place;
        };
        jobs[place].ask(cut.relation, cut.first, cut.count);
    }
    jobs.len()
}

/// The outcome where blocks of this relation ended so.
pub fn outcome_of(relation: u32, ending: Ending) -> Outcome
    ensures { result ≡ outcome_of_ending relation ending }
{
    match ending {
        Ending::Pages => Outcome::Done,
        Ending::Invalid(block) => Outcome::Invalid(relation, block),
        Ending::Unread(block) => Outcome::Unread(relation, block),
        Ending::PastEnd(block) => Outcome::Missing(relation, block),
        Ending::NoMemory => Outcome::NoMemory,
    }
}

// Writes a text by one write, where it is not empty.
fn write_text<O: Sink>(text: &[u8], out: &mut O) -> Result<(), WriteFault>
    ensures takes { SinkTakes (O.written out.old) (O.written out.new) result text.now }
    ensures later { O.faults out.old ≤ O.faults out.new }
    ensures device { IsErrOf result Device → CountRose (O.faults out.old) (O.faults out.new) }
    ensures some { OnErr result (text.now ≢ []) }
{
    if text.is_empty() {
        return Ok(());
    }
    out.write(text)
}

// Writes the warnings of a job whose text was written whole, whatever ended the job.
fn end_job<E: Sink>(job: &Job, line: Line, err: &mut E) -> (Outcome, Line)
    ensures ended { result.0 ≡ outcome_of_ending job.now.relation job.now.ending }
    ensures told { AppendsErrorText job.now.warnings.items
        (error_stream line (E.written err.old) (E.faults err.old))
        (error_stream result.1 (E.written err.new) (E.faults err.new)) }
{
    (
        outcome_of(job.relation, job.ending),
        write_warnings(line, job.warnings.as_slice(), err),
    )
}

// Writes a job's text, and its warnings where that was written whole.
fn write_job<O: Sink, E: Sink>(job: &Job, out: &mut O, line: Line, err: &mut E) -> (Outcome, Line)
    ensures lists { AppendsWarnings (JobTextWritten job.now (O.written out.old) (O.written out.new)
        result.0)
        (error_stream line (E.written err.old) (E.faults err.old))
        (error_stream result.1 (E.written err.new) (E.faults err.new)) }
    ensures writes { WriteFaultsCounted (O.faults out.old) (O.faults out.new) result.0 }
    ensures unread { unread_count result.0 ≤ unread_job_count (job.now ∷ []) }
{
    match write_text(job.text.as_slice(), out) {
        Ok(()) => end_job(job, line, err),
        Err(WriteFault::Device) => (Outcome::CannotWrite, line),
        Err(WriteFault::Memory) => (Outcome::NoMemory, line),
    }
}

// Adds the sums of a job to those so far.
fn add_up(sums: PageSums, tally: PageSums) -> PageSums
    ensures { result ≡ saturated_sums (sums_joined sums tally) }
{
    PageSums {
        pages: sums.pages.saturating_add(tally.pages),
        zero: sums.zero.saturating_add(tally.zero),
        items: sums.items.saturating_add(tally.items),
        faults: sums.faults.saturating_add(tally.faults),
    }
}

// Writes the texts and the warnings of jobs, up to the first that ended in a fault, and adds up
// their sums.
fn write_jobs<O: Sink, E: Sink>(
    jobs: &[Job],
    out: &mut O,
    mut line: Line,
    err: &mut E,
    mut sums: PageSums,
) -> (Outcome, Line, PageSums)
    ensures lists { AppendsWarnings (AllJobTextsWritten jobs.now (O.written out.old)
        (O.written out.new) result.0 sums result.2)
        (error_stream line (E.written err.old) (E.faults err.old))
        (error_stream result.1 (E.written err.new) (E.faults err.new)) }
    ensures writes { WriteFaultsCounted (O.faults out.old) (O.faults out.new) result.0 }
    ensures unread { unread_count result.0 ≤ unread_job_count jobs.now }
{
    for job in jobs {
        let (outcome, reached) = write_job(job, out, line, err);
        line = reached;
        sums = add_up(sums, job.tally);
        match outcome {
            Outcome::Done => {}
            outcome => return (outcome, line, sums),
        }
    }
    (Outcome::Done, line, sums)
}

impl<'a, 'e, 'm, 'w, W: World, O: Sink, E: Sink> JobSource<W> for Lister<'a, 'e, 'm, 'w, W, O, E> {
    ghost use Rattle.std.specs.Prelude.{length};
    ghost use Rattle.std.proofs.Common.{refl, ◌∙◌};
    ghost use Rattle.scan_jobs.specs.BlockFilter.{unskipped_entries};
    ghost use Rattle.request_list.specs.RequestList.{blocks_of_parts};
    ghost use Rattle.run_report.specs.Outcomes.{unread_count};
    ghost use Rattle.lister.specs.ListerState.{lister_options, lister_filter};
    ghost use Rattle.lister.specs.ListerState.{ListerIsOver, CutsOffJobs, PreservesListing};
    ghost use Rattle.lister.specs.ListerLaws.{cuts_then, none_put};

    ghost blocks_left = { λ l. length (blocks_of_parts l.blocks) };

    ghost unskipped_left = { λ l. length
        (unskipped_entries (lister_filter l) (blocks_of_parts l.blocks)) };

    ghost block_filter = { lister_filter };

    ghost unread = { λ l. unread_count l.outcome };

    ghost gives_jobs = { CutsOffJobs };

    ghost follows = { PreservesListing W.told O.Sink E.Sink };

    ghost options = { lister_options };

    ghost is_over = { ListerIsOver };

    fn next_jobs(&mut self, jobs: &mut [Job]) -> usize {
        match self.outcome {
            Outcome::Done => fill(&mut self.blocks, jobs),
            _ => 0,
        }
    }

    fn finish_jobs(&mut self, jobs: &[Job]) -> bool {
        match self.outcome {
            Outcome::Done => {
                let (outcome, line, sums) = write_jobs(
                    jobs, self.out, self.line, self.err, self.sums,
                );
                self.outcome = outcome;
                self.line = line;
                self.sums = sums;
                self.outcome.is_done()
            }
            _ => false,
        }
    }

    ghost giving_none = { λ a. record {
      loans = (refl, refl);
      out = refl;
      err = refl;
      line = refl;
      options_same = refl;
      filter_same = refl;
      outcome = refl;
      sums = refl;
      cut = refl;
    } };

    ghost giving_more = { cuts_then };

    ghost giving_none_follows = { none_put W.told O.Sink E.Sink };

    ghost follows_itself = { λ a. (refl, refl, λ skips m all before faults errors was. was) };

    ghost follows_on = { λ a b c first second. (
      second.0 ∙ first.0,
      second.1 ∙ first.1,
      λ skips m all before faults errors was.
          second.2 skips m all before faults errors (first.2 skips m all before faults errors was),
    ) };
}
