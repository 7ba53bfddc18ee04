//! Lists the pages that a stream gives for its jobs.
ghost use Rattle.std.specs.Prelude.{◌≡◌, ◌++◌, ◌≤◌, ◌<◌, None, Some, OnOk, OnErr, IfOk, List, map};
ghost use Rattle.std.specs.Prelude.{length};
ghost use Rattle.page_check.specs.PageBytes.{IsPage};
ghost use Rattle.page_check.specs.SynchronousAnswer.{Given, IsValidUnlessDamaged};
ghost use Rattle.page_check.specs.Verdict.{IsValid};
ghost use Rattle.heap_scan.specs.Sums.{FitSums, sums_with_page};
ghost use Rattle.heap_scan.specs.Warnings.{warning_line};
ghost use Rattle.stream_answer.specs.StreamAnswers.{synchronous_answer};
ghost use Rattle.scan_settings.specs.PageFormats.{page_format};
ghost use Rattle.scan_jobs.specs.ConsumedPages.{AnswerConsumed, HaveTaken, JobsHaveOutput};
ghost use Rattle.scan_jobs.specs.JobOutput.{AnswerAppended, CanBeCounted, job_output};
ghost use Rattle.scan_jobs.specs.Jobs.{ended_job, ended_jobs, job_outline};
ghost use Rattle.page_check.specs.IsAnswer.{IfGiven, IfPage};

use crate::consumer::Consumer;
use crate::job::{Ending, Job};
use heap_scan::{PageSums, damaged_text, tally, warning_text};
use heap_tuple::tuples_text;
use page_check::laws::a_page_has_8192_bytes;
use page_check::{Page, PageMark};
use page_faults::faults_text;
use scan_settings::PageText;
use std::alloc::AllocError;
use stream_answer::Next;

// Appends what is written of a page, and says how many faults that tells.
fn put_text(
    page_text: PageText,
    mark: PageMark,
    relation: u32,
    block: u32,
    page: &Page,
    text: &mut Vec<u8>,
) -> Result<u32, AllocError>
    requires valid { IsValidUnlessDamaged mark page.now }
    ensures ok { OnOk result (text.new.items ≡ text.old.items
        ++ (page_format page_text).text_of mark relation block page.now) }
    ensures count { IfOk result (λ count. count
        ≡ (page_format page_text).fault_count_of mark relation block page.now) }
    ensures err { OnErr result (text.new.items ≡ text.old.items) }
{
    match (page_text, mark) {
        (PageText::Faults(options), _) => {
            let count = faults_text(&options, relation, block, page, text)?;
            Ok(count as u32)
        }
        (PageText::Items | PageText::Tuples, PageMark::Damaged) => {
            damaged_text(relation, block, page, text)?;
            Ok(1)
        }
        (PageText::Items, PageMark::Valid | PageMark::Zeroed) => {
            heap_scan::page_text(relation, block, page, text)?;
            Ok(0)
        }
        (PageText::Tuples, PageMark::Valid | PageMark::Zeroed) => {
            tuples_text(relation, block, page, text)?;
            Ok(0)
        }
    }
}

// Appends a page that was given, and counts it.
fn show_page(
    page_text: PageText,
    mark: PageMark,
    relation: u32,
    block: u32,
    page: &Page,
    text: &mut Vec<u8>,
    sums: &mut PageSums,
) -> Result<(), AllocError>
    requires valid { IsValidUnlessDamaged mark page.now }
    requires fit { FitSums (sums_with_page ((page_format page_text).fault_count_of mark relation block
        page.now) sums.old page.now) }
    ensures ok { OnOk result ((text.new.items ≡ text.old.items
        ++ (page_format page_text).text_of mark relation block page.now)
        × (sums.new ≡ sums_with_page ((page_format page_text).fault_count_of mark relation block
        page.now) sums.old page.now)) }
    ensures err { OnErr result ((text.new.items ≡ text.old.items) × (sums.new ≡ sums.old)) }
{
    let faults = put_text(page_text, mark, relation, block, page, text)?;
    tally(page, faults, sums);
    Ok(())
}

// Appends a page that was given as zeros, and its warning, and counts it.
fn show_zeroed(
    page_text: PageText,
    relation: u32,
    block: u32,
    page: &Page,
    text: &mut Vec<u8>,
    warnings: &mut Vec<u8>,
    sums: &mut PageSums,
) -> Result<(), AllocError>
    requires valid { IsValid page.now }
    requires fit { FitSums (sums_with_page ((page_format page_text).fault_count_of PageMark.Zeroed
        relation block page.now) sums.old page.now) }
    ensures ok { OnOk result ((text.new.items ≡ text.old.items
        ++ (page_format page_text).text_of PageMark.Zeroed relation block page.now)
        × (warnings.new.items ≡ warnings.old.items ++ warning_line relation block)
        × (sums.new ≡ sums_with_page ((page_format page_text).fault_count_of PageMark.Zeroed
        relation block page.now) sums.old page.now)) }
    ensures err { OnErr result ((text.new.items ≡ text.old.items)
        × (warnings.new.items ≡ warnings.old.items) × (sums.new ≡ sums.old)) }
{
    let before = warnings.len();
    warning_text(relation, block, warnings)?;
    match show_page(
        page_text,
        PageMark::Zeroed,
        relation,
        block,
        page,
        text,
        sums,
    ) {
        Ok(()) => Ok(()),
        Err(error) => {
            warnings.truncate(before);
            Err(error)
        }
    }
}

// Nothing where the page was shown; else that there was no memory.
fn ending_by(shown: Result<(), AllocError>) -> Option<Ending>
    ensures ok { OnOk shown (result ≡ None) }
    ensures err { OnErr shown (result ≡ Some Ending.NoMemory) }
{
    match shown {
        Ok(()) => None,
        Err(_) => Some(Ending::NoMemory),
    }
}

// Appends the page that was answered, and its warning where it was zeroed, and counts it. Some
// where the job has ended.
fn show(
    page_text: PageText,
    relation: u32,
    answer: Next<'_, ()>,
    text: &mut Vec<u8>,
    warnings: &mut Vec<u8>,
    sums: &mut PageSums,
) -> Option<Ending>
    requires valid { IfGiven (synchronous_answer relation answer)
        (λ g. IsValidUnlessDamaged g.mark g.page) }
    requires fit { CanBeCounted (page_format page_text) sums.old (synchronous_answer relation answer) }
    ensures shown { AnswerAppended (page_format page_text) (synchronous_answer relation answer.entry)
        (job_output text.old.items warnings.old.items sums.old)
        (job_output text.new.items warnings.new.items sums.new) result }
    ensures page { IfPage (synchronous_answer relation answer.entry) IsPage }
{
    match answer {
        Next::Page(page, block, _) => {
            a_page_has_8192_bytes(page);
            let mark = PageMark::Valid;
            ending_by(show_page(page_text, mark, relation, block, page, text, sums))
        }
        Next::Damaged(page, block, _) => {
            a_page_has_8192_bytes(page);
            let mark = PageMark::Damaged;
            ending_by(show_page(page_text, mark, relation, block, page, text, sums))
        }
        Next::Zeroed(page, block, _) => {
            a_page_has_8192_bytes(page);
            let shown = show_zeroed(page_text, relation, block, page, text, warnings, sums);
            ending_by(shown)
        }
        Next::End => Some(Ending::Pages),
        Next::Invalid(block) => Some(Ending::Invalid(block)),
        Next::Unread(block) => Some(Ending::Unread(block)),
        Next::PastEnd(block) => Some(Ending::PastEnd(block)),
    }
}

/// Jobs that take pages, one job after the other: what is written of the pages, their warnings and
/// their sums.
#[derive(Drop)]
pub struct Listing<'j> {
    pub jobs: &'j mut [Job],
    /// How many pages they have taken.
    pub taken: u32,
    pub page_text: PageText,
    ghost some: { 1 ≤ length jobs.now },
}

// Appends what was answered behind so many pages to its job: a job takes as many pages as it has
// blocks, and the last takes all the others.
fn show_in(
    page_text: PageText,
    relation: u32,
    answer: Next<'_, ()>,
    taken: u32,
    jobs: &mut [Job],
) -> Option<Ending>
    requires some { 1 ≤ length jobs.old }
    requires valid { IfGiven (synchronous_answer relation answer)
        (λ g. IsValidUnlessDamaged g.mark g.page) }
    requires room { IfGiven (synchronous_answer relation answer) (λ _.
        (pages : List (Given (Unit {0}))) × HaveTaken (page_format page_text) taken jobs.old pages
        × (length pages < 4096)) }
    ensures takes { AnswerConsumed (HaveTaken (page_format page_text) taken jobs.old)
        (JobsHaveOutput (page_format page_text) jobs.new)
        (synchronous_answer relation answer.entry) result }
    ensures kept { map job_outline jobs.new ≡ map job_outline jobs.old }
{
    let Some((job, later)) = jobs.split_first_mut() else {
        unreachable!()
    };
    let is_whole = taken >= job.count;
    if !later.is_empty() && is_whole {
        return show_in(page_text, relation, answer, taken - job.count, later);
    }
    let Job {
        text,
        warnings,
        tally,
        ..
    } = job;
    show(page_text, relation, answer, text, warnings, tally)
}

// Ends jobs that nobody lists, since one before them ended early.
fn refuse(jobs: &mut [Job])
    ensures { jobs.new ≡ map (ended_job Ending.NoMemory) jobs.old }
{
    if let Some((job, later)) = jobs.split_first_mut() {
        job.ending = Ending::NoMemory;
        refuse(later);
    }
}

/// Ends the jobs, which have taken so many pages: the first that has not all its pages, or the
/// last, ends so. Those behind it are refused.
pub fn end_jobs(jobs: &mut [Job], taken: u32, ending: Ending)
    ensures { jobs.new ≡ ended_jobs jobs.old taken ending }
{
    let Some((job, later)) = jobs.split_first_mut() else {
        return;
    };
    if !later.is_empty() && taken >= job.count {
        end_jobs(later, taken - job.count, ending);
        return;
    }
    job.ending = ending;
    refuse(later);
}

impl Consumer for Listing<'_> {
    ghost use Rattle.scan_settings.specs.PageFormats.{page_format};
    ghost use Rattle.scan_settings.specs.declared.page_text.PageText.{PageText};
    ghost use Rattle.scan_jobs.specs.ConsumedPages.{HaveTaken};
    ghost use Rattle.scan_jobs.specs.Jobs.{job_outline, JobOutline};
    ghost use Rattle.std.specs.Prelude.{ℕ, List, map};

    ghost holds = { λ l. HaveTaken (page_format l.page_text) l.taken l.jobs.now };

    ghost most = { λ l. 4096 };

    // Which jobs are on loan, and what they ask for.
    ghost Kept = { ℕ × PageText × List JobOutline };

    ghost kept = { λ l. (l.jobs.ghost_name, l.page_text, map job_outline l.jobs.now) };

    fn take(&mut self, relation: u32, answer: Next<'_, ()>) -> Option<Ending> {
        let ending = show_in(
            self.page_text,
            relation,
            answer,
            self.taken,
            &mut *self.jobs,
        );
        if ending.is_none() {
            self.taken += 1;
        }
        ending
    }
}
