//! Cuts the blocks that a command asks for into jobs, without a list of them.
ghost use Rattle.std.specs.Prelude.{◌≡◌, ◌≤◌, ◌<◌, ◌∷◌, ◌^◌, [], length, IfSome, IfNone};
ghost use Rattle.command_line.specs.Command.{number_limit};
ghost use Rattle.scan_settings.specs.Settings.{AreValidScanSettings};
ghost use Rattle.request_list.specs.RequestList.{block_range, blocks_of_parts};
ghost use Rattle.request_list.specs.RemainingRequests.{IsResolved, IsFileRange, IsJobRange};
ghost use Rattle.request_list.specs.RemainingRequests.{file_name_of_place, file_range};
ghost use Rattle.request_list.specs.RemainingRequests.{remaining_parts, resolved_settings};
ghost use Rattle.request_list.specs.RemainingRequests.{AsksForMap, greatest_requested_block};
ghost use Rattle.request_list.specs.RemainingRequests.{map_page_count, resolved_parts};
ghost use Rattle.vis_map.specs.declared.map.Skip.{Skip};

use crate::relations::Relations;
use command_line::Command;
use page_check::World;
use scan_settings::ScanSettings;
use std::marker::{Model, PhantomData};
use vis_map::needed_pages;

// At most so many blocks has a job.
const JOB_BLOCKS: u32 = 64;

/// A command with its relations, the length of each, and the segment size of the disks in blocks.
#[derive(Clone, Copy)]
pub struct ResolvedCommand<'a, 'w> {
    pub command: &'a Command<'w>,
    pub relations: &'a Relations,
    pub lengths: &'a [u32],
    pub segment: u32,
}

impl ResolvedCommand<'_, '_> {
    /// How the files are read.
    pub fn settings(&self) -> ScanSettings
        requires { 1 ≤ self.now.segment }
        ensures settings { result ≡ resolved_settings self.now }
        ensures within { AreValidScanSettings result }
    {
        ScanSettings {
            segment: self.segment,
            ..self.command.settings()
        }
    }

    // The blocks that a FILE word asks for.
    fn range_of(&self, file: usize) -> JobRange
        requires asked { IsResolved self.now }
        requires file { file < length (self.now.command.now).files }
        ensures range { result ≡ file_range self.now (file_name_of_place self.now file) }
        ensures within { IsFileRange (length self.now.relations.now) result }
    {
        let relation = self.relations.number_of(self.command.files()[file]);
        JobRange {
            relation,
            first: self.command.first_block(),
            count: self.command.asked_count(self.lengths[relation as usize]),
        }
    }

    // The greatest block that the one file of a map asks for.
    fn greatest(&self) -> Option<u32>
        requires asked { IsResolved self.now }
        requires map { (skip : Skip) × AsksForMap self.now skip }
        ensures block { result ≡ greatest_requested_block self.now }
        ensures below { IfSome result (λ block. block < number_limit) }
    {
        let range = self.range_of(0);
        if range.count == 0 {
            None
        } else {
            Some(range.first + (range.count - 1))
        }
    }

    /// How many pages of the map are read: those that have bits of blocks that are asked for.
    pub fn map_pages(&self) -> u32
        requires asked { IsResolved self.now }
        requires map { (skip : Skip) × AsksForMap self.now skip }
        ensures pages { result ≡ map_page_count self.now }
        ensures few { result ≤ 65 }
    {
        needed_pages(self.lengths[1], self.greatest())
    }
}

/// So many blocks of a relation, from one on: those of a job, or of a FILE word.
#[derive(Clone, Copy)]
pub struct JobRange {
    pub relation: u32,
    pub first: u32,
    pub count: u32,
}

// What is left of the FILE word before this one, or, where that is nothing, the blocks of the next
// that has some; and the word behind.
fn next_range(asked: ResolvedCommand<'_, '_>, mut rest: JobRange, file: usize) -> (JobRange, usize)
    requires asked { IsResolved asked }
    requires rest { IsFileRange (length asked.relations.now) rest }
    ensures same { remaining_parts asked.entry rest file
        ≡ remaining_parts asked.entry result.0 result.1 }
    ensures none { result.0.count ≡ 0 → remaining_parts asked.entry result.0 result.1 ≡ [] }
    ensures within { IsFileRange (length asked.entry.relations.now) result.0 }
{
    let files = asked.command.files().len();
    for next in file..files {
        if rest.count != 0 {
            return (rest, next);
        }
        rest = asked.range_of(next);
    }
    (rest, files)
}

/// The blocks that are asked for, but for those that were cut off. Contracts see it as the list of
/// the parts that are left, one for each further job.
#[derive(Drop)]
pub struct Cutter<'a, 'w, W: World> {
    asked: ResolvedCommand<'a, 'w>,
    /// What is left of the FILE words before the next one.
    rest: JobRange,
    /// The next FILE word.
    file: usize,
    world: PhantomData<W>,
}

impl<'a, 'w, W: World> Model for Cutter<'a, 'w, W> {
    ghost use Rattle.std.specs.Prelude.{List};
    ghost use Rattle.request_list.specs.RequestList.{Part};
    ghost use Rattle.request_list.specs.RemainingRequests.{IsFileRange, ResolvesRelations};
    ghost use Rattle.request_list.specs.RemainingRequests.{remaining_parts};

    ghost Value = { List Part };

    ghost view = { λ c. remaining_parts c.asked c.rest c.file };

    ghost invariant = { λ c. ResolvesRelations W.relations c.asked
        × IsFileRange W.relations c.rest };
}

impl<'a, 'w, W: World> Cutter<'a, 'w, W> {
    /// All blocks that are asked for.
    pub fn new(asked: ResolvedCommand<'a, 'w>) -> Cutter<'a, 'w, W>
        requires asked { IsResolved asked }
        requires world { W.relations ≡ length asked.relations.now }
        ensures all { result ≡ resolved_parts asked.entry }
        ensures few { length (blocks_of_parts result) ≤ 2 ^ 31 }
    {
        // No more than 1024 files of 2097152 blocks.
        let _ = asked.command.files();
        let _ = asked.command.last_block();
        Cutter {
            asked,
            rest: JobRange {
                relation: 0,
                first: 0,
                count: 0,
            },
            file: 0,
            world: PhantomData,
        }
    }

    /// Cuts off the next blocks: 64 of one FILE word, or all that are left of it. None where no
    /// block is left.
    pub fn next(&mut self) -> Option<JobRange>
        ensures some { IfSome result (λ c.
            (self.old ≡ block_range c.relation c.first c.count ∷ self.new)
            × IsJobRange W.relations c) }
        ensures none { IfNone result ((self.old ≡ []) × (self.new ≡ [])) }
    {
        let (rest, file) = next_range(self.asked, self.rest, self.file);
        let count = JOB_BLOCKS.min(rest.count);
        if count == 0 {
            return None;
        }
        self.file = file;
        self.rest = JobRange {
            relation: rest.relation,
            first: rest.first + count,
            count: rest.count - count,
        };
        Some(JobRange { count, ..rest })
    }
}
