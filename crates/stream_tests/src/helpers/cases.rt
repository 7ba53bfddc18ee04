//! What a stream reads, and how.
ghost use Rattle.std.specs.Prelude.{◌≡◌, ◌≤◌, IsTrue};
ghost use Rattle.read_stream.specs.Desks.{AreValidSettings};

use page_check::{DamagedPages, Page, PageRules, header};
use page_fixtures::checksums::with_checksum;
use page_fixtures::files::{Faults, STEADY};
use page_fixtures::pages::numbered_page;
use read_stream::Settings;
use std::alloc::{AllocError, Global};

/// Blocks that are asked for, each with a number that is handed through beside it.
#[derive(Clone, Copy)]
pub(crate) enum Blocks<'a> {
    /// So many neighbours, from the first on, each with ten times its number.
    From(u32, u32),
    /// Every other block from 0 on, so many of them.
    EveryOther(u32),
    These(&'a [(u32, u32)]),
}

impl Blocks<'_> {
    pub(crate) fn list(&self, alloc: Global) -> Result<Vec<(u32, u32)>, AllocError> {
        let mut list = Vec::new(alloc);
        match self {
            Blocks::From(first, count) => {
                for index in 0..*count {
                    let block = first.wrapping_add(index);
                    list.push((block, block.wrapping_mul(10)))?;
                }
            }
            Blocks::EveryOther(count) => {
                for index in 0..*count {
                    list.push((index.wrapping_mul(2), 0))?;
                }
            }
            Blocks::These(these) => list.extend_from_slice(these)?,
        }
        Ok(list)
    }
}

/// One stream over one file.
#[derive(Clone, Copy)]
pub(crate) struct Case<'a> {
    /// How many blocks the file has, and which of them are damaged.
    pub blocks: u32,
    pub damaged: &'a [u32],
    /// Which of them has a sane header, and another checksum than it is to have.
    pub wrong_checksum: Option<u32>,
    pub faults: Faults<'a>,
    /// The relation that the file is, 0 or 1. The other one has a single page, which is damaged.
    pub relation: u32,
    pub handles: u32,
    pub frames: u32,
    pub settings: Settings,
    /// How the earlier stream and the other backend read.
    pub others: PageRules,
    /// What another backend has read before it submitted a read of block 0, which nobody has
    /// claimed. Without it no other backend reads.
    pub other: Option<Blocks<'a>>,
    /// What another backend does so once the stream has answered `pause` times.
    pub between: Option<Blocks<'a>>,
    pub pause: u32,
    /// What an earlier stream reads.
    pub first: Blocks<'a>,
    pub list: Blocks<'a>,
}

/// Pages are checked by their header alone, and a damaged one ends the stream.
pub(crate) const BY_HEADER: PageRules = PageRules {
    checksums: false,
    damaged: DamagedPages::Refuse,
};

/// Their checksums are verified too.
pub(crate) const VERIFIED: PageRules = PageRules {
    checksums: true,
    ..BY_HEADER
};

/// By their header alone, and zeros are given for a damaged one.
pub(crate) const ZEROING: PageRules = PageRules {
    damaged: DamagedPages::Zero,
    ..BY_HEADER
};

/// By their header alone, and a damaged one is given as it is.
pub(crate) const GIVING: PageRules = PageRules {
    damaged: DamagedPages::Give,
    ..BY_HEADER
};

pub(crate) const SETTINGS: Settings = Settings {
    combine: 16,
    ios: 16,
    limit: 64,
    full: false,
    batch: false,
    segment: 131072,
    rules: BY_HEADER,
};

pub(crate) const FULL: Settings = Settings {
    full: true,
    ..SETTINGS
};

pub(crate) const CASE: Case<'static> = Case {
    blocks: 0,
    damaged: &[],
    wrong_checksum: None,
    faults: STEADY,
    relation: 0,
    handles: 16,
    frames: 128,
    settings: SETTINGS,
    others: BY_HEADER,
    other: None,
    between: None,
    pause: 1,
    first: Blocks::These(&[]),
    list: Blocks::These(&[]),
};

impl Case<'_> {
    /// The case with the settings of the earlier stream and of the other backend.
    pub(crate) fn of_others(&self) -> Self
        ensures settings { AreValidSettings self.now.settings → AreValidSettings result.settings }
        ensures relation { result.relation ≡ self.now.relation }
    {
        let Case {
            others,
            settings,
            ..
        } = *self;
        Case {
            settings: Settings {
                rules: others,
                ..settings
            },
            ..*self
        }
    }

    /// The page of a block in the file. That with a wrong checksum has the next number.
    pub(crate) fn page_of(&self, block: u32) -> Page {
        let page = numbered_page(block, self.damaged.contains(&block));
        if self.wrong_checksum != Some(block) {
            return page;
        }
        let sum = header(&page).checksum.wrapping_add(1);
        with_checksum(page, sum)
    }
}

/// Whether a table, a pool and a desk may be opened so.
pub(crate) fn is_in_range(case: &Case<'_>) -> bool
    ensures relation { IsTrue result → case.now.relation ≤ 1 }
    ensures handles { IsTrue result → (1 ≤ case.now.handles) × (case.now.handles ≤ 64) }
    ensures frames { IsTrue result → (16 ≤ case.now.frames) × (case.now.frames ≤ 16384) }
    ensures combine { IsTrue result → (1 ≤ case.now.settings.combine)
        × (case.now.settings.combine ≤ 128) }
    ensures ios { IsTrue result → (1 ≤ case.now.settings.ios) × (case.now.settings.ios ≤ 64) }
    ensures limit { IsTrue result → (1 ≤ case.now.settings.limit)
        × (case.now.settings.limit ≤ 16384) }
    ensures segment { IsTrue result → 1 ≤ case.now.settings.segment }
{
    let Case {
        relation,
        handles,
        frames,
        settings,
        ..
    } = *case;
    let memory = 1 <= handles && handles <= 64 && 16 <= frames && frames <= 16384;
    let reads = 1 <= settings.combine && settings.combine <= 128 && 1 <= settings.segment;
    let ahead = 1 <= settings.limit && settings.limit <= 16384;
    relation <= 1 && memory && reads && ahead && 1 <= settings.ios && settings.ios <= 64
}
