//! How pages are read.
ghost use Rattle.std.specs.Prelude.{◌≡◌, ◌<◌};
ghost use Rattle.read_stream.specs.Desks.{AreValidSettings};
ghost use Rattle.page_reader.specs.Settings.{IsReadable, default_rules};

use page_check::{DamagedPages, PageRules};
use read_stream::Settings;

/// How pages are read. [`ReaderSettings::new`] has the defaults.
#[derive(Clone, Copy, Debug, PartialEq, Eq)]
pub struct ReaderSettings {
    /// The most blocks of one read, 1 to 128 (`io_combine_limit`).
    pub combine: u32,
    /// The most reads under way, 1 to 64 (`effective_io_concurrency`).
    pub concurrency: u32,
    /// The pages that are kept in memory, 16 to 16384 (`shared_buffers`).
    pub frames: u32,
    /// Whether checksums are verified, and what becomes of damaged pages.
    pub rules: PageRules,
}

impl ReaderSettings {
    /// Up to 16 blocks in one read, 16 reads under way, 128 frames. Checksums are not verified, and
    /// a damaged page ends the reading.
    pub fn new() -> ReaderSettings
        ensures readable { IsReadable result }
        ensures rules { result.rules ≡ default_rules }
    {
        ReaderSettings {
            combine: 16,
            concurrency: 16,
            frames: 128,
            rules: PageRules {
                checksums: false,
                damaged: DamagedPages::Refuse,
            },
        }
    }

    // The settings of a stream, over a disk with segments of so many blocks.
    pub(crate) fn of_stream(&self, segment: u32) -> Settings
        requires readable { IsReadable self.now }
        requires segment { 0 < segment }
        ensures valid { AreValidSettings result }
        ensures rules { result.rules ≡ self.now.rules }
    {
        Settings {
            combine: self.combine,
            ios: self.concurrency,
            limit: self.frames,
            full: false,
            batch: false,
            segment,
            rules: self.rules,
        }
    }
}
