//! What a record that was taken in has for one of its blocks.
ghost use Rattle.std.specs.Prelude.{◌≡◌, ◌≢◌, ◌<◌, ◌-◌, IfSome, IfNone};
ghost use Rattle.page_check.specs.declared.rules.DamagedPages.{DamagedPages};
ghost use Rattle.aio_word.specs.declared.Class.TheVariants.{Unended};
ghost use Rattle.aio_callback.specs.StreamOutcomes.{stream_ids};
ghost use Rattle.aio_callback.specs.ReadIoView.{ReadFits};
ghost use Rattle.read_stream.specs.Parts.{IsValidPart, CoversBlock};

use aio_callback::{ReadIo, laws};
use aio_result::Status;
use page_check::World;

/// Why a stream stops at a block.
#[derive(Clone, Copy, Debug, PartialEq, Eq)]
pub enum Stop {
    /// Its page is not valid.
    Invalid,
    /// It could not be read.
    Unread,
    /// The relation has no such block.
    PastEnd,
}

/// What a record has for a block.
#[derive(Clone, Copy)]
pub enum Part {
    /// Its page, or zeros in its place.
    Page,
    /// What stops the stream there.
    Stop(Stop),
}

/// What the record has for the block, which is one of those that it was to read. Nothing where the
/// read ended before it.
pub(crate) fn part_of<W: World>(io: &ReadIo, block: u32) -> Option<Part>
    requires reads_fit { ReadFits W.told W.relations io.now }
    requires has_ended { io.now.label.ended ≢ Unended }
    requires ids { (damaged : DamagedPages) × (io.now.ids ≡ stream_ids damaged) }
    requires covers_block { CoversBlock io.now block }
    ensures part { IfSome result (λ part. IsValidPart W.told io.now block part) }
    ensures rest { IfNone result (io.now.first < block) }
{
    laws::stream_records_end_in_six_ways();
    let index = block - io.first();
    let good = io.good();
    if index < good {
        return Some(Part::Page);
    }
    let result = io.result();
    if index > good {
        return None;
    }
    match result.status {
        Status::Error => {
            if result.id == 2 {
                Some(Part::Stop(Stop::Invalid))
            } else if result.error == 1 {
                Some(Part::Stop(Stop::Unread))
            } else {
                Some(Part::Stop(Stop::PastEnd))
            }
        }
        _ => None,
    }
}
