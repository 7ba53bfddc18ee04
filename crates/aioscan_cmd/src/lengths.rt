//! The lengths of the relations, taken before any block is read.
ghost use Rattle.std.specs.Prelude.{◌≡◌, ◌<◌, ◌≤◌, ℕ, IsErrOf, MatchResult};
ghost use Rattle.aio_disk.specs.Counts.{CountRose};
ghost use Rattle.run_report.specs.Lengths.{HasAllLengths, LengthsFailed};

use crate::Outcome;
use aio_disk::Disk;
use std::alloc::Global;

/// A relation may have the blocks of so many segments.
const SEGMENTS: u32 = 16;

/// Takes the length of each relation in order, and tests it before it takes the next.
pub(crate) fn take_lengths<D: Disk>(
    alloc: Global,
    disk: &mut D,
    relations: u32,
) -> Result<Vec<u32>, Outcome>
    requires { relations ≡ D.relations disk.old }
    ensures lengths { MatchResult result
        (λ lengths. HasAllLengths (D.told disk.old) (D.segment disk.old) relations lengths.items)
        (λ outcome. LengthsFailed (D.told disk.old) (D.segment disk.old) relations outcome) }
    ensures later { D.length_faults disk.old ≤ D.length_faults disk.new }
    ensures no_length { (r : ℕ) → IsErrOf result (Outcome.NoLength r)
        → CountRose (D.length_faults disk.old) (D.length_faults disk.new) }
    ensures told { D.told disk.new ≡ D.told disk.old }
    ensures relations { D.relations disk.new ≡ D.relations disk.old }
    ensures segment { D.segment disk.new ≡ D.segment disk.old }
    ensures faults { D.faults disk.new ≡ D.faults disk.old }
    ensures reads { D.reads disk.new ≡ D.reads disk.old }
{
    let Ok(mut lengths) = Vec::with_capacity(alloc, relations as usize) else {
        return Err(Outcome::NoMemory);
    };
    let limit = SEGMENTS * disk.segment();
    for relation in 0..relations {
        let Ok(length) = disk.blocks(relation) else {
            return Err(Outcome::NoLength(relation));
        };
        if length > limit {
            return Err(Outcome::TooLong(relation));
        }
        if lengths.push(length).is_err() {
            return Err(Outcome::NoMemory);
        }
    }
    Ok(lengths)
}
