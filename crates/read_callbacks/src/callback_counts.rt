//! What the owner of a read counts once it has the result.
ghost use Rattle.std.specs.Prelude.{◌≡◌};
ghost use Rattle.read_callbacks.specs.CallbackCounts.{counts_after};

use crate::chain::{CallbackId, page_count};
use aio_result::AioResult;

/// How many I/Os and how many blocks a backend's reads came to. Each number stays at its last
/// value once there.
#[derive(Clone, Copy, Debug, PartialEq, Eq)]
pub struct Counts {
    pub ios: u64,
    pub blocks: u64,
}

/// Runs the local callbacks, of which Count is the only one.
pub fn run_local(ids: &[CallbackId], value: AioResult, counts: &mut Counts)
    ensures { counts.new ≡ counts_after ids.now value counts.old }
{
    if let [id, others @ ..] = ids {
        if matches!(id, CallbackId::Count) {
            counts.ios = counts.ios.saturating_add(1);
            counts.blocks = counts
                .blocks
                .saturating_add(page_count(value.result) as u64);
        }
        run_local(others, value, counts);
    }
}
