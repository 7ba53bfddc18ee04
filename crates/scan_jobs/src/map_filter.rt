//! The blocks that a scan by the visibility map leaves out.
use block_source::BlockTest;
use vis_map::{Skip, VisMap};

/// A map, and which of the blocks that it marks are left out.
#[derive(Clone, Copy)]
pub struct MapFilter<'m> {
    pub map: &'m VisMap,
    pub skip: Skip,
}

/// Accepts the blocks that are not left out: all, where there is no map.
#[derive(Drop)]
pub(crate) struct UnskippedTest<'m> {
    pub(crate) by_map: Option<MapFilter<'m>>,
}

impl BlockTest for UnskippedTest<'_> {
    ghost use Rattle.scan_jobs.specs.BlockFilter.{is_unskipped, filter_of_skipping};

    ghost accepts = { λ k block. is_unskipped (filter_of_skipping k.by_map) block };

    fn is_accepted(&self, block: u32) -> bool {
        match self.by_map {
            None => true,
            Some(MapFilter { map, skip }) => !map.skips(block, skip),
        }
    }
}
