//! How a pool is divided into parts.
ghost use Rattle.std.specs.Prelude.{◌≡◌, ◌*◌, ◌<◌, ◌≤◌};
ghost use Rattle.buf_pool.specs.Parts.{part_count, part_size};

// The least frames of a part, and the most parts (`NUM_BUFFER_PARTITIONS` of `lwlock.h`).
const LEAST_FRAMES: u32 = 16;

const MOST_PARTS: u32 = 128;

/// How many parts a pool of so many frames has: the greatest power of two that leaves each part its
/// least frames, and no more than the most.
pub(crate) fn part_count(frames: u32) -> u32
    requires { 16 ≤ frames }
    ensures count { result ≡ part_count frames }
    ensures range { (1 ≤ result) × (16 * result ≤ frames) }
{
    1 << (frames / LEAST_FRAMES).min(MOST_PARTS).ilog2()
}

/// Which part of a pool: its number, and how many frames the pool has.
#[derive(Clone, Copy, PartialEq, Eq)]
pub(crate) struct Share {
    pub(crate) part: u32,
    pub(crate) pool_frames: u32,
}
