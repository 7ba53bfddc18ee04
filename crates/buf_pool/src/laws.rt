//! Laws on the parts of a pool, each the contract of a function that does nothing.
ghost use Rattle.std.specs.Prelude.{◌≡◌, ◌<◌, ◌≤◌, ℕ, List, Some};
ghost use Rattle.buf_pool.specs.declared.descriptor.Tag.{Tag};
ghost use Rattle.buf_pool.specs.declared.descriptor.Descriptor.{Descriptor};
ghost use Rattle.buf_pool.specs.declared.share.Share.{Share};
ghost use Rattle.buf_pool.specs.Frames.{tag_at};
ghost use Rattle.buf_pool.specs.Parts.{part_count, part_of, IsFrameFor, HasOwnTags};

/// A frame number names a frame of one part alone, and is below the number of the pool's frames.
pub fn a_frame_is_of_one_part()
    ensures one { (frames f : ℕ) (t u : Tag) → IsFrameFor frames t f → IsFrameFor frames u f
        → part_of (part_count frames) t ≡ part_of (part_count frames) u }
    ensures below { (frames f : ℕ) (t : Tag) → 16 ≤ frames → IsFrameFor frames t f → f < frames }
{}

/// No tag has entries in the indexes of two parts.
pub fn a_tag_is_of_one_part()
    ensures { (one other : Share) (xs ys : List Descriptor) (f g : ℕ) (tag : Tag)
        → one.pool_frames ≡ other.pool_frames → HasOwnTags one xs → HasOwnTags other ys
        → tag_at xs f ≡ Some tag → tag_at ys g ≡ Some tag → one.part ≡ other.part }
{}
