//! The buffer pool: which block of which relation lies in which frame.
//!
//! [`PoolIndex`] is PostgreSQL's buffer mapping: it says of each frame whether it is free, awaits
//! the page of a tag under the wait reference of an I/O, or has the page of a tag, with some pins.
//! Its contracts are exact on the list of what the frames hold, by the frames' numbers, and
//! `PoolLawful` of `specs/PoolLawful.antt` holds of it after each call. All its memory is taken at
//! `open`.
//!
//! [`Pool`] is up to 128 such indexes, its parts, each behind a lock of its own. A tag falls to one
//! part, and an index has entries of no other (`specs/Parts.antt`). Frames are counted through the
//! pool, and each part has its own. The memory of a frame is a page in place, which many may read
//! or one may write. It carries no tag, or the tag whose told, valid page it is (`Carries` of
//! `specs/FrameMemory.antt`).
//!
//! The pool's contracts say what the values that it hands out show, whatever other threads do. A
//! [`Pin`] shows the told, valid page of the tag that was asked for. The reference of a Busy is in
//! range. A frame is one of the tag's part. Completed reads hand their pages to `&Pool`, by the
//! trait `Places` of aio_callback. No call of the pool but `open` takes memory.
#![tactic(auto)]

mod carried_page;
mod descriptor;
mod index;
mod laws;
mod memory;
mod part;
mod part_index;
mod pin;
mod pool;
mod share;
mod slot;
mod strategy;
mod table;

pub use descriptor::{Descriptor, Tag};
pub use index::{Begun, Look, PoolIndex};
pub use laws::{a_frame_is_of_one_part, a_tag_is_of_one_part};
pub use pin::Pin;
pub use pool::{Found, Pool};
