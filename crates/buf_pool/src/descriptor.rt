//! What a frame holds.
ghost use Rattle.std.specs.Prelude.{◌≡◌, IsTrue, ◌↔◌};
ghost use Rattle.buf_pool.specs.declared.descriptor.Descriptor.TheVariants.{InProgress};
ghost use Rattle.buf_pool.specs.Frames.{descriptor_tag, is_free, is_unpinned};

use aio_word::WaitRef;

/// A block of a relation, after `BufferTag` of `buf_internals.h`, and whether the checksum of its
/// page was verified: a page that was checked by its header alone is another one.
#[derive(Clone, Copy, Debug, PartialEq, Eq)]
pub struct Tag {
    pub relation: u32,
    pub block: u32,
    pub checksums: bool,
}

/// What a frame holds, after `BufferDesc` of `buf_internals.h`.
#[derive(Clone, Copy, Debug, PartialEq, Eq)]
pub enum Descriptor {
    /// Nothing.
    Free,
    /// The frame awaits the page of the tag, which the I/O of the reference reads.
    InProgress(Tag, WaitRef),
    /// The page of the tag, with so many pins.
    Valid(Tag, u32),
}

impl Descriptor {
    /// The tag of the entry, if there is one.
    pub(crate) fn tag(&self) -> Option<Tag>
        ensures { result ≡ descriptor_tag self.now }
    {
        match self {
            Descriptor::Free => None,
            Descriptor::InProgress(tag, _) | Descriptor::Valid(tag, _) => Some(*tag),
        }
    }

    /// Whether the frame awaits the page of the tag under the reference.
    pub(crate) fn awaits(&self, tag: Tag, reference: WaitRef) -> bool
        ensures { IsTrue result ↔ (self.now ≡ InProgress tag reference) }
    {
        *self == Descriptor::InProgress(tag, reference)
    }

    pub(crate) fn is_free(&self) -> bool
        ensures { result ≡ is_free self.now }
    {
        match self {
            Descriptor::Free => true,
            Descriptor::InProgress(..) | Descriptor::Valid(..) => false,
        }
    }

    /// Whether a valid entry without pins is there.
    pub(crate) fn is_unpinned(&self) -> bool
        ensures { result ≡ is_unpinned self.now }
    {
        match self {
            Descriptor::Free | Descriptor::InProgress(..) => false,
            Descriptor::Valid(_, pins) => *pins == 0,
        }
    }
}
