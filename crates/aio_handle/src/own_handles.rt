//! What an actor remembers of its own handles, so that no call reads a word to find a free one.
ghost use Rattle.std.specs.Prelude.{◌≡◌, ◌<◌, ◌≤◌, ◌↔◌, ◌%◌, ℕ};
ghost use Rattle.std.specs.Prelude.{IsTrue, IfSome, IfNone, length, slice_set};
ghost use Rattle.aio_word.specs.Words.{last_generation};
ghost use Rattle.aio_handle.specs.declared.own_handles.OwnHandle.{OwnHandle};
ghost use Rattle.aio_handle.specs.OwnHandles.{own_at, IsFreeHandle, HasRoom};

use aio_word::LAST_GENERATION;

/// One of the actor's own handles: its generation, and whether that is defined.
#[derive(Clone, Copy)]
pub struct OwnHandle {
    pub generation: u64,
    pub is_defined: bool,
}

impl OwnHandle {
    fn is_free(self) -> bool
        ensures { IsTrue result ↔ IsFreeHandle self }
    {
        !self.is_defined && self.generation < LAST_GENERATION
    }
}

/// The first place from `from` to below `to` whose handle is free.
fn find_free(own: &[OwnHandle], from: usize, to: usize) -> Option<usize>
    requires range { to ≤ length own.now }
    ensures some { IfSome result (λ k. (k < to) × IsFreeHandle (own_at own.now k)) }
    ensures none { IfNone result
        ((k : ℕ) → from ≤ k → k < to → IsFreeHandle (own_at own.now k) → ⊥) }
{
    for k in from..to {
        if own[k].is_free() {
            return Some(k);
        }
    }
    None
}

/// The place of a handle that is free: the first from `from` on, else the first before it.
pub(crate) fn next_free(own: &[OwnHandle], from: usize) -> Option<usize>
    requires range { from ≤ length own.now }
    ensures some { IfSome result (λ k. (k < length own.now) × IsFreeHandle (own_at own.now k)) }
    ensures none { IfNone result
        ((k : ℕ) → k < length own.now → IsFreeHandle (own_at own.now k) → ⊥) }
{
    match find_free(own, from, own.len()) {
        Some(place) => Some(place),
        None => find_free(own, 0, from),
    }
}

/// How many more lives each of these handles can have.
pub(crate) fn room_of(own: &[OwnHandle]) -> u64
    requires bound { (k : ℕ) → k < length own.now
        → (own_at own.now k).generation ≤ last_generation }
    ensures { HasRoom own.now result }
{
    let Some(first) = own.first() else {
        return 0;
    };
    let mut greatest = first.generation;
    for handle in own {
        greatest = greatest.max(handle.generation);
    }
    LAST_GENERATION - greatest
}

/// The place of a handle among those of its owner.
pub(crate) fn place_of(per_backend: u32, handle: u32) -> usize
    requires some { 0 < per_backend }
    ensures value { result ≡ handle % per_backend }
    ensures below { result < per_backend }
{
    (handle % per_backend) as usize
}

/// Remembers this of one of the own handles.
pub(crate) fn remember(own: &mut Vec<OwnHandle>, per_backend: u32, handle: u32, life: OwnHandle)
    requires some { 0 < per_backend }
    requires range { handle % per_backend < length own.old.items }
    ensures { own.new.items ≡ slice_set own.old.items (handle % per_backend) life }
{
    own[place_of(per_backend, handle)] = life;
}
