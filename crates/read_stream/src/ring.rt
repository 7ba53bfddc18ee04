//! Queues with room for what is pushed.
ghost use Rattle.std.specs.Prelude.{◌≡◌, ◌<◌, ◌++◌, [], ◌∷◌, length};
ghost use Rattle.circular_buffer.specs.Buffer.{buffer};

use circular_buffer::HeapCircularBuffer;

/// Puts the item behind the others.
pub(crate) fn push<T: Drop>(queue: &mut HeapCircularBuffer<T>, item: T)
    requires { length queue.old.items < queue.old.capacity }
    ensures { queue.new ≡ buffer (queue.old.items ++ item ∷ []) queue.old.capacity }
{
    if queue.try_push_back(item).is_err() {
        unreachable!()
    }
}

/// Puts the item before the others.
pub(crate) fn push_front<T: Drop>(queue: &mut HeapCircularBuffer<T>, item: T)
    requires { length queue.old.items < queue.old.capacity }
    ensures { queue.new ≡ buffer (item ∷ queue.old.items) queue.old.capacity }
{
    if queue.try_push_front(item).is_err() {
        unreachable!()
    }
}
