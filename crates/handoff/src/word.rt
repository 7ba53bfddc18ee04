//! The word, which says where the request is.
ghost use Rattle.std.specs.Prelude.{◌≡◌, ◌<◌, ℕ};
ghost use mathlib.Core.Option.{none};
ghost use Rattle.atomic_table.specs.Table.{step, Allows};

use atomic_table::{Play, Seat, Shared, TableRule};

/// The client has the slot.
pub(crate) const IDLE: u64 = 0;

/// A request is in the slot.
pub(crate) const HAS_REQUEST: u64 = 1;

/// A server has the request, and the slot.
pub(crate) const AT_SERVER: u64 = 2;

/// A reply is in the slot.
pub(crate) const HAS_REPLY: u64 = 3;

/// The client has the slot, and servers are to return.
pub(crate) const IS_CLOSED: u64 = 4;

/// The word stands alone in its cache lines, between others that nobody reads.
pub(crate) const WORD: usize = 8;

/// All words. The one of the slot is 5 until the client has the slot.
pub(crate) const FIRST_WORDS: [u64; 17] = [0, 0, 0, 0, 0, 0, 0, 0, 5, 0, 0, 0, 0, 0, 0, 0, 0];

/// The word was changed by this thread. Only [`change_word`] makes one.
#[derive(Drop)]
pub(crate) struct WordChange(());

/// Makes the word this one, by a step of this kind.
pub(crate) fn change_word<C, V, K, P: TableRule<C, V, K>, M: Play<C, V>>(
    shared: &Shared<C, V, K, P>,
    seat: &mut Seat<C, V>,
    new: u64,
) -> WordChange
    requires same_table { (seat.old.table_id ≡ shared.now.table_id)
        × (8 < shared.now.table_id.words) }
    requires allows { Allows (P.holds shared.now.key) shared.now.table_id.slots seat.old.id
        seat.old.me 8 (λ _. new)
        (M.then (step shared.now.table_id.slots 8 new 0 none) seat.old.me) }
    ensures same { (seat.new.table_id ≡ seat.old.table_id) × (seat.new.id ≡ seat.old.id) }
    ensures told { (found : ℕ) × M.then (step shared.now.table_id.slots 8 new 0 none) seat.old.me
        found seat.new.me }
{
    shared.swap::<M>(seat, WORD, new);
    WordChange(())
}
