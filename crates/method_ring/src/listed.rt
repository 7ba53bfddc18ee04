//! Elements that are looked up by a number.
ghost use Rattle.std.specs.Prelude.{◌≡◌, ℕ, vec_capacity};
ghost use Rattle.method_ring.specs.Numbered.{first_with_number, without_number};

/// Something with a number.
pub(crate) trait Numbered {
    ghost number: { Self → ℕ };

    fn user(&self) -> u32
        ensures { result ≡ number self.now };
}

/// Takes the first element with the number out. The others stay in their order.
pub(crate) fn take_out<T: Numbered>(items: &mut Vec<T>, user: u32) -> Option<T>
    ensures result_is { result ≡ first_with_number T.number user items.old.items }
    ensures others { items.new.items ≡ without_number T.number user items.old.items }
    ensures room { vec_capacity items.new ≡ vec_capacity items.old }
{
    for index in 0..items.len() {
        if items[index].user() == user {
            return Some(items.remove(index));
        }
    }
    None
}
