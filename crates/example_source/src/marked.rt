//! The blocks that a bitmap marks.
ghost use Rattle.std.specs.Prelude.{◌≡◌, ◌*◌, ◌/◌, ◌≤◌, ◌<◌, ◌^◌, length};
ghost use Rattle.example_source.specs.MarkedBlocks.{is_marked, marked_blocks};

use block_source::BlockSource;
use std::marker::Model;

/// The blocks whose bits are set in a bitmap, from the lowest bit of its first byte on.
#[derive(Drop)]
pub struct Marked {
    bits: Vec<u8>,
    // The block whose bit is looked at next, and how many bits are left from there on.
    next: u32,
    count: u32,
}

impl Model for Marked {
    ghost use Rattle.std.specs.Prelude.{List, ℕ, ◌+◌, ◌*◌, ◌^◌, ◌<◌, ◌≡◌, length};
    ghost use Rattle.example_source.specs.MarkedBlocks.{marked_blocks};

    ghost Value = { List (ℕ × Unit {0}) };

    ghost view = { λ m. marked_blocks m.bits.items m.next m.count };

    ghost invariant = { λ m. (m.next + m.count ≡ 8 * length m.bits.items)
        × (m.next + m.count < 2 ^ 32) };
}

fn is_set(bits: &[u8], block: u32) -> bool
    requires { block / 8 < length bits.now }
    ensures { result ≡ is_marked bits.now block }
{
    bits[(block / 8) as usize] >> (block % 8) & 1 == 1
}

impl Marked {
    /// A source of the blocks that are marked.
    pub fn new(bits: Vec<u8>) -> Marked
        requires { length bits.items < 2 ^ 29 }
        ensures blocks { result ≡ marked_blocks bits.items 0 (8 * length bits.items) }
        ensures few { length result < 2 ^ 32 }
    {
        let count = 8 * bits.len() as u32;
        Marked {
            bits,
            next: 0,
            count,
        }
    }
}

impl BlockSource<()> for Marked {
    ghost left = { λ m. m };

    fn next(&mut self) -> Option<(u32, ())> {
        while self.count > 0 {
            let block = self.next;
            self.next += 1;
            self.count -= 1;
            if is_set(self.bits.as_slice(), block) {
                return Some((block, ()));
            }
        }
        None
    }
}
