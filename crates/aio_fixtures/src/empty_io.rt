//! The record of an I/O that reads nothing.
ghost use Rattle.std.specs.Prelude.{◌≡◌};
ghost use Rattle.aio_handle.specs.Labels.{bound_label};

use aio_handle::{Label, Record};
use aio_word::Class;

/// A record that reads nothing. It has its label, and counts how often it was bound to a handle.
#[derive(Drop)]
pub struct EmptyIo {
    pub label: Label,
    pub binds: u32,
}

impl EmptyIo {
    /// A record for no handle yet.
    pub fn new() -> EmptyIo
        ensures { result.label ≡ bound_label 0 0 }
    {
        EmptyIo {
            label: Label {
                handle: 0,
                generation: 0,
                ended: Class::Unended,
                settled: false,
            },
            binds: 0,
        }
    }
}

impl Record for EmptyIo {
    ghost use Rattle.std.specs.Prelude.{[]};

    ghost label = { λ io. io.label };

    ghost aim = { λ _. [] };

    ghost fits = { λ _ _ _. Unit {0} };

    fn bind(&mut self, handle: u32, generation: u64) {
        self.label = Label {
            handle,
            generation,
            ended: Class::Unended,
            settled: false,
        };
        self.binds = self.binds.saturating_add(1);
    }

    fn handle(&self) -> u32 {
        self.label.handle
    }

    fn generation(&self) -> u64 {
        self.label.generation
    }

    fn ended(&self) -> Class {
        self.label.ended
    }

    fn settled(&self) -> bool {
        self.label.settled
    }
}
