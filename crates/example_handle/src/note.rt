//! What lies in the slot of the handle.
ghost use Rattle.std.specs.Prelude.{◌≡◌};
ghost use Rattle.aio_handle.specs.Labels.{bound_label};

use aio_handle::{Label, Record};
use aio_word::Class;

/// The record of an "I/O" that reads no disk: who executes it doubles a number.
#[derive(Drop)]
pub struct Note {
    pub label: Label,
    pub number: u32,
    pub doubled: u64,
}

impl Note {
    /// A note about this number, for no handle yet.
    pub fn about(number: u32) -> Note
        ensures { (result.label ≡ bound_label 0 0) × (result.number ≡ number) }
    {
        Note {
            label: Label {
                handle: 0,
                generation: 0,
                ended: Class::Unended,
                settled: false,
            },
            number,
            doubled: 0,
        }
    }
}

impl Record for Note {
    ghost use Rattle.std.specs.Prelude.{[], ◌∷◌, ◌≡◌, ◌≢◌, ◌*◌};
    ghost use Rattle.aio_word.specs.declared.Class.TheVariants.{Unended};

    ghost label = { λ note. note.label };

    /// What it is about: whoever takes the record out has one about the number that was submitted.
    ghost aim = { λ note. note.number ∷ [] };

    /// What each record keeps that is handed to the table: once ended, it has the double.
    ghost fits = { λ _ _ note. note.label.ended ≢ Unended → note.doubled ≡ 2 * note.number };

    fn bind(&mut self, handle: u32, generation: u64) {
        self.label = Label {
            handle,
            generation,
            ended: Class::Unended,
            settled: false,
        };
    }

    fn handle(&self) -> u32 {
        self.label.handle
    }

    fn generation(&self) -> u64 {
        self.label.generation
    }

    fn ended(&self) -> Class {
        self.label.ended
    }

    fn settled(&self) -> bool {
        self.label.settled
    }
}
