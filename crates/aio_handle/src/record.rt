//! What lies in the slot of a handle.
ghost use Rattle.std.specs.Prelude.{◌≡◌, ℕ, List, Option};
ghost use Rattle.page_check.specs.Told.{Told};
ghost use Rattle.aio_handle.specs.declared.record.Label.{Label};
ghost use Rattle.aio_handle.specs.Labels.{bound_label};

use aio_word::Class;

/// What a record says of itself.
#[derive(Clone, Copy)]
pub struct Label {
    pub handle: u32,
    pub generation: u64,
    pub ended: Class,
    pub settled: bool,
}

pub trait Record: Send + Drop {
    ghost label: { Self → Label };

    /// What it is to read, and into how much room.
    ghost aim: { Self → List ℕ };

    /// Whether it fits the contents of the relations, where they are told, and their number.
    ghost fits: { Option Told → ℕ → Self → Type 0 };

    fn bind(&mut self, handle: u32, generation: u64)
        ensures label { label self.new ≡ bound_label handle generation }
        ensures aim { aim self.new ≡ aim self.old }
        ensures fits { (told : Option Told) (relations : ℕ) → fits told relations self.old
            → fits told relations self.new };

    fn handle(&self) -> u32
        ensures { result ≡ (label self.now).handle };

    fn generation(&self) -> u64
        ensures { result ≡ (label self.now).generation };

    fn ended(&self) -> Class
        ensures { result ≡ (label self.now).ended };

    fn settled(&self) -> bool
        ensures { result ≡ (label self.now).settled };
}
