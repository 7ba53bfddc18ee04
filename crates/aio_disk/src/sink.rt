//! Sinks: where text goes.
ghost use Rattle.std.specs.Prelude.{◌≤◌, ℕ, List, Option, IsErrOf};
ghost use Rattle.aio_disk.specs.declared.fault.WriteFault.TheVariants.{Device};
ghost use Rattle.aio_disk.specs.Counts.{CountRose};
ghost use Rattle.aio_disk.specs.Sink.{SinkTakes};

use crate::WriteFault;

/// Where bytes are written.
pub trait Sink {
    /// The bytes that it took, where it tells them.
    ghost written: { Self → Option (List ℕ) };

    /// How often a write has failed.
    ghost faults: { Self → ℕ };

    /// Writes all the bytes. After an error some of them may be written, from the front.
    fn write(&mut self, bytes: &[u8]) -> Result<(), WriteFault>
        ensures bytes { SinkTakes (written self.old) (written self.new) result bytes.now }
        ensures later { faults self.old ≤ faults self.new }
        ensures device { IsErrOf result Device → CountRose (faults self.old) (faults self.new) };
}
