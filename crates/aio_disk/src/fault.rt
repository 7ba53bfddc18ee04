//! The faults of the outside, and their counts.
ghost use Rattle.std.specs.Prelude.{◌≡◌, if◌then◌else◌, is_err};
ghost use Rattle.aio_disk.specs.Counts.{count_plus};

use thiserror::Error;

/// A device failed at a length or a read. The disk has counted it.
#[derive(Clone, Copy, Debug, Error)]
#[error("device fault")]
pub struct DeviceFault;

/// Why a disk could not be opened.
#[derive(Clone, Copy, Debug, Error)]
pub enum OpenFault {
    /// A name is not there, or its device failed. The shelf has counted it.
    #[error("device fault")]
    Device,
    /// There was no memory for the disk.
    #[error("out of memory")]
    Memory,
}

/// Why bytes could not be written.
#[derive(Clone, Copy, Debug, Error)]
pub enum WriteFault {
    /// The device failed. The sink has counted it.
    #[error("device fault")]
    Device,
    /// There was no memory to keep the bytes in.
    #[error("out of memory")]
    Memory,
}

/// The answer, counted where it is an error.
pub(crate) fn counted<T, E>(answer: Result<T, E>, faults: &mut u64) -> Result<T, E>
    ensures same { result ≡ answer }
    ensures count { faults.new ≡ (if is_err answer then count_plus 1 faults.old else faults.old) }
{
    if answer.is_err() {
        *faults = faults.saturating_add(1);
    }
    answer
}
