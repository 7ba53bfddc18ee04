//! The file of a relation.
ghost use Rattle.std.specs.Prelude.{◌≡◌, IfOk};

use aio_disk::{Disk, FileDisk, FileShelf, OpenFault, Shelf};
use std::fs::File;
use std::rt::Files;

/// Opens the file of this name, and the further segments of its relation, which are the files
/// `NAME.1`, `NAME.2` and so on (`mdopenfork` of `md.c`). The disk has it as relation 0.
///
/// `OpenFault::Device` where a file is not there or cannot be opened.
pub fn open_relation<R: Files<File = File> + AllocGlobal>(
    rt: &R,
    name: String,
) -> Result<FileDisk, OpenFault>
    ensures relations { IfOk result (λ disk. ⟦<FileDisk as Disk>⟧.relations disk ≡ 1) }
    ensures no_faults { IfOk result (λ disk. ⟦<FileDisk as Disk>⟧.faults disk ≡ 0) }
{
    match vec![in rt.alloc(); name] {
        Ok(names) => FileShelf::new(rt).open(names.as_slice()),
        Err(_) => Err(OpenFault::Memory),
    }
}
