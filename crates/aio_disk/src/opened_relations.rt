//! The files of disks over the same names, which are opened once.
ghost use Rattle.std.specs.Prelude.{◌≡◌, [], true, length, map, IfOk, string_bytes, string_eq};
ghost use Rattle.std.specs.Cmp.Lexicographic.{pointwise};
ghost use Rattle.aio_disk.specs.OpenFiles.{open_files};

use crate::OpenFault;
use crate::file_relation::FileRelation;
use std::alloc::{AllocError, Global};
use std::fs::File;
use std::rt::Files;

/// Relations whose files are open, with their names. Disks over the same names share the files.
#[derive(Drop)]
pub(crate) struct OpenedRelations {
    names: Vec<String>,
    relations: Vec<FileRelation>,
    ghost one_each: { length names.items ≡ length relations.items },
}

impl OpenedRelations {
    /// No relations.
    pub(crate) fn none(alloc: Global) -> OpenedRelations
        ensures { result.names.items ≡ [] }
    {
        OpenedRelations {
            names: Vec::new(alloc),
            relations: Vec::new(alloc),
        }
    }

    /// Opens the relations of these names in their order.
    pub(crate) fn open<R>(rt: &R, names: &[String]) -> Result<OpenedRelations, OpenFault>
    where
        R: Files<File = File> + AllocGlobal,
        ensures { IfOk result (λ opened.
            map string_bytes opened.names.items ≡ map string_bytes names.now) }
    {
        let mut opened_names = Vec::new(rt.alloc());
        let mut relations = Vec::new(rt.alloc());
        for name in names {
            let relation = FileRelation::open(rt, name.as_str())?;
            relations.push(relation).map_err(|_| OpenFault::Memory)?;
            let name = name.clone().map_err(|_| OpenFault::Memory)?;
            opened_names.push(name).map_err(|_| OpenFault::Memory)?;
        }
        Ok(OpenedRelations {
            names: opened_names,
            relations,
        })
    }

    /// Whether they have just these names, in this order.
    pub(crate) fn have_names(&self, names: &[String]) -> bool
        ensures same { result ≡ pointwise string_eq self.now.names.items names.now }
        ensures long { result ≡ true → length self.now.names.items ≡ length names.now }
    {
        self.names.as_slice() == names
    }

    /// The same relations once more, with the same open files.
    pub(crate) fn share(&self) -> Result<Vec<FileRelation>, AllocError>
        ensures { IfOk result (λ shared.
            open_files shared.items ≡ open_files self.now.relations.items) }
    {
        let mut shared = Vec::new(*self.names.allocator());
        for relation in &self.relations {
            shared.push(relation.share()?)?;
        }
        Ok(shared)
    }
}
