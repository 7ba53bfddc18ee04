//! Files in memory that disks share.
ghost use Rattle.std.specs.Prelude.{◌≡◌, map, IfOk, IfSome, OnSome, IfNone, string_bytes};
ghost use Rattle.std.specs.Option.{option_map};
ghost use Rattle.aio_disk.specs.Shelf.{file_contents, file_segments, named_file, AllThere};
ghost use Rattle.aio_disk.specs.Shelf.{OneMissing};

use crate::segments::{Segments, find_segments};
use std::alloc::{AllocError, Global};
use std::marker::Model;
use std::sync::Arc;

/// The bytes of a file, which the shelf and its disks share.
#[derive(Drop)]
pub(crate) struct SharedBytes {
    bytes: Arc<Vec<u8>, Global>,
}

impl Model for SharedBytes {
    ghost use Rattle.std.specs.Prelude.{List, ℕ};
    ghost use Rattle.std.specs.Arc.{arc_value};

    ghost Value = { List ℕ };

    ghost view = { λ shared. (arc_value shared.bytes).items };
}

impl SharedBytes {
    pub(crate) fn new(alloc: Global, bytes: Vec<u8>) -> Result<SharedBytes, AllocError>
        ensures { IfOk result (λ shared. shared ≡ bytes.items) }
    {
        Ok(SharedBytes {
            bytes: Arc::new(alloc, bytes)?,
        })
    }

    /// The same bytes once more.
    pub(crate) fn share(&self) -> Result<SharedBytes, AllocError>
        ensures { IfOk result (λ shared. shared ≡ self.now) }
    {
        Ok(SharedBytes {
            bytes: Arc::try_clone(&self.bytes)?,
        })
    }

    pub(crate) fn as_slice(&self) -> &[u8]
        ensures { result.now ≡ self.now }
    {
        self.bytes.as_slice()
    }
}

/// A file of a shelf.
#[derive(Drop)]
pub(crate) struct NamedFile {
    name: String,
    contents: SharedBytes,
}

impl Model for NamedFile {
    ghost use Rattle.std.specs.Prelude.{List, ℕ, string_bytes};

    ghost Value = { List ℕ × List ℕ };

    ghost view = { λ file. (string_bytes file.name, file.contents) };
}

/// The bytes of the file of this name.
pub(crate) fn find_file<'a>(files: &'a [NamedFile], name: &str) -> Option<&'a SharedBytes>
    ensures { option_map (λ found. found.now) result ≡ file_contents files.now name.now }
{
    files
        .iter()
        .find(|file| file.name.as_str() == name)
        .map(|file| &file.contents)
}

/// The relations of these names in their order, or nothing where a name is not there.
pub(crate) fn find_relations(
    alloc: Global,
    files: &[NamedFile],
    names: &[String],
) -> Result<Option<Vec<Segments>>, AllocError>
    ensures found { IfOk result (λ answer. IfSome answer (λ found.
        found.items ≡ map (file_segments files.now) (map string_bytes names.now))) }
    ensures all_there { IfOk result (λ answer.
        OnSome answer (AllThere files.now (map string_bytes names.now))) }
    ensures missing { IfOk result (λ answer.
        IfNone answer (OneMissing files.now (map string_bytes names.now))) }
{
    let mut found = Vec::new(alloc);
    for name in names {
        if find_file(files, name.as_str()).is_none() {
            return Ok(None);
        }
        found.push(find_segments(alloc, files, name.as_str())?)?;
    }
    Ok(Some(found))
}

// The files of a shelf.
pub(crate) fn share_files(
    alloc: Global,
    files: Vec<(String, Vec<u8>)>,
) -> Result<Vec<NamedFile>, AllocError>
    ensures { IfOk result (λ shared. shared.items ≡ map named_file files.items) }
{
    let mut shared = Vec::new(alloc);
    for (name, bytes) in files {
        let contents = SharedBytes::new(alloc, bytes)?;
        shared.push(NamedFile { name, contents })?;
    }
    Ok(shared)
}
