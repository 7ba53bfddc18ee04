//! A shelf of generated pages.
ghost use Rattle.std.specs.Prelude.{◌≡◌, ◌≤◌, IfOk};
ghost use Rattle.generated_pages.specs.GeneratedPages.{generated_shelf_files};

use crate::generated::make_file;
use aio_disk::SteadyShelf;
use std::alloc::{AllocError, Global};

/// A shelf of so many generated pages, which has one file.
pub fn generated_shelf(alloc: Global, pages: u32) -> Result<SteadyShelf, AllocError>
    requires { pages ≤ 4096 }
    ensures { IfOk result (λ shelf. shelf.files ≡ generated_shelf_files pages) }
{
    let mut files = Vec::with_capacity(alloc, 1)?;
    files.push((String::from_str(alloc, "made")?, make_file(alloc, pages)?))?;
    SteadyShelf::make(alloc, files, 0)
}
