//! The line of totals.
ghost use Rattle.std.specs.Prelude.{◌≡◌, ◌++◌, OnOk, OnErr, IfOk, string_bytes};
ghost use Rattle.aio_trace.specs.TotalsText.{numbers_line, totals_line};

use aio_handle::Totals;
use std::alloc::{AllocError, Global};

/// The line `incarnations N workers W backends B` with these numbers.
pub fn numbers_text(
    alloc: Global,
    incarnations: u128,
    workers: u128,
    backends: u128,
) -> Result<String, AllocError>
    ensures { IfOk result (λ text. string_bytes text ≡ numbers_line incarnations workers backends) }
{
    format!(in alloc; "incarnations {incarnations} workers {workers} backends {backends}\n")
}

/// Appends the line `incarnations N workers W backends B`: how many incarnations the handles of a
/// closed table had, and how many of them a worker and a backend claimed. On an error, which is
/// want of memory, `out` holds what it held before.
pub fn totals_text(totals: &Totals, out: &mut Vec<u8>) -> Result<(), AllocError>
    ensures ok { OnOk result (out.new.items ≡ out.old.items ++ totals_line totals.now) }
    ensures err { OnErr result (out.new.items ≡ out.old.items) }
{
    let line = numbers_text(
        *out.allocator(),
        totals.incarnations(),
        totals.by_runners(),
        totals.by_backends(),
    )?;
    out.extend_from_slice(line.as_bytes())
}
