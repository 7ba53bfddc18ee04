//! How a fault is reported.
ghost use Rattle.std.specs.Prelude.{◌≡◌, ◌++◌, length, take, OnOk, OnErr};
ghost use Rattle.page_faults.specs.HeaderFaults.{fault_if};

use crate::Fault;
use std::alloc::AllocError;

/// Appends a fault where there is one. On an error the list stays as it is.
#[inline]
pub(crate) fn report(found: &mut Vec<Fault>, wrong: bool, fault: Fault) -> Result<(), AllocError>
    ensures ok { OnOk result (found.new.items ≡ found.old.items ++ fault_if wrong fault) }
    ensures prefix { take (length found.old.items) found.new.items ≡ found.old.items }
{
    if wrong {
        found.push(fault)?;
    }
    Ok(())
}
