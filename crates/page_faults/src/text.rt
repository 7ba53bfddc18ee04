//! The text of a page's faults.
ghost use Rattle.std.specs.Prelude.{◌≡◌, ◌≤◌, ◌++◌, length, take, OnOk, OnErr, IfOk};
ghost use Rattle.page_faults.specs.Faults.{faults_of};
ghost use Rattle.page_faults.specs.FaultsText.{fault_line, fault_lines, faults_text_of};

use crate::lines::{LINE_ROOM, put_fault};
use crate::{CheckOptions, Fault, faults};
use page_check::Page;
use std::alloc::AllocError;

// Appends the line of a fault.
fn fault_text(relation: u32, block: u32, fault: Fault, out: &mut Vec<u8>) -> Result<(), AllocError>
    ensures ok { OnOk result (out.new.items ≡ out.old.items ++ fault_line relation block fault) }
    ensures prefix { take (length out.old.items) out.new.items ≡ out.old.items }
{
    let mut line = [0; LINE_ROOM];
    let start = put_fault(&mut line, relation, block, fault);
    out.extend_from_slice(&line[start..])
}

// Appends the lines one after the other. On an error the first may have been appended.
fn append(relation: u32, block: u32, faults: &[Fault], out: &mut Vec<u8>) -> Result<(), AllocError>
    ensures ok { OnOk result
        (out.new.items ≡ out.old.items ++ fault_lines relation block faults.now) }
    ensures prefix { take (length out.old.items) out.new.items ≡ out.old.items }
{
    for fault in faults {
        fault_text(relation, block, *fault, out)?;
    }
    Ok(())
}

// Appends the lines of faults, or nothing.
fn append_all(
    relation: u32,
    block: u32,
    faults: &[Fault],
    out: &mut Vec<u8>,
) -> Result<(), AllocError>
    ensures ok { OnOk result
        (out.new.items ≡ out.old.items ++ fault_lines relation block faults.now) }
    ensures err { OnErr result (out.new.items ≡ out.old.items) }
{
    let before = out.len();
    match append(relation, block, faults, out) {
        Ok(()) => Ok(()),
        Err(error) => {
            out.truncate(before);
            Err(error)
        }
    }
}

/// Appends a line for each fault of the page of a block, and says how many there are: nothing for
/// a good page. Any 8192 bytes will do. On an error, which is want of memory, `out` holds what it
/// held before.
///
/// A page without a fault takes no memory. Any other one takes what `out` has to grow by, and until
/// the call returns a list of its faults.
#[tactic(auto, unfolding(crate::specs::FaultsText::faults_text_of))]
pub fn faults_text(
    options: &CheckOptions,
    relation: u32,
    block: u32,
    page: &Page,
    out: &mut Vec<u8>,
) -> Result<usize, AllocError>
    ensures ok { OnOk result
        (out.new.items ≡ out.old.items ++ faults_text_of options.now relation block page.now) }
    ensures count { IfOk result (λ count. count ≡ length (faults_of options.now block page.now)) }
    ensures few { IfOk result (λ count. count ≤ 8200) }
    ensures err { OnErr result (out.new.items ≡ out.old.items) }
{
    let mut found = Vec::new(*out.allocator());
    faults(options, block, page, &mut found)?;
    append_all(relation, block, &found, out)?;
    Ok(found.len())
}
