//! The line that warns of a page that was given as zeros.
ghost use Rattle.std.specs.Prelude.{◌≡◌, ◌++◌, ◌<◌, ◌≤◌, ◌+◌, length, drop};
ghost use Rattle.std.specs.Prelude.{OnOk, OnErr};
ghost use Rattle.heap_scan.specs.Warnings.{warning_line};

use crate::backward::{put, put_number};
use std::alloc::AllocError;

/// At most so many bytes has the line of a warning.
const WARNING_ROOM: usize = 40;

// Writes the line at the end of the buffer, and says where it starts.
fn put_warning(buf: &mut [u8], relation: u32, block: u32) -> usize
    requires { 40 ≤ length buf.old }
    ensures start { result ≤ length buf.new }
    ensures written { drop result buf.new ≡ warning_line relation block }
{
    let at = put(buf, buf.len(), b"\n");
    let at = put_number(buf, at, block);
    let at = put(buf, at, b" ");
    let at = put_number(buf, at, relation);
    put(buf, at, b"zeroed page ")
}

/// Appends the warning that the block's page was invalid and is given as zeros: the line
/// `zeroed page R B`. On an error, which is want of memory, `out` holds what it held before.
///
/// It takes memory where `out` has to grow.
pub fn warning_text(relation: u32, block: u32, out: &mut Vec<u8>) -> Result<(), AllocError>
    ensures ok { OnOk result (out.new.items ≡ out.old.items ++ warning_line relation block) }
    ensures err { OnErr result (out.new.items ≡ out.old.items) }
{
    let mut text = [0u8; WARNING_ROOM];
    let start = put_warning(&mut text, relation, block);
    out.extend_from_slice(&text[start..])
}
