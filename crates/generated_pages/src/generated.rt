//! Generated pages, as input that needs no file.
ghost use Rattle.std.specs.Prelude.{◌≡◌, ◌++◌, ◌<◌, ◌≤◌, OnOk, IfOk, replicate};
ghost use Rattle.generated_pages.specs.GeneratedPages.{four_bytes, generated_file, generated_header};
ghost use Rattle.generated_pages.specs.GeneratedPages.{generated_page, generated_pointer_bytes};
ghost use Rattle.generated_pages.specs.GeneratedPages.{page_with_items, two_bytes};

use page_check::Page;
use std::alloc::{AllocError, Global};

// So many bytes of a page of zeros.
fn zero_bytes(zeros: &Page, count: usize) -> &[u8]
    requires zeros { zeros.now ≡ replicate 8192 0 }
    requires count { count ≤ 8192 }
    ensures { result.now ≡ replicate count 0 }
{
    &zeros.bytes()[..count]
}

fn put_zeros(out: &mut Vec<u8>, zeros: &Page, count: usize) -> Result<(), AllocError>
    requires zeros { zeros.now ≡ replicate 8192 0 }
    requires count { count ≤ 8192 }
    ensures { OnOk result (out.new.items ≡ out.old.items ++ replicate count 0) }
{
    out.extend_from_slice(zero_bytes(zeros, count))
}

fn put_u16(out: &mut Vec<u8>, number: u16) -> Result<(), AllocError>
    ensures { OnOk result (out.new.items ≡ out.old.items ++ two_bytes number) }
{
    out.extend_from_slice(&[(number % 256) as u8, (number / 256) as u8])
}

fn put_u32(out: &mut Vec<u8>, number: u32) -> Result<(), AllocError>
    ensures { OnOk result (out.new.items ≡ out.old.items ++ four_bytes number) }
{
    put_u16(out, (number % 65536) as u16)?;
    put_u16(out, (number / 65536) as u16)
}

fn put_header(out: &mut Vec<u8>, zeros: &Page, items: u16) -> Result<(), AllocError>
    requires zeros { zeros.now ≡ replicate 8192 0 }
    requires items { items < 5 }
    ensures { OnOk result (out.new.items ≡ out.old.items ++ generated_header items) }
{
    put_zeros(out, zeros, 12)?;
    put_u16(out, 24 + 4 * items)?;
    put_u16(out, 8192 - 32 * items)?;
    put_u16(out, 8192)?;
    put_u16(out, 8196)?;
    put_zeros(out, zeros, 4)
}

// The line pointers: normal items of 32 bytes, from the end of the page down.
fn put_pointers(out: &mut Vec<u8>, items: u16) -> Result<(), AllocError>
    requires { items < 5 }
    ensures { OnOk result (out.new.items ≡ out.old.items ++ generated_pointer_bytes items) }
{
    for index in 0..items {
        let offset = 8192 - 32 * (u32::from(index) + 1);
        put_u32(out, offset + (1 << 15) + (32 << 17))?;
    }
    Ok(())
}

fn put_page(out: &mut Vec<u8>, zeros: &Page, items: u16) -> Result<(), AllocError>
    requires zeros { zeros.now ≡ replicate 8192 0 }
    requires items { items < 5 }
    ensures { OnOk result (out.new.items ≡ out.old.items ++ page_with_items items) }
{
    put_header(out, zeros, items)?;
    put_pointers(out, items)?;
    put_zeros(out, zeros, 8168 - 4 * usize::from(items))
}

// The page of a block.
#[tactic(auto, unfolding(crate::specs::GeneratedPages::generated_page))]
fn put_block(out: &mut Vec<u8>, zeros: &Page, block: u32) -> Result<(), AllocError>
    requires { zeros.now ≡ replicate 8192 0 }
    ensures { OnOk result (out.new.items ≡ out.old.items ++ generated_page block) }
{
    if block % 7 == 6 {
        put_zeros(out, zeros, 8192)
    } else {
        put_page(out, zeros, (block % 5) as u16)
    }
}

/// The bytes of a relation of so many generated pages, in one allocation. A page whose block is 6
/// modulo 7 is all zeros; another has as many items as its block modulo 5.
pub(crate) fn make_file(alloc: Global, pages: u32) -> Result<Vec<u8>, AllocError>
    requires { pages ≤ 4096 }
    ensures { IfOk result (λ file. file.items ≡ generated_file pages) }
{
    let zeros = Page::zeroed(alloc)?;
    let mut file = Vec::with_capacity(alloc, 8192 * pages as usize)?;
    for block in 0..pages {
        put_block(&mut file, &zeros, block)?;
    }
    Ok(file)
}
