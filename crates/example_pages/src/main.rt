//! Pages by themselves: three pages in memory, what the check says of each, and what a good one
//! holds. No file, no disk and no thread has a part in it.
#![tactic(auto)]

ghost use Rattle.page_check.specs.Verdict.{IsValid};

use heap_scan::page_text;
use page_check::{LinePointer, Page, PageHeader, Verdict, check, count, header, line_pointer};
use std::alloc::{AllocError, Global};
use std::io;

/// Writes the bytes into the page from an offset on, as far as the page goes.
fn write_at(page: &mut Page, offset: usize, bytes: &[u8]) {
    let places = page.bytes_mut().iter_mut().skip(offset);
    for (place, byte) in places.zip(bytes) {
        *place = *byte;
    }
}

/// The four bytes of a line pointer: an offset in the low 15 bits, then two bits for its kind
/// (1 is normal, 3 is dead), then a length in the high 15 bits.
fn line_pointer_bytes(offset: u16, kind: u8, length: u16) -> [u8; 4] {
    let number = u32::from(length & 0x7fff) << 17
        | u32::from(kind & 3) << 15
        | u32::from(offset & 0x7fff);
    number.to_le_bytes()
}

/// A heap page with one item of 40 bytes, and one that is gone. Its flags are as given: 0 to 7
/// are known, and any other bit means a damaged page.
fn heap_page(alloc: Global, flags: u16) -> Result<Page, AllocError> {
    let mut page = Page::zeroed(alloc)?;
    write_at(&mut page, 10, &flags.to_le_bytes());
    // Lower: the free space begins behind the header's 24 bytes and two line pointers of 4.
    write_at(&mut page, 12, &32u16.to_le_bytes());
    // Upper: it ends where the item begins, 40 bytes before the page's end.
    write_at(&mut page, 14, &8152u16.to_le_bytes());
    // Special: a heap page has no special space, so this is its end.
    write_at(&mut page, 16, &8192u16.to_le_bytes());
    // The page's size, and the layout's version 4 in the low byte.
    write_at(&mut page, 18, &8196u16.to_le_bytes());
    write_at(&mut page, 24, &line_pointer_bytes(8152, 1, 40));
    write_at(&mut page, 28, &line_pointer_bytes(0, 3, 0));
    Ok(page)
}

/// Prints what a good page holds: first by its fields, and then as the program `aioscan` does.
///
/// A bad page has no line pointers to speak of, so the calls below ask for one that is not bad,
/// and so does this function.
fn print_page(rt: &HostRuntime, block: u32, page: &Page) -> io::Result<()>
    requires { IsValid page.now }
{
    let PageHeader { lower, upper, .. } = header(page);
    println!(rt;
        "lower {lower}, upper {upper}, {} line pointers",
        count(page)
    )?;
    for index in 0..count(page) {
        let LinePointer {
            offset,
            kind,
            length,
        } = line_pointer(page, index);
        println!(rt; "{kind:?} at {offset}, {length} bytes")?;
    }
    let mut text = Vec::new(rt.alloc());
    page_text(0, block, page, &mut text)?;
    rt.write_all(text.as_slice())
}

/// Checks a page, which stands for a block of relation 0, and prints it where it is good. Without
/// the test the call of `print_page` is refused before anything runs.
fn show(rt: &HostRuntime, block: u32, page: &Page) -> io::Result<()> {
    let verdict = check(page);
    println!(rt; "block {block}: {verdict:?}")?;
    if verdict == Verdict::Bad {
        return println!(rt; "refused");
    }
    print_page(rt, block, page)
}

fn main(rt: HostRuntime) -> io::Result<()> {
    let alloc = rt.alloc();
    show(&rt, 0, &Page::zeroed(alloc)?)?;
    show(&rt, 1, &heap_page(alloc, 0)?)?;
    show(&rt, 2, &heap_page(alloc, 8)?)
}
