//! What can be wrong with a page.
use crate::Lsn;
use page_check::LinePointer;

/// What is wrong with a page. Items are numbered from 1, as in `ItemPointerData`.
#[derive(Clone, Copy, Debug, PartialEq, Eq)]
pub enum Fault {
    /// The header is not sane (`PageIsVerified` of `bufpage.c`).
    Header {
        /// `pd_flags`.
        flags: u16,
        /// `pd_lower`.
        lower: u16,
        /// `pd_upper`.
        upper: u16,
        /// `pd_special`.
        special: u16,
    },
    /// The checksum is not that of the page as this block (`pg_checksum_page`).
    Checksum {
        /// As the page has it.
        stored: u16,
        /// As it is to be.
        computed: u16,
    },
    /// The page was changed behind the end of the write-ahead log (`xlog flush request .. is not
    /// satisfied`).
    Lsn {
        /// `pd_lsn`.
        lsn: Lsn,
    },
    /// Size and layout version are not 8192 and 4 (`PG_PAGE_LAYOUT_VERSION`).
    Version {
        /// `pd_pagesize_version`.
        version: u16,
    },
    /// The line pointers do not end where one ends.
    Lower {
        /// `pd_lower`.
        lower: u16,
    },
    /// A line pointer that no server writes.
    Item {
        /// Its number.
        item: u16,
        /// What it holds.
        pointer: LinePointer,
    },
    /// Two items share bytes.
    Overlap {
        /// The later one's number.
        item: u16,
        /// The number of the first item that has bytes of it.
        other: u16,
    },
    /// The tuple's data does not begin where its header ends.
    Hoff {
        /// The item's number.
        item: u16,
        /// `t_hoff`.
        hoff: u8,
        /// Where the data is to begin.
        expected: u32,
    },
    /// A MultiXact is marked committed.
    Mask {
        /// The item's number.
        item: u16,
        /// `t_infomask`.
        mask: u16,
    },
    /// The transaction that made the tuple has not begun.
    Xmin {
        /// The item's number.
        item: u16,
        /// `t_xmin`.
        xmin: u32,
    },
    /// The transaction that deleted, updated or locked the tuple has not begun.
    Xmax {
        /// The item's number.
        item: u16,
        /// `t_xmax`.
        xmax: u32,
    },
    /// The tuples name another block as their own.
    Misplaced {
        /// The block that they name.
        block: u32,
    },
}
