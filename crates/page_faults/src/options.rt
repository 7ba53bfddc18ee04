//! What a check goes by besides the page.

/// A place in the write-ahead log, as a page has it (`PageXLogRecPtr` of `bufpage.h`).
#[derive(Clone, Copy, Debug, PartialEq, Eq)]
pub struct Lsn {
    /// `xlogid`: the high 32 bits.
    pub high: u32,
    /// `xrecoff`: the low 32 bits.
    pub low: u32,
}

/// What a check goes by besides the page. Each rule that asks for one of these is left out without
/// it.
#[derive(Clone, Copy, Debug, PartialEq, Eq)]
pub struct CheckOptions {
    /// Whether the pages have checksums.
    pub checksums: bool,
    /// Where the write-ahead log ends: no page was changed behind it.
    pub end_lsn: Option<Lsn>,
    /// The next transaction that the cluster would begin (`NextXID` of pg_controldata, without the
    /// epoch).
    pub next_xid: Option<u32>,
}
