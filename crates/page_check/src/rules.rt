//! How pages are read, and what is said of a page that is given.

/// What becomes of a page that is not valid.
#[derive(Clone, Copy, Debug, PartialEq, Eq)]
pub enum DamagedPages {
    /// No page is given there, and reading ends.
    Refuse,
    /// Zeros are given in its place (`zero_damaged_pages`).
    Zero,
    /// It is given as it is, and marked (`ignore_checksum_failure`).
    Give,
}

/// How the pages of a scan are read. Streams, backends and jobs agree on it.
#[derive(Clone, Copy, Debug, PartialEq, Eq)]
pub struct PageRules {
    /// Whether their checksums are verified (`data_checksums`).
    pub checksums: bool,
    /// What becomes of those that are not valid.
    pub damaged: DamagedPages,
}

/// What is said of a page that is given.
#[derive(Clone, Copy, Debug, PartialEq, Eq)]
pub enum PageMark {
    /// It is valid.
    Valid,
    /// It is zeros in place of one that is not valid.
    Zeroed,
    /// It is not valid, and given as it is.
    Damaged,
}
