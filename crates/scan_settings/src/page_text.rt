//! What is written of a page.

use page_faults::CheckOptions;

/// What is written of a page.
#[derive(Clone, Copy, Debug, PartialEq, Eq)]
pub enum PageText {
    /// Its header and its line pointers.
    Items,
    /// The headers of heap tuples and the update chains besides.
    Tuples,
    /// What is wrong with it, and nothing of a page without a fault.
    Faults(CheckOptions),
}
