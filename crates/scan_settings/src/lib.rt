//! How a scan reads: the method, and the numbers of backends, workers, handles and frames. And what
//! is written of each page.
#![tactic(auto)]

mod page_text;
mod settings;

pub use page_text::PageText;
pub use settings::{MethodKind, ScanSettings};
