//! The check of a page.
ghost use Rattle.std.specs.Prelude.{◌≡◌, ◌↔◌, IsTrue, All};
ghost use Rattle.page_check.specs.Fields.{header_of};
ghost use Rattle.page_check.specs.Verdict.{verdict_of, is_sane, is_all_zero};

use crate::{Page, PageHeader, header};

/// What the check of a page says. A page is valid where this is not `Bad`.
#[derive(Clone, Copy, Debug, PartialEq, Eq)]
pub enum Verdict {
    /// All bytes are zero: a page that was never initialized.
    Zero,
    /// The page is not new, and its header is sane.
    Sane,
    /// Neither.
    Bad,
}

/// Checks a page as `PageIsVerified` of `bufpage.c` does with checksums off.
pub fn check(page: &Page) -> Verdict
    ensures verdict { result ≡ verdict_of page.now }

    // When each answer comes, in plain words; the two good ones exclude each other.
    ensures zero { (result ≡ Verdict.Zero) ↔ All (λ byte. byte ≡ 0) page.now }
    ensures sane { (result ≡ Verdict.Sane) ↔ IsTrue (is_sane (header_of page.now)) }
    ensures exclusive { All (λ byte. byte ≡ 0) page.now → ¬ IsTrue (is_sane (header_of page.now)) }
{
    if has_sane_header(&header(page)) {
        Verdict::Sane
    } else if is_zero_page(page) {
        Verdict::Zero
    } else {
        Verdict::Bad
    }
}

fn has_sane_header(header: &PageHeader) -> bool
    ensures { result ≡ is_sane header.now }
{
    header.upper != 0
        && header.flags <= 7
        && header.lower <= header.upper
        && header.upper <= header.special
        && header.special <= 8192
        && header.special % 8 == 0
}

// It goes over all the bytes with no early exit, which compiles to vector code.
fn is_zero_page(page: &Page) -> bool
    ensures { result ≡ is_all_zero page.now }
{
    let bytes = page.bytes();
    let mut all = 0;
    for byte in bytes {
        all |= *byte;
    }
    all == 0
}
