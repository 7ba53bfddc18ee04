//! Sums over pages.
ghost use Rattle.std.specs.Prelude.{◌≡◌};
ghost use Rattle.heap_scan.specs.Sums.{FitSums, sums_with_page};

use page_check::{Page, Verdict, check, count};

/// How many pages were given, how many of them are all zeros, how many line pointers they have, and
/// how many faults were told of them.
#[derive(Clone, Copy, Debug, Default, PartialEq, Eq)]
pub struct PageSums {
    /// How many pages.
    pub pages: u64,
    /// How many of them are all zeros.
    pub zero: u64,
    /// How many line pointers they have.
    pub items: u64,
    /// How many faults were told of them.
    pub faults: u64,
}

/// Adds a page, of which so many faults were told, to the sums. Any page will do. It takes no
/// memory.
pub fn tally(page: &Page, faults: u32, sums: &mut PageSums)
    requires fit { FitSums (sums_with_page faults sums.old page.now) }
    ensures { sums.new ≡ sums_with_page faults sums.old page.now }
{
    sums.pages += 1;
    sums.zero += match check(page) {
        Verdict::Zero => 1,
        Verdict::Sane | Verdict::Bad => 0,
    };
    sums.items += u64::from(count(page));
    sums.faults += u64::from(faults);
}
