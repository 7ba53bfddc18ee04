//! Laws on sums over pages, each the contract of a function that does nothing.
ghost use Rattle.std.specs.Prelude.{◌≡◌, ◌<◌, ◌^◌, ◌++◌, ◌∷◌, [], List, length, All};
ghost use Rattle.page_check.specs.LinePointers.{line_pointer_count};
ghost use Rattle.page_check.specs.SynchronousAnswer.{Given};
ghost use Rattle.heap_scan.specs.Listing.{PageFormat, fault_count_for};
ghost use Rattle.heap_scan.specs.Sums.{FitSums, sums_joined, no_sums, sums_of, sums_with_page};

/// Sums come page by page, or list by list. Those of fewer than 2^32 pages fit, where each has
/// fewer than 2^16 line pointers, as 8192 bytes have, and as few faults are told of it.
pub fn sums_come_page_by_page<P>()
    ensures none { (format : PageFormat) → sums_of {P = P} format [] ≡ no_sums }
    ensures next { (format : PageFormat) (pages : List (Given P)) (given : Given P)
        → sums_of format (pages ++ given ∷ [])
        ≡ sums_with_page (fault_count_for format given) (sums_of format pages) given.page }
    ensures append { (format : PageFormat) (front back : List (Given P))
        → sums_of format (front ++ back)
        ≡ sums_joined (sums_of format front) (sums_of format back) }
    ensures fit { (format : PageFormat) (pages : List (Given P))
        → All (λ given. line_pointer_count given.page < 2 ^ 16) pages
        → All (λ given. fault_count_for format given < 2 ^ 16) pages
        → length pages < 2 ^ 32 → FitSums (sums_of format pages) }
{}
