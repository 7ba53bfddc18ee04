//! Laws on pages, and on what a scan may have answered to a list of blocks, each the contract of a
//! function that does nothing. They hold of contents that are told, and of contents that are not.
ghost use Rattle.std.specs.Prelude.{◌≡◌, ◌≢◌, ◌≤◌, ◌+◌, ◌⊎◌, ◌++◌, ◌∷◌, [], ℕ, List, length};
ghost use Rattle.std.specs.Prelude.{Some, slice_get, All, true};
ghost use Rattle.page_check.specs.PageBytes.{IsPage};
ghost use Rattle.page_check.specs.Fields.{header_of};
ghost use Rattle.page_check.specs.Verdict.{is_sane};
ghost use Rattle.page_check.specs.Checksum.{checksum_of, with_checksum, verdict_as};
ghost use Rattle.page_check.specs.SynchronousAnswer.{Reading, Known, IfKnown, IfUnknown};
ghost use Rattle.page_check.specs.SynchronousAnswer.{Entry, Given, Ending, End, Invalid, PastEnd};
ghost use Rattle.page_check.specs.SynchronousAnswer.{Unread, BadPage, Absent, Found, is_page};
ghost use Rattle.page_check.specs.SynchronousAnswer.{Reader, entry_found, read_count};
ghost use Rattle.page_check.specs.SynchronousAnswer.{readable_pages};
ghost use Rattle.page_check.specs.SynchronousAnswer.{IsMarkedAs, found_mark, found_page};
ghost use Rattle.page_check.specs.SynchronousAnswer.{found_given, list_ending};
ghost use Rattle.page_check.specs.IsAnswer.{IsAnswer, IsNext, Next, Page, Stop, with_next};

use crate::Verdict;
use std::marker::Brand;

/// Which entries may be answered by `Unread`, as whoever answers says. A caller fixes it by calling
/// a law with `Brand`.
pub trait MayBeUnread<P> {
    ghost may: { Entry P → Type 0 };
}

impl<P> MayBeUnread<P> for Brand {
    ghost may = { λ entry. ⊥ };
}

/// A page that is lent has 8192 bytes. The first one is read, which shows of each that it is a
/// byte.
#[inline]
pub fn a_page_has_8192_bytes(page: &crate::Page)
    ensures { IsPage page.now }
{
    let _first = page.bytes()[0];
}

/// What a page has as its checksum does not count for the checksum that it is to have. So a page
/// with a sane header that was given its checksum is verified, as that block.
pub fn a_page_with_its_checksum_is_verified()
    ensures same { (page : List ℕ) (block sum : ℕ)
        → checksum_of (with_checksum sum page) block ≡ checksum_of page block }
    ensures verified { (page : List ℕ) (block : ℕ) → IsPage page
        → is_sane (header_of page) ≡ true
        → verdict_as true block (with_checksum (checksum_of page block) page) ≡ Verdict.Sane }
{}

/// Answers come one by one: none at first, then any that may be next, and an ending again.
pub fn answers_come_one_by_one<P, M: MayBeUnread<P>>()
    ensures none { (found : Reading) (entries : List (Entry P))
        → IsAnswer found M.may entries (record { pages = []; endings = [] }) }
    ensures next { (found : Reading) (entries : List (Entry P)) (pages : List (Given P))
        (next : Next P) → IsAnswer found M.may entries (record { pages = pages; endings = [] })
        → IsNext found M.may entries (length pages) next
        → IsAnswer found M.may entries (with_next pages next) }
    ensures again { (found : Reading) (entries : List (Entry P)) (pages : List (Given P))
        (end : Ending) (more : List Ending)
        → IsAnswer found M.may entries (record { pages = pages; endings = end ∷ more })
        → IsAnswer found M.may entries (record { pages = pages; endings = end ∷ end ∷ more }) }
{}

/// What may be answered next, by what is found at that entry of the list, where the entries before
/// it can be read.
pub fn what_is_found_is_answered_next<P, M: MayBeUnread<P>>()
    ensures page { (found : Reading) (entries : List (Entry P)) (k : ℕ) (e : Entry P)
        (shown : Found) → slice_get entries k ≡ Some e
        → IfKnown found (λ f. k ≤ read_count f entries)
        → is_page shown ≡ true
        → IfUnknown found
        (λ rules. IsMarkedAs rules e.block (found_mark shown) (found_page shown))
        → IsPage (found_page shown)
        → IfKnown found (λ f. entry_found f e ≡ shown)
        → IsNext found M.may entries k (Page (found_given shown e))
        × IfKnown found (λ f. k + 1 ≤ read_count f entries) }
    ensures invalid { (found : Reading) (entries : List (Entry P)) (k : ℕ) (e : Entry P)
        → slice_get entries k ≡ Some e → IfKnown found (λ f. k ≤ read_count f entries)
        → IfKnown found (λ f. entry_found f e ≡ BadPage)
        → IsNext found M.may entries k (Stop (Invalid e.block)) }
    ensures past_end { (found : Reading) (entries : List (Entry P)) (k : ℕ) (e : Entry P)
        → slice_get entries k ≡ Some e → IfKnown found (λ f. k ≤ read_count f entries)
        → IfKnown found (λ f. entry_found f e ≡ Absent)
        → IsNext found M.may entries k (Stop (PastEnd e.block)) }
    ensures unread { (found : Reading) (entries : List (Entry P)) (k : ℕ) (e : Entry P)
        → slice_get entries k ≡ Some e → M.may e
        → IsNext found M.may entries k (Stop (Unread e.block)) }
    ensures end { (found : Reading) (entries : List (Entry P)) (k : ℕ)
        → IfKnown found (λ f. k ≤ read_count f entries) → k ≡ length entries
        → IsNext found M.may entries k (Stop End) }
{}

/// Answers to a list are answers to one that goes on: where they have reached the end of the first
/// part, with those to the second; where they have not, as they stand.
pub fn answers_to_joined_lists<P, M: MayBeUnread<P>>()
    ensures append { (found : Reading) (xs ys : List (Entry P)) (front back : List (Given P))
        (endings : List Ending)
        → IsAnswer found M.may xs (record { pages = front; endings = End ∷ [] })
        → IsAnswer found M.may ys (record { pages = back; endings = endings })
        → IsAnswer found M.may (xs ++ ys) (record { pages = front ++ back; endings = endings }) }
    ensures more { (found : Reading) (xs ys : List (Entry P)) (pages : List (Given P))
        (endings : List Ending) → All (λ end. end ≢ End) endings
        → IsAnswer found M.may xs (record { pages = pages; endings = endings })
        → IsAnswer found M.may (xs ++ ys) (record { pages = pages; endings = endings }) }
{}

/// Where the contents are told, answers that have ended are those of synchronous reads, but where a
/// block was not read.
pub fn answers_end_as_synchronous_reads<P, M: MayBeUnread<P>>()
    ensures { (found : Reader) (entries : List (Entry P)) (pages : List (Given P)) (end : Ending)
        (more : List Ending)
        → IsAnswer (Known found) M.may entries (record { pages = pages; endings = end ∷ more })
        → ((readable_pages found entries ≡ pages) × (list_ending found entries ≡ end))
        ⊎ ((block : ℕ) × (end ≡ Unread block)) }
{}
