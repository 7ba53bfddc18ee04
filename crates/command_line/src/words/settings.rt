//! How the files are read, by the words.
ghost use Rattle.std.specs.Prelude.{◌≡◌, false, IfSome};
ghost use Rattle.clap.specs.Words.{rows_of, found_of, first_of};
ghost use Rattle.command_line.specs.PageOptions.{HasPageOptions, damaged_pages, listing_text};
ghost use Rattle.command_line.specs.Words.{given_options, method_of, parsed_page_text};
ghost use Rattle.command_line.specs.Words.{parsed_settings};
ghost use Rattle.scan_settings.specs.Settings.{AreValidScanSettings};

use super::given_options::GivenOptions;
use super::numbers::{lsn_given, number, number_given};
use super::values::{flag, text_of};
use clap::ArgMatches;
use page_check::DamagedPages;
use page_faults::CheckOptions;
use scan_settings::{MethodKind, PageText, ScanSettings};

// The segment size that PostgreSQL has where it is built by default (`RELSEG_SIZE`). That of the
// disks takes its place.
const SEGMENT_SIZE: u32 = 131072;

fn method(matches: &ArgMatches<'_>, name: &str) -> Option<MethodKind>
    ensures { result ≡ method_of (first_of name.now (rows_of (found_of matches.now))) }
{
    match text_of(matches, name) {
        None | Some("worker") => Some(MethodKind::Worker),
        Some("sync") => Some(MethodKind::Sync),
        Some("ring") => Some(MethodKind::Ring),
        Some(_) => None,
    }
}

// What becomes of damaged pages.
fn damaged_pages(given: GivenOptions) -> DamagedPages
    ensures { result ≡ damaged_pages given }
{
    if given.zero_damaged {
        DamagedPages::Zero
    } else if given.check || given.show_damaged {
        DamagedPages::Give
    } else {
        DamagedPages::Refuse
    }
}

// What a listing has of each page.
fn listing_text(given: GivenOptions) -> PageText
    ensures { result ≡ listing_text given }
{
    if given.tuples {
        PageText::Tuples
    } else {
        PageText::Items
    }
}

// What is written of each page.
fn page_text(matches: &ArgMatches<'_>, given: GivenOptions) -> Option<PageText>
    requires { given ≡ given_options (rows_of (found_of matches.now)) }
    ensures text { result ≡ parsed_page_text (rows_of (found_of matches.now)) }
    ensures listing { given.check ≡ false → IfSome result (λ text. text ≡ listing_text given) }
{
    let end_lsn = lsn_given(matches, "end-lsn")?;
    let next_xid = number_given(matches, "next-xid", 10, 0, u32::MAX)?;
    if given.check {
        Some(PageText::Faults(CheckOptions {
            checksums: given.checksums,
            end_lsn,
            next_xid,
        }))
    } else {
        Some(listing_text(given))
    }
}

/// How the files are read, where these options are given.
pub fn settings(matches: &ArgMatches<'_>, given: GivenOptions) -> Option<ScanSettings>
    requires { given ≡ given_options (rows_of (found_of matches.now)) }
    ensures settings { result ≡ parsed_settings (rows_of (found_of matches.now)) }
    ensures within { IfSome result AreValidScanSettings }
    ensures options { IfSome result (HasPageOptions given) }
{
    Some(ScanSettings {
        method: method(matches, "method")?,
        workers: number(matches, "workers", 1, 32, 3)?,
        backends: number(matches, "backends", 1, 16, 2)?,
        combine: number(matches, "combine", 1, 128, 16)?,
        concurrency: number(matches, "concurrency", 1, 256, 16)?,
        handles: number(matches, "handles", 1, 64, 16)?,
        buffers: number(matches, "buffers", 16, 16384, 128)?,
        batch: flag(matches, "batch"),
        full: flag(matches, "full"),
        segment: SEGMENT_SIZE,
        checksums: given.checksums,
        damaged: damaged_pages(given),
        page_text: page_text(matches, given)?,
    })
}
