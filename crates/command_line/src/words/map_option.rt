//! The map that the words name.
ghost use Rattle.std.specs.Prelude.{◌≡◌, codes};
ghost use Rattle.std.specs.Option.{option_map};
ghost use Rattle.clap.specs.Words.{rows_of, found_of, first_of};
ghost use Rattle.command_line.specs.Words.{is_map_of, parsed_map, named_map, map_option_view};
ghost use Rattle.command_line.specs.Words.{skip_of};

use super::values::{text_of, texts_of};
use clap::ArgMatches;
use vis_map::Skip;

/// A visibility map, and which blocks are left out by it.
#[derive(Clone, Copy)]
pub struct MapOption<'a> {
    pub name: &'a str,
    pub skip: Skip,
}

fn skip(matches: &ArgMatches<'_>) -> Option<Skip>
    ensures { result ≡ skip_of (first_of (codes "skip") (rows_of (found_of matches.now))) }
{
    match text_of(matches, "skip") {
        None | Some("visible") => Some(Skip::Visible),
        Some("frozen") => Some(Skip::Frozen),
        Some(_) => None,
    }
}

// Whether a file may have the map of this name.
fn is_map_name(file: &str, name: &str) -> bool
    ensures { result ≡ is_map_of file.now name.now }
{
    !name.is_empty() && name != file
}

// The map of a file.
fn map_named<'a>(file: &str, name: &'a str, skip: Option<Skip>) -> Option<Option<MapOption<'a>>>
    ensures { option_map (option_map map_option_view) result ≡ named_map file.now name.now skip }
{
    let skip = skip?;
    if is_map_name(file, name) {
        Some(Some(MapOption { name, skip }))
    } else {
        None
    }
}

/// The map, where it is given as it should be: for one file, which has another name.
pub fn map_given<'a>(matches: &ArgMatches<'a>) -> Option<Option<MapOption<'a>>>
    ensures { option_map (option_map map_option_view) result
        ≡ parsed_map (rows_of (found_of matches.now)) }
{
    let Some(name) = text_of(matches, "map") else {
        return Some(None);
    };
    match texts_of(matches, "FILE") {
        Some([file]) => map_named(file, name, skip(matches)),
        _ => None,
    }
}
