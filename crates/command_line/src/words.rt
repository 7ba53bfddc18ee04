//! The words of a command.
ghost use Rattle.std.specs.Prelude.{◌≡◌, ◌<◌, ◌≤◌, ◌+◌, map, length, None, Some, IfOk, IfErr};
ghost use Rattle.std.specs.Prelude.{string_bytes, codes, true, IfSome, if◌then◌else◌};
ghost use Rattle.std.specs.Option.{option_map};
ghost use Rattle.clap.specs.Words.{rows_of, found_of, all_of};
ghost use Rattle.command_line.specs.Command.{number_limit, first_block, asked_count, IsBelowIfGiven};
ghost use Rattle.command_line.specs.Command.{AsksForGeneratedPages, IsMapOf};
ghost use Rattle.command_line.specs.Words.{parsed_command, command_of, source_files};
ghost use Rattle.command_line.specs.Words.{parsed_files, NamesSource, map_option_view};
ghost use Rattle.scan_settings.specs.Settings.{AreValidScanSettings};

mod given_options;
mod grammar;
mod map_option;
mod numbers;
mod settings;
mod values;

use clap::ArgMatches;
use clap::error::ErrorKind;
use given_options::given_options;
pub use map_option::MapOption;
use numbers::number_given;
use scan_settings::ScanSettings;
use std::alloc::Global;
use std::marker::Model;

// The greatest number of a block that `--from` and `--to` may give.
const LAST_BLOCK: u32 = 2097151;

// At most so many pages are generated.
const MOST_GENERATED: u32 = 4096;

// The file of generated pages.
const GENERATED_NAMES: [&str; 1] = ["made"];

/// Why words gave no command.
#[derive(Clone, Copy, Debug, PartialEq, Eq)]
pub enum Refusal {
    /// They are no command.
    Usage,
    /// Want of memory.
    NoMemory,
}

/// What the words of a command ask for.
#[derive(Drop)]
pub struct Command<'a> {
    matches: ArgMatches<'a>,
    from: Option<u32>,
    to: Option<u32>,
    generated: Option<u32>,
    map: Option<MapOption<'a>>,
    settings: ScanSettings,
    stats: bool,
}

impl<'a> Model for Command<'a> {
    ghost use Rattle.std.specs.Option.{option_map};
    ghost use Rattle.std.specs.Prelude.{IfSome};
    ghost use Rattle.clap.specs.Words.{rows_of, found_of};
    ghost use Rattle.command_line.specs.Command.{Command, HasNoRange, IsBelowIfGiven, IsMapOf};
    ghost use Rattle.command_line.specs.Command.{number_limit};
    ghost use Rattle.command_line.specs.Words.{NamesSource, source_files, map_option_view};
    ghost use Rattle.scan_settings.specs.Settings.{AreValidScanSettings};

    ghost Value = { Command };

    ghost view = { λ c. record {
      from = c.from;
      to = c.to;
      files = source_files c.generated (rows_of (found_of c.matches));
      generated = c.generated;
      map = option_map map_option_view c.map;
      settings = c.settings;
      stats = c.stats;
    } };

    ghost invariant = { λ c. IsBelowIfGiven c.from number_limit × IsBelowIfGiven c.to number_limit
        × NamesSource c.generated (rows_of (found_of c.matches))
        × HasNoRange c.generated c.from c.to c.settings
        × AreValidScanSettings c.settings
        × IfSome (option_map map_option_view c.map) (IsMapOf c.generated
        (source_files c.generated (rows_of (found_of c.matches))) c.settings) };
}

// Whether FILE words are read, or generated pages.
fn is_source(matches: &ArgMatches<'_>, generated: Option<u32>) -> bool
    ensures source { parsed_files (Some generated) (all_of (codes "FILE") (rows_of (found_of matches.now)))
        ≡ (if result then Some (source_files generated (rows_of (found_of matches.now))) else None) }
    ensures names { result ≡ true → NamesSource generated (rows_of (found_of matches.now)) }
{
    match generated {
        None => values::names_files(matches),
        Some(_) => !values::has_files(matches),
    }
}

impl<'a> Command<'a> {
    // What the values ask for that were found in the words.
    fn from_matches(matches: ArgMatches<'a>) -> Option<Command<'a>>
        ensures { result ≡ parsed_command (rows_of (found_of matches.entry)) }
    {
        let given = given_options(&matches);
        if given.are_refused() {
            return None;
        }
        let from = number_given(&matches, "from", 7, 0, LAST_BLOCK)?;
        let to = number_given(&matches, "to", 7, 0, LAST_BLOCK)?;
        let generated = number_given(&matches, "make", 7, 1, MOST_GENERATED)?;
        if !is_source(&matches, generated) {
            return None;
        }
        let map = map_option::map_given(&matches)?;
        let settings = settings::settings(&matches, given)?;
        let stats = values::flag(&matches, "stats");
        Some(Command {
            matches,
            from,
            to,
            generated,
            map,
            settings,
            stats,
        })
    }

    /// The FILE words, in their order.
    pub fn files(&self) -> &[&'a str]
        ensures files { map (λ file. file.now) result.now ≡ (self.now).files }
        ensures few { length result.now ≤ 1024 }
    {
        match self.generated {
            None => values::files(&self.matches),
            Some(_) => &GENERATED_NAMES,
        }
    }

    /// How many pages are generated, where no files are listed.
    pub fn generated(&self) -> Option<u32>
        ensures pages { result ≡ (self.now).generated }
        ensures is { IfSome result (λ n. AsksForGeneratedPages n self.now) }
    {
        self.generated
    }

    /// The map of the one file, where it is given.
    pub fn map(&self) -> Option<MapOption<'a>>
        ensures map { option_map map_option_view result ≡ (self.now).map }
        ensures is { IfSome (option_map map_option_view result)
            (IsMapOf (self.now).generated self.now.files (self.now).settings) }
    {
        self.map
    }

    /// The first block of each file.
    pub fn first_block(&self) -> u32
        ensures block { result ≡ first_block self.now }
        ensures below { result < number_limit }
    {
        self.from.unwrap_or(0)
    }

    /// The last block of each file, where it is given.
    pub fn last_block(&self) -> Option<u32>
        ensures block { result ≡ (self.now).to }
        ensures below { IsBelowIfGiven result number_limit }
    {
        self.to
    }

    /// How many blocks are asked for of a relation of this length.
    pub fn asked_count(&self, length: u32) -> u32
        ensures count { result ≡ asked_count self.now length }
        ensures few { length ≤ number_limit → result ≤ number_limit }
        ensures end { length ≤ number_limit → 1 ≤ result
            → first_block self.now + result ≤ number_limit }
    {
        let after = match self.last_block() {
            Some(last) => last + 1,
            None => length,
        };
        after.saturating_sub(self.first_block())
    }

    /// How the files are read, but for the segment size, which is that of the disks.
    pub fn settings(&self) -> ScanSettings
        ensures settings { result ≡ (self.now).settings }
        ensures within { AreValidScanSettings result }
    {
        self.settings
    }

    /// Whether the totals are told.
    pub fn stats(&self) -> bool
        ensures { result ≡ (self.now).stats }
    {
        self.stats
    }
}

// What `clap` finds in the words.
fn parse<'a>(alloc: Global, words: &'a [String]) -> Result<ArgMatches<'a>, Refusal>
    ensures ok { IfOk result (λ m. command_of (map string_bytes words.entry.now)
        ≡ parsed_command (rows_of (found_of m))) }
    ensures err { IfErr result
        (λ e. e ≡ Refusal.Usage → command_of (map string_bytes words.entry.now) ≡ None) }
{
    let Ok(command) = grammar::command(alloc) else {
        return Err(Refusal::NoMemory);
    };
    match command.try_get_matches_from(words) {
        Ok(matches) => Ok(matches),
        Err(error) => {
            let kind = error.kind();
            drop(error);
            match kind {
                ErrorKind::OutOfMemory => Err(Refusal::NoMemory),
                _ => Err(Refusal::Usage),
            }
        }
    }
}

/// Reads the words of a command, without the program's name: what they ask for, before any file is
/// opened. It takes the options of the program and 1 to 1024 FILE words, between and behind them;
/// all words behind `--` are files.
///
/// Words are refused for an option that is unknown or stands twice, and for a value that is missing
/// or outside its range. A FILE word is not empty. `--make` goes with no FILE word, and `--map` with
/// one, of another name. Which options are refused together is said by `are_refused`.
pub fn read_command<'a>(alloc: Global, words: &'a [String]) -> Result<Command<'a>, Refusal>
    ensures ok { IfOk result (λ c. command_of (map string_bytes words.now) ≡ Some c) }
    ensures err { IfErr result
        (λ e. e ≡ Refusal.Usage → command_of (map string_bytes words.now) ≡ None) }
{
    let matches = parse(alloc, words)?;
    match Command::from_matches(matches) {
        Some(command) => Ok(command),
        None => Err(Refusal::Usage),
    }
}
