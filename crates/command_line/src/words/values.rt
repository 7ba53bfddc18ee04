//! The values that `clap` found in the words: texts, flags and names of files.
ghost use Rattle.std.specs.Prelude.{◌≡◌, ◌≤◌, map, length, Some, None, codes};
ghost use Rattle.std.specs.Prelude.{if◌then◌else◌, ◌&&◌, is_some};
ghost use Rattle.std.specs.List.{list_all};
ghost use Rattle.std.specs.Option.{option_map};
ghost use Rattle.clap.specs.Words.{rows_of, found_of, first_of, all_of};
ghost use Rattle.command_line.specs.Numbers.{is_count as count_test};
ghost use Rattle.command_line.specs.Words.{is_set, is_name};
ghost use Rattle.command_line.specs.Words.{valid_file_names, file_words, NamesFiles};

use clap::ArgMatches;

// At most so many files are named.
const MOST_FILES: usize = 1024;

/// The value of an option.
pub fn text_of<'a>(matches: &ArgMatches<'a>, name: &str) -> Option<&'a str>
    ensures { option_map (λ s. s.now) result ≡ first_of name.now (rows_of (found_of matches.now)) }
{
    matches.get_str(name)
}

/// At least one, and at most so many.
pub fn is_count(n: usize, most: usize) -> bool
    ensures { result ≡ count_test n most }
{
    1 <= n && n <= most
}

/// Whether a flag is given.
pub fn flag(matches: &ArgMatches<'_>, name: &str) -> bool
    ensures { result ≡ is_set (first_of name.now (rows_of (found_of matches.now))) }
{
    match text_of(matches, name) {
        None => false,
        Some(word) => word == "true",
    }
}

fn all_names(words: &[&str]) -> bool
    ensures { result ≡ list_all (λ word. is_name word.now) words.now }
{
    words.iter().all(|word| !word.is_empty())
}

// 1 to 1024 names of files.
fn are_files(words: &[&str]) -> bool
    ensures { result ≡ (count_test (length words.now) 1024
        && list_all (λ word. is_name word.now) words.now) }
{
    is_count(words.len(), MOST_FILES) && all_names(words)
}

/// The values of an argument, in their order.
pub fn texts_of<'m, 'a>(matches: &'m ArgMatches<'a>, name: &str) -> Option<&'m [&'a str]>
    ensures { option_map (λ s. map (λ v. v.now) s.now) result
        ≡ all_of name.now (rows_of (found_of matches.now)) }
{
    matches.get_strs(name)
}

/// The FILE words, in their order.
pub fn files<'m, 'a>(matches: &'m ArgMatches<'a>) -> &'m [&'a str]
    requires { NamesFiles (rows_of (found_of matches.now)) }
    ensures files { map (λ file. file.now) result.now
        ≡ file_words (rows_of (found_of matches.now)) }
    ensures few { length result.now ≤ 1024 }
{
    let Some(words) = texts_of(matches, "FILE") else {
        unreachable!()
    };
    words
}

/// Whether there are 1 to 1024 FILE words, none of them empty.
pub fn names_files(matches: &ArgMatches<'_>) -> bool
    ensures { valid_file_names (all_of (codes "FILE") (rows_of (found_of matches.now)))
        ≡ (if result then Some (file_words (rows_of (found_of matches.now))) else None) }
{
    let Some(words) = texts_of(matches, "FILE") else {
        return false;
    };
    are_files(words)
}

/// Whether there are FILE words.
pub fn has_files(matches: &ArgMatches<'_>) -> bool
    ensures { result ≡ is_some (all_of (codes "FILE") (rows_of (found_of matches.now))) }
{
    texts_of(matches, "FILE").is_some()
}
