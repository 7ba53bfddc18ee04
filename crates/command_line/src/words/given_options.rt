//! Which options are given, of those that do not go with all others.
ghost use Rattle.std.specs.Prelude.{◌≡◌, is_some};
ghost use Rattle.clap.specs.Words.{rows_of, found_of, first_of};
ghost use Rattle.command_line.specs.RefusedOptions.{are_refused, is_refused_with_check};
ghost use Rattle.command_line.specs.RefusedOptions.{is_refused_with_damage, is_refused_with_make};
ghost use Rattle.command_line.specs.RefusedOptions.{lacks_its_option};
ghost use Rattle.command_line.specs.Words.{given_options};

use super::values::{flag, text_of};
use clap::ArgMatches;

/// Which options are given, of those that do not go with all others.
#[derive(Clone, Copy)]
pub struct GivenOptions {
    pub from: bool,
    pub to: bool,
    pub make: bool,
    pub map: bool,
    pub skip: bool,
    pub checksums: bool,
    pub tuples: bool,
    pub zero_damaged: bool,
    pub show_damaged: bool,
    pub check: bool,
    pub end_lsn: bool,
    pub next_xid: bool,
}

// Whether an option with a value is given.
fn is_given(matches: &ArgMatches<'_>, name: &str) -> bool
    ensures { result ≡ is_some (first_of name.now (rows_of (found_of matches.now))) }
{
    text_of(matches, name).is_some()
}

/// Which of these options are given.
pub fn given_options(matches: &ArgMatches<'_>) -> GivenOptions
    ensures { result ≡ given_options (rows_of (found_of matches.now)) }
{
    GivenOptions {
        from: is_given(matches, "from"),
        to: is_given(matches, "to"),
        make: is_given(matches, "make"),
        map: is_given(matches, "map"),
        skip: is_given(matches, "skip"),
        checksums: flag(matches, "checksums"),
        tuples: flag(matches, "tuples"),
        zero_damaged: flag(matches, "zero-damaged"),
        show_damaged: flag(matches, "show-damaged"),
        check: flag(matches, "check"),
        end_lsn: is_given(matches, "end-lsn"),
        next_xid: is_given(matches, "next-xid"),
    }
}

impl GivenOptions {
    fn is_refused_with_make(self) -> bool
        ensures { result ≡ is_refused_with_make self }
    {
        self.make && (self.from || self.to || self.checksums || self.tuples)
    }

    fn is_refused_with_damage(self) -> bool
        ensures { result ≡ is_refused_with_damage self }
    {
        (self.check || self.show_damaged) && (self.zero_damaged || self.make || self.map)
    }

    fn is_refused_with_check(self) -> bool
        ensures { result ≡ is_refused_with_check self }
    {
        self.check && (self.show_damaged || self.tuples)
    }

    fn lacks_its_option(self) -> bool
        ensures { result ≡ lacks_its_option self }
    {
        ((self.end_lsn || self.next_xid) && !self.check) || (self.skip && !self.map)
    }

    /// Whether they are refused together, or one of them without another.
    pub fn are_refused(self) -> bool
        ensures { result ≡ are_refused self }
    {
        self.is_refused_with_make()
            || self.is_refused_with_damage()
            || self.is_refused_with_check()
            || self.lacks_its_option()
    }
}
