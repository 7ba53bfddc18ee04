//! The command line as `clap` is told of it.
ghost use Rattle.std.specs.Prelude.{◌≡◌, IfOk, map, false};
ghost use Rattle.clap.specs.Words.{app_of, rule_of};
ghost use Rattle.command_line.specs.Grammar.{option_rule, flag_rule, file_rule, with_rules};
ghost use Rattle.command_line.specs.Grammar.{without_arguments, the_command};

use clap::{Arg, ArgAction, Command};
use std::alloc::{AllocError, Global};

// The options with a value.
const OPTIONS: [&str; 14] = [
    "method",
    "workers",
    "backends",
    "combine",
    "concurrency",
    "handles",
    "buffers",
    "from",
    "to",
    "make",
    "map",
    "skip",
    "end-lsn",
    "next-xid",
];

// The flags.
const FLAGS: [&str; 8] = [
    "batch",
    "full",
    "stats",
    "checksums",
    "zero-damaged",
    "tuples",
    "check",
    "show-damaged",
];

fn option<'a>(alloc: Global, name: &'a str) -> Arg<'a>
    ensures rule { rule_of result ≡ option_rule name.entry.now }
    ensures local { result.global ≡ false }
{
    Arg::new(alloc, name).long(name).action(ArgAction::Set)
}

fn flag<'a>(alloc: Global, name: &'a str) -> Arg<'a>
    ensures rule { rule_of result ≡ flag_rule name.entry.now }
    ensures local { result.global ≡ false }
{
    Arg::new(alloc, name).long(name).action(ArgAction::SetTrue)
}

fn file<'a>(alloc: Global) -> Arg<'a>
    ensures rule { rule_of result ≡ file_rule }
    ensures local { result.global ≡ false }
{
    Arg::new(alloc, "FILE").action(ArgAction::Append)
}

// The command before its arguments, without words for help and version.
fn bare_command<'a>(alloc: Global) -> Command<'a>
    ensures { app_of result ≡ without_arguments }
{
    Command::new(alloc, "aioscan")
        .no_binary_name(true)
        .disable_help_flag(true)
        .disable_version_flag(true)
}

// Adds the options of these names, in their order.
fn add_options<'a>(
    alloc: Global,
    mut command: Command<'a>,
    names: &[&'a str],
) -> Result<Command<'a>, AllocError>
    ensures { IfOk result (λ c. app_of c
        ≡ with_rules (app_of command.entry) (map (λ name. option_rule name.now) names.now)) }
{
    for name in names {
        command = command.arg(option(alloc, name))?;
    }
    Ok(command)
}

// Adds the flags of these names, in their order.
fn add_flags<'a>(
    alloc: Global,
    mut command: Command<'a>,
    names: &[&'a str],
) -> Result<Command<'a>, AllocError>
    ensures { IfOk result (λ c. app_of c
        ≡ with_rules (app_of command.entry) (map (λ name. flag_rule name.now) names.now)) }
{
    for name in names {
        command = command.arg(flag(alloc, name))?;
    }
    Ok(command)
}

/// The command, before any word is read.
#[tactic(auto, unfolding(crate::specs::Grammar::the_command))]
pub fn command<'a>(alloc: Global) -> Result<Command<'a>, AllocError>
    ensures { IfOk result (λ c. app_of c ≡ the_command) }
{
    let command = add_options(alloc, bare_command(alloc), &OPTIONS)?;
    let command = add_flags(alloc, command, &FLAGS)?;
    command.arg(file(alloc))
}
