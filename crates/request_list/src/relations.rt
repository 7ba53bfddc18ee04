//! The relations of a command: the distinct names of its files, and that of its map behind them.
ghost use Rattle.std.specs.Prelude.{◌≡◌, ◌<◌, ◌≤◌, ◌++◌, ◌∷◌, [], List, ℕ, length, map, IfOk, OnOk};
ghost use Rattle.std.specs.Prelude.{string_bytes};
ghost use Rattle.std.specs.List.{list_any, position};
ghost use Rattle.std.specs.Str.{bytes_eq};
ghost use Rattle.command_line.specs.Command.{without_duplicates, command_relations, relation_number};

use command_line::Command;
use std::alloc::{AllocError, Global};
use std::marker::Model;

fn is_named(names: &[String], name: &str) -> bool
    ensures { result ≡ list_any (λ other. bytes_eq (string_bytes other) name.now) names.now }
{
    names.iter().any(|other| other.as_str() == name)
}

// Adds a name, where it is new.
fn add_name(alloc: Global, names: &mut Vec<String>, name: &str) -> Result<(), AllocError>
    ensures { OnOk result ((earlier : List (List ℕ))
        → map string_bytes names.old.items ≡ without_duplicates earlier
        → map string_bytes names.new.items ≡ without_duplicates (earlier ++ name.now ∷ [])) }
{
    if is_named(names.as_slice(), name) {
        return Ok(());
    }
    names.push(String::from_str(alloc, name)?)?;
    Ok(())
}

// The distinct names, in the order of their first appearance.
fn distinct_names(alloc: Global, files: &[&str]) -> Result<Vec<String>, AllocError>
    ensures names { IfOk result
        (λ names. map string_bytes names.items ≡ without_duplicates (map (λ file. file.now)
        files.now)) }
    ensures few { IfOk result (λ names. length names.items ≤ length files.now) }
{
    let mut names: Vec<String> = Vec::new(alloc);
    for file in files {
        add_name(alloc, &mut names, file)?;
    }
    Ok(names)
}

/// The relations of a command: the distinct names of its files, and that of its map, where there is
/// one, behind them. These names are how contracts see them.
#[derive(Drop)]
pub struct Relations {
    names: Vec<String>,
}

impl Model for Relations {
    ghost use Rattle.std.specs.Prelude.{◌≤◌, List, ℕ, map, length, string_bytes};

    ghost Value = { List (List ℕ) };

    ghost view = { λ r. map string_bytes r.names.items };

    ghost invariant = { λ r. length r.names.items ≤ 1024 };
}

impl Relations {
    /// Takes memory for the names.
    pub fn new(alloc: Global, command: &Command<'_>) -> Result<Relations, AllocError>
        ensures { IfOk result (λ relations. relations ≡ command_relations command.now) }
    {
        let mut names = distinct_names(alloc, command.files())?;
        if let Some(map) = command.map() {
            names.push(String::from_str(alloc, map.name)?)?;
        }
        Ok(Relations { names })
    }

    /// Their names, in their order.
    pub fn names(&self) -> &[String]
        ensures names { map string_bytes result.now ≡ self.now }
        ensures count { length result.now ≡ length self.now }
    {
        self.names.as_slice()
    }

    /// How many there are.
    pub fn count(&self) -> u32
        ensures count { result ≡ length self.now }
        ensures few { result ≤ 1024 }
    {
        self.names.len() as u32
    }

    /// The number of the relation of this name, which is one of them.
    pub(crate) fn number_of(&self, name: &str) -> u32
        ensures { result ≡ relation_number name.now self.now }
    {
        number_of(self.names.as_slice(), name) as u32
    }
}

fn place_of(names: &[String], name: &str) -> Option<usize>
    ensures { result ≡ position (λ other. bytes_eq (string_bytes other) name.now) names.now }
{
    names.iter().position(|other| other.as_str() == name)
}

// The place of a name, or how many names there are.
fn number_of(names: &[String], name: &str) -> usize
    ensures number { result ≡ relation_number name.now (map string_bytes names.now) }
    ensures few { result ≤ length names.now }
{
    place_of(names, name).unwrap_or(names.len())
}
