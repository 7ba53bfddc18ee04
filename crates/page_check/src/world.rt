//! What all objects of one scan agree on.
ghost use Rattle.std.specs.Prelude.{ℕ, Option, None};
ghost use Rattle.page_check.specs.Told.{Told};

use std::marker::Brand;

/// What all objects of one scan agree on, and what a value behind a lock knows of it by its type.
/// Contracts alone see it: it has no functions, and no value of it is made.
///
/// A caller fixes the three members by calling a function over `W: World` with `Brand`.
pub trait World {
    /// The contents of the relations, or nothing where the outside does not tell.
    ghost told: { Option Told };

    /// How many I/O handles there are. A handle, or a reference to one, is in range below it.
    ghost handles: { ℕ };

    /// How many relations there are.
    ghost relations: { ℕ };
}

impl World for Brand {
    ghost told = { None };

    ghost handles = { 0 };

    ghost relations = { 0 };
}
