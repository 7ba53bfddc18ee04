//! The lists of marks.

ghost use Rattle.std.specs.Prelude.{◌≡◌, ◌<◌, List, [], ◌∷◌, ◌++◌, IfOk, OnOk, OnErr};
ghost use Rattle.std.specs.Prelude.{length, replicate, slice_get};
ghost use Rattle.aio_word.specs.declared.Mark.{Mark};
ghost use Rattle.aio_core.specs.Allowed.{lists_with_mark};

use aio_word::{Kind, Mark};
use std::alloc::{AllocError, Global};
use std::marker::Model;

/// The marks of one actor, in the order in which it made them.
#[derive(Drop)]
pub(crate) struct Marks {
    inner: Vec<Mark>,
}

impl Model for Marks {
    ghost use Rattle.std.specs.Prelude.{List};
    ghost use Rattle.aio_word.specs.declared.Mark.{Mark};

    ghost Value = { List Mark };

    ghost view = { λ m. m.inner.items };
}

impl Marks {
    fn new(alloc: Global) -> Marks
        ensures { result ≡ [] }
    {
        Marks {
            inner: Vec::new(alloc),
        }
    }

    /// The marks as a slice.
    #[cfg(test)]
    pub(crate) fn marks(&self) -> &[Mark]
        ensures { result.now ≡ self.now }
    {
        self.inner.as_slice()
    }

    fn push(&mut self, mark: Mark) -> Result<(), AllocError>
        ensures ok { OnOk result (self.new ≡ self.old ++ mark ∷ []) }
        ensures err { OnErr result (self.new ≡ self.old) }
    {
        self.inner.push(mark)?;
        Ok(())
    }
}

/// As many lists as there are actors, each with no marks.
pub(crate) fn empty_lists(alloc: Global, actors: usize) -> Result<Vec<Marks>, AllocError>
    ensures { IfOk result (λ lists. lists.items ≡ replicate actors []) }
{
    let mut lists = Vec::with_capacity(alloc, actors)?;
    for _ in 0..actors {
        lists.push(Marks::new(alloc))?;
    }
    Ok(lists)
}

/// Appends the mark of that kind, if any, to the actor's list.
pub(crate) fn note(
    lists: &mut [Marks],
    actor: u32,
    handle: u32,
    generation: u64,
    kind: Option<Kind>,
) -> Result<(), AllocError>
    requires { actor < length lists.old }
    ensures ok { OnOk result
        (lists.new
        ≡ lists_with_mark lists.old actor handle generation kind (slice_get lists.old actor)) }
    ensures err { OnErr result (lists.new ≡ lists.old) }
{
    match kind {
        None => Ok(()),
        Some(kind) => lists[actor as usize].push(Mark {
            handle,
            generation,
            kind,
        }),
    }
}
