//! The tokens of an incarnation.
use crate::record::Record;
use aio_word::WaitRef;
use page_check::World;
use std::marker::{Model, PhantomData};

/// An incarnation that was handed out. Contracts see its reference.
#[derive(Drop)]
pub struct HandedOut<W: World> {
    pub(crate) reference: WaitRef,
    pub(crate) marker: PhantomData<W>,
}

impl<W: World> Model for HandedOut<W> {
    ghost use Rattle.aio_word.specs.declared.WaitRef.{WaitRef};
    ghost use Rattle.aio_handle.specs.Labels.{InRange};

    ghost Value = { WaitRef };

    ghost view = { λ d. d.reference };

    ghost invariant = { λ d. InRange W.handles d.reference };
}

/// An I/O that was defined. Contracts see its reference and its record.
#[derive(Drop)]
pub struct Defined<R: Record, W: World> {
    pub(crate) reference: WaitRef,
    pub(crate) io: R,
    pub(crate) marker: PhantomData<W>,
}

impl<R: Record, W: World> Model for Defined<R, W> {
    ghost use Rattle.std.specs.Prelude.{◌≡◌};
    ghost use Rattle.aio_word.specs.declared.WaitRef.{WaitRef};
    ghost use Rattle.aio_handle.specs.Labels.{bound_label, InRange};

    ghost Value = { WaitRef × R };

    ghost view = { λ d. (d.reference, d.io) };

    ghost invariant = { λ d. InRange W.handles d.reference
        × (R.label d.io ≡ bound_label d.reference.handle d.reference.generation)
        × R.fits W.told W.relations d.io };
}

/// An I/O that may be submitted. Contracts see its reference and its record.
#[derive(Drop)]
pub struct Staged<R: Record, W: World> {
    pub(crate) reference: WaitRef,
    pub(crate) io: R,
    pub(crate) marker: PhantomData<W>,
}

impl<R: Record, W: World> Model for Staged<R, W> {
    ghost use Rattle.std.specs.Prelude.{◌≡◌};
    ghost use Rattle.aio_word.specs.declared.WaitRef.{WaitRef};
    ghost use Rattle.aio_handle.specs.Labels.{bound_label, InRange};

    ghost Value = { WaitRef × R };

    ghost view = { λ d. (d.reference, d.io) };

    ghost invariant = { λ d. InRange W.handles d.reference
        × (R.label d.io ≡ bound_label d.reference.handle d.reference.generation)
        × R.fits W.told W.relations d.io };
}

/// An I/O that was submitted. Contracts see its reference.
#[derive(Drop)]
pub struct InFlight<W: World> {
    pub(crate) reference: WaitRef,
    pub(crate) marker: PhantomData<W>,
}

impl<W: World> Model for InFlight<W> {
    ghost use Rattle.aio_word.specs.declared.WaitRef.{WaitRef};
    ghost use Rattle.aio_handle.specs.Labels.{InRange};

    ghost Value = { WaitRef };

    ghost view = { λ d. d.reference };

    ghost invariant = { λ d. InRange W.handles d.reference };
}

/// An I/O that this actor executes. Contracts see its reference and its record.
#[derive(Drop)]
pub struct Claimed<R: Record, W: World> {
    pub(crate) reference: WaitRef,
    pub(crate) io: R,
    pub(crate) marker: PhantomData<W>,
}

impl<R: Record, W: World> Model for Claimed<R, W> {
    ghost use Rattle.aio_word.specs.declared.WaitRef.{WaitRef};
    ghost use Rattle.aio_handle.specs.Labels.{InRange};

    ghost Value = { WaitRef × R };

    ghost view = { λ d. (d.reference, d.io) };

    ghost invariant = { λ d. InRange W.handles d.reference };
}

/// An I/O whose result its owner has taken. Contracts see its reference and its record.
#[derive(Drop)]
pub struct Local<R: Record, W: World> {
    pub(crate) reference: WaitRef,
    pub(crate) io: R,
    pub(crate) marker: PhantomData<W>,
}

impl<R: Record, W: World> Model for Local<R, W> {
    ghost use Rattle.aio_word.specs.declared.WaitRef.{WaitRef};
    ghost use Rattle.aio_handle.specs.Labels.{InRange};

    ghost Value = { WaitRef × R };

    ghost view = { λ d. (d.reference, d.io) };

    ghost invariant = { λ d. InRange W.handles d.reference };
}

/// The answer of a look for the result of one's own I/O: the result, or the token again.
#[derive(Drop)]
pub enum Take<R: Record, W: World> {
    Ready(Local<R, W>),
    NotYet(InFlight<W>),
}

impl<W: World> HandedOut<W> {
    ghost use Rattle.std.specs.Prelude.{◌≡◌};

    pub fn reference(&self) -> WaitRef
        ensures { result ≡ self.now }
    {
        self.reference
    }
}

impl<W: World> InFlight<W> {
    ghost use Rattle.std.specs.Prelude.{◌≡◌};

    pub fn reference(&self) -> WaitRef
        ensures { result ≡ self.now }
    {
        self.reference
    }
}

impl<R: Record, W: World> Defined<R, W> {
    ghost use Rattle.std.specs.Prelude.{◌≡◌};

    pub fn reference(&self) -> WaitRef
        ensures { result ≡ self.now.0 }
    {
        self.reference
    }

    pub fn record(&self) -> &R
        ensures { result.now ≡ self.now.1 }
    {
        &self.io
    }
}

impl<R: Record, W: World> Staged<R, W> {
    ghost use Rattle.std.specs.Prelude.{◌≡◌};

    pub fn reference(&self) -> WaitRef
        ensures { result ≡ self.now.0 }
    {
        self.reference
    }

    pub fn record(&self) -> &R
        ensures { result.now ≡ self.now.1 }
    {
        &self.io
    }
}

impl<R: Record, W: World> Claimed<R, W> {
    ghost use Rattle.std.specs.Prelude.{◌≡◌};

    pub fn reference(&self) -> WaitRef
        ensures { result ≡ self.now.0 }
    {
        self.reference
    }

    pub fn record(&self) -> &R
        ensures { result.now ≡ self.now.1 }
    {
        &self.io
    }
}

impl<R: Record, W: World> Local<R, W> {
    ghost use Rattle.std.specs.Prelude.{◌≡◌};

    pub fn reference(&self) -> WaitRef
        ensures { result ≡ self.now.0 }
    {
        self.reference
    }

    pub fn record(&self) -> &R
        ensures { result.now ≡ self.now.1 }
    {
        &self.io
    }
}
