//! The end of borrows.
ghost use Rattle.std.specs.Prelude.{◌≡◌};

/// Ends a borrow, as that of the desk that [`ReadStream::close`](crate::ReadStream::close) gives
/// back. It does nothing: what was lent is as the borrower left it.
pub fn end_borrow<X>(loan: &mut X)
    ensures { loan.new ≡ loan.old }
{
    let _ = loan;
}
