//! What has the rows of the centre that calls are asked of, wherever they lie: in the centre's storage, or beside it.
ghost use Rattle.std.specs.Prelude.{◌≡◌};
ghost use Rattle.centre_ledger.specs.Books.{AreSound};

use crate::accounts::Accounts;

/// What has the rows of the centre, as B lays them out.
pub trait BooksOf<B> {
    ghost use Rattle.centre_ledger.specs.Books.{Books};

    ghost books: { Self → Books };

    /// The rows, with what each customer has left.
    fn books(&self) -> &Accounts
        ensures rows { result.now ≡ books self.now }
        ensures sound { AreSound result.now };
}
