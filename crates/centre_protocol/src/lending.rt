//! What the centre lends to its calls.
use crate::rows::{CentreNode, CentreRows};
use centre_ledger::{Accounts, BooksOf};
use nv_model::Nv;

impl<N: Nv> BooksOf<CentreRows> for CentreNode<N> {
    ghost use Rattle.centre_ledger.specs.Seen.{books_in};
    ghost use Rattle.row_node.specs.NodeView.{seen_in};

    ghost books = { λ k. books_in (seen_in k) };

    fn books(&self) -> &Accounts {
        let accounts = &self.rows().accounts;
        // Its answer is what says that the rows are sound.
        let _first = accounts.device(1);
        accounts
    }
}
