// The entries of a register found by their identifiers.
ghost use Rattle.std.specs.Prelude.{◌≡◌, position};
ghost use Rattle.std.specs.Option.{option_map};
ghost use Rattle.oid.specs.Meaning.{arcs_of};
ghost use Rattle.book.specs.Book.{is_at, found};
ghost use Rattle.register.specs.Kept.{entry_of};
ghost use Rattle.register.specs.Registers.{book_of};

use super::Register;
use crate::row::Row;
use oid::Identifier;

impl<P, A> Register<P, A> {
    // The entry of an identifier, as its row; none where it does not stand in the book.
    pub(crate) fn entry(&self, identifier: &Identifier) -> Option<Row>
        ensures { option_map entry_of result ≡ found (arcs_of identifier.now) (book_of self.now) }
    {
        let row = self.row_at(identifier)?;
        Some(self.rows[row])
    }

    // The number of the first row with an identifier.
    pub(crate) fn row_at(&self, identifier: &Identifier) -> Option<usize>
        ensures { result ≡ position (is_at (arcs_of identifier.now)) (book_of self.now) }
    {
        self.rows.iter().position(|row| row.is_at(identifier))
    }
}
