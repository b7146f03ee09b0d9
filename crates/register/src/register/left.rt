// What the authorities of a register have left.
ghost use Rattle.std.specs.Prelude.{◌≡◌};
ghost use Rattle.oid.specs.Meaning.{arcs_of};
ghost use Rattle.book.specs.Book.{children};
ghost use Rattle.book.specs.Left.{left, used, told_left};
ghost use Rattle.register.specs.Kept.{entry_of};
ghost use Rattle.register.specs.Registers.{book_of};

use super::Register;
use crate::row::Row;
use book::Refusal;
use oid::Identifier;

impl<P, A> Register<P, A> {
    // What an authority has left. What does not stand in the book, and what is no authority, is refused.
    pub fn left(&self, identifier: &Identifier) -> Result<u64, Refusal>
        ensures { result ≡ told_left (arcs_of identifier.now) (book_of self.now) }
    {
        let Some(row) = self.entry(identifier) else {
            return Err(Refusal::NotInBook);
        };
        if !row.kind.is_authority() {
            return Err(Refusal::WrongKind);
        }
        Ok(self.left_of(&row))
    }

    // What the authority in a row has left.
    pub(crate) fn left_of(&self, row: &Row) -> u64
        ensures { result ≡ left (entry_of row.now) (book_of self.now) }
    {
        u64::from(row.quota).saturating_sub(self.used_below(&row.identifier))
    }

    // What the children of an authority have used up of its quota.
    fn used_below(&self, authority: &Identifier) -> u64
        ensures { result ≡ used (children (arcs_of authority.now) (book_of self.now)) }
    {
        let mut used = 0;
        for row in &self.rows {
            if row.is_child(authority) {
                used += row.counted();
            }
        }
        used
    }
}
