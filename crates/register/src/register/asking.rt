// The questions that several calls put to the book, up to the first no.
ghost use Rattle.std.specs.Prelude.{◌≡◌, ◌+◌, ◌<◌, None, IfOk, length};
ghost use Rattle.oid.specs.Meaning.{arcs_of};
ghost use Rattle.oid.specs.Tree.{most_arcs};
ghost use Rattle.book.specs.Book.{Entry};
ghost use Rattle.book.specs.Left.{left};
ghost use Rattle.book.specs.Questions.{as_giver, as_holder, holds_parent};
ghost use Rattle.book.specs.Rulings.{Ruling};
ghost use Rattle.register.specs.Asked.{with_row};
ghost use Rattle.register.specs.Kept.{entry_of};
ghost use Rattle.register.specs.Registers.{book_of, refusal_of};

use super::Register;
use crate::row::Row;
use book::Refusal;
use oid::Identifier;
use oid::identifier::MOST_ARCS;

impl<P, A> Register<P, A> {
    // 14 to 16: the row of an authority, if it stands in the book, is open, and the caller is its holder.
    pub(crate) fn as_holder(&self, holder: u32, authority: &Identifier) -> Result<Row, Refusal>
        ensures asks { (others : Entry → Ruling) → as_holder (book_of self.now) holder (arcs_of authority.now) others ≡ with_row result others }
        ensures founded { IfOk result (λ _. refusal_of self.now ≡ None) }
    {
        let Some(row) = self.entry(authority) else {
            return Err(Refusal::NotInBook);
        };
        if !row.kind.is_open() {
            return Err(Refusal::WrongKind);
        }
        if holder != row.holder {
            return Err(Refusal::NotHolder);
        }
        Ok(row)
    }

    // 14 to 18: the same, if an identifier below it has at most 16 arcs, and it has left 1 and the quota, which is 0 for a panel.
    pub(crate) fn as_giver(
        &self,
        holder: u32,
        authority: &Identifier,
        quota: u32,
    ) -> Result<Row, Refusal>
        ensures asks { (others : Entry → Ruling) → as_giver (book_of self.now) holder (arcs_of authority.now) (1 + quota) others ≡ with_row result others }
        ensures room { IfOk result (λ _. length (arcs_of authority.now) < most_arcs) }
        ensures founded { IfOk result (λ _. refusal_of self.now ≡ None) }
    {
        let row = self.as_holder(holder, authority)?;
        if authority.len() >= MOST_ARCS {
            return Err(Refusal::TooDeep);
        }
        if self.left_of(&row) < 1 + u64::from(quota) {
            return Err(Refusal::TooLittleLeft);
        }
        Ok(row)
    }

    // Whether the caller is the holder of an entry's parent.
    pub(crate) fn holds_parent(&self, holder: u32, entry: &Identifier) -> bool
        ensures { result ≡ holds_parent holder (arcs_of entry.now) (book_of self.now) }
    {
        entry
            .parent()
            .and_then(|parent| self.entry(&parent))
            .is_some_and(|row| holder == row.holder)
    }
}
