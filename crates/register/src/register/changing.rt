// How the rows of a register change: one is entered, or gets another kind.
ghost use Rattle.std.specs.Prelude.{◌≡◌, None, is_some};
ghost use Rattle.book.specs.Changes.{next_in, with_entry};
ghost use Rattle.register.specs.Kept.{entry_of};
ghost use Rattle.book.specs.Questions.{entering};
ghost use Rattle.register.specs.Registers.{book_of, refusal_of, answer_named, Follows, KeepsRest};

use super::{MOST_ENTRIES, Register};
use crate::row::Row;
use book::{Event, Refusal};
use oid::Identifier;

impl<P, A> Register<P, A> {
    // Enters a row behind the others, in a register that was not refused, and gives its identifier. Has the book fewer than 512
    // entries? If not, the row is refused.
    pub(crate) fn enter(&mut self, row: Row) -> Result<Identifier, Refusal>
        requires { refusal_of self.old ≡ None }
        ensures ruling { Follows (entering (book_of self.old) (entry_of row)) (book_of self.old) (answer_named result) (book_of self.new) }
        ensures rest { KeepsRest self.old self.new }
    {
        if self.rows.len() >= MOST_ENTRIES {
            return Err(Refusal::BookFull);
        }
        self.rows.push_reserved(row);
        Ok(row.identifier)
    }

    // Changes the kind of a row as an event does, and tells whether it does: not where the event changes no entry of that kind, nor
    // where there is no such row.
    pub(crate) fn turn(&mut self, row: usize, event: Event) -> bool
        ensures answer { result ≡ is_some (next_in (book_of self.old) row event) }
        ensures book { book_of self.new ≡ with_entry row (next_in (book_of self.old) row event) (book_of self.old) }
        ensures rest { KeepsRest self.old self.new }
    {
        if row >= self.rows.len() {
            return false;
        }
        let row = &mut self.rows[row];
        row.turn(event)
    }
}
