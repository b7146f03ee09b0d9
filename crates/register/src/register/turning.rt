// The calls that change the kind of the entry that they name.
ghost use Rattle.std.specs.Prelude.{◌==◌, IfOk, IfErr};
ghost use Rattle.oid.specs.Meaning.{arcs_of};
ghost use Rattle.book.specs.Book.{Entry};
ghost use Rattle.book.specs.Questions.{turning, holds_parent};
ghost use Rattle.book.specs.Rulings.{Answer};
ghost use Rattle.book.specs.declared.event.Event.TheVariants.{Retire};
ghost use Rattle.register.specs.Asked.{answer_turned, StandsFirst, Refuses};
ghost use Rattle.register.specs.Registers.{book_of, Follows, KeepsRest};

use super::Register;
use crate::standing::Standing;
use book::{Event, Refusal};
use oid::Identifier;

impl<P, A> Register<P, A> {
    // An offered entry gets another kind, if the caller is the holder whom the offer names. It answers the entry as it was.
    pub(crate) fn turn_offer(
        &mut self,
        taker: u32,
        entry: &Identifier,
        event: Event,
    ) -> Result<Standing, Refusal>
        ensures ruling { (answer : Entry → Answer) → Follows (turning (book_of self.old) (arcs_of entry.now) event (λ offered. taker == offered.holder) answer) (book_of self.old) (answer_turned answer result) (book_of self.new) }
        ensures stands { IfOk result (StandsFirst (book_of self.old) (arcs_of entry.now) event) }
        ensures rest { KeepsRest self.old self.new }
    {
        let standing = self.changing(entry, event)?;
        if taker != standing.row.holder {
            return Err(Refusal::NotHolder);
        }
        self.turn(standing.number, event);
        Ok(standing)
    }

    // A panel is retired, if the caller is the holder of its parent.
    pub(crate) fn retire(&mut self, holder: u32, entry: &Identifier) -> Result<Standing, Refusal>
        ensures ruling { (answer : Entry → Answer) → Follows (turning (book_of self.old) (arcs_of entry.now) Retire (λ _. holds_parent holder (arcs_of entry.now) (book_of self.old)) answer) (book_of self.old) (answer_turned answer result) (book_of self.new) }
        ensures rest { KeepsRest self.old self.new }
    {
        let standing = self.changing(entry, Event::Retire)?;
        if !self.holds_parent(holder, entry) {
            return Err(Refusal::NotHolder);
        }
        self.turn(standing.number, Event::Retire);
        Ok(standing)
    }

    // 14 and 15: the entry, if it stands in the book, and its kind is one that the event changes.
    fn changing(&self, entry: &Identifier, event: Event) -> Result<Standing, Refusal>
        ensures stands { IfOk result (StandsFirst (book_of self.now) (arcs_of entry.now) event) }
        ensures refuses { IfErr result (Refuses (book_of self.now) (arcs_of entry.now) event) }
    {
        let Some(number) = self.row_at(entry) else {
            return Err(Refusal::NotInBook);
        };
        let row = self.rows[number];
        let mut turned = row;
        if !turned.turn(event) {
            return Err(Refusal::WrongKind);
        }
        Ok(Standing { number, row })
    }
}
