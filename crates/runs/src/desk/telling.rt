// What a desk tells.
ghost use Rattle.std.specs.Prelude.{◌≡◌, count_by};
ghost use Rattle.oid.specs.Meaning.{arcs_of};
ghost use Rattle.book.specs.Founding.{founding_number};
ghost use Rattle.book.specs.Left.{told_left};
ghost use Rattle.register.specs.Registers.{refusal_of};
ghost use Rattle.runs.specs.Desks.{register_of, book_at};
ghost use Rattle.runs.specs.Hands.{in_hand, told_terms};

use super::Desk;
use crate::held::Held;
use book::{FoundingRefusal, Refusal};
use oid::Identifier;
use register::Terms;

impl<P, A> Desk<P, A> {
    // Why the founding was refused, if it was.
    pub fn refusal(&self) -> Option<FoundingRefusal>
        ensures { result ≡ refusal_of (register_of self.now) }
    {
        self.register.refusal()
    }

    // The number of that refusal; 0 where there is none.
    pub fn tells(&self) -> u8
        ensures { result ≡ founding_number (refusal_of (register_of self.now)) }
    {
        self.register.tells()
    }

    // What an authority has left.
    pub fn left(&self, entry: &Identifier) -> Result<u64, Refusal>
        ensures { result ≡ told_left (arcs_of entry.now) (book_at self.now) }
    {
        self.register.left(entry)
    }

    // How many Grants are out: as many as entries are in hand.
    pub fn out(&self) -> usize
        ensures { result ≡ count_by in_hand (book_at self.now) }
    {
        self.held.len()
    }

    // The terms of the Grant for an entry, by the Grant itself; refused where there is none.
    pub fn terms(&mut self, entry: &Identifier) -> Result<Terms, Refusal>
        ensures terms { result ≡ told_terms (arcs_of entry.now) (book_at self.old) }
        ensures same { register_of self.new ≡ register_of self.old }
    {
        let Some(place) = self.place_of(entry) else {
            return Err(Refusal::NotInHand);
        };
        let Held { entry, grant } = self.held.remove(place);
        let (grant, terms) = grant.terms();
        self.held.push_reserved(Held { entry, grant });
        Ok(terms)
    }
}
