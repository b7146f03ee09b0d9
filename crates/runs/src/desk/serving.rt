// Calls made at a desk.
ghost use Rattle.std.specs.Prelude.{ℕ, ◌≡◌, List, position};
ghost use Rattle.oid.specs.Meaning.{arcs_of};
ghost use Rattle.book.specs.Runs.{Serves, collects, accepts_grant, declines_grant};
ghost use Rattle.request.specs.RequestLines.{request_lines};
ghost use Rattle.register.specs.Registers.{KeepsRest};
ghost use Rattle.runs.specs.Calls.{back_of, exchange_of, PageAfter};
ghost use Rattle.runs.specs.Hands.{is_for};
ghost use Rattle.runs.specs.Out.{held_in};
ghost use Rattle.runs.specs.Desks.{register_of, book_at, rules_at, LawKept};

use super::Desk;
use crate::call::{Back, Call};
use crate::held::Held;
use arc_rules::ArcRule;
use book::Refusal;
use oid::Identifier;

impl<P: ArcRule, A: ArcRule> Desk<P, A> {
    // Makes one call. A line's answer is written at the front of the page; the other calls leave the page alone.
    pub fn serve(&mut self, call: Call<'_>, page: &mut [u8]) -> Back
        ensures serves { Serves request_lines (rules_at P.means A.means self.old) (book_at self.old) (exchange_of call.entry page.old result page.new (book_at self.new)) }
        ensures law { LawKept (rules_at P.means A.means self.old) (book_at self.old) (exchange_of call.entry page.old result page.new (book_at self.new)) }
        ensures page { PageAfter (rules_at P.means A.means self.old) (book_at self.old) call.entry page.old result page.new }
        ensures rest { KeepsRest (register_of self.old) (register_of self.new) }
    {
        match call {
            Call::Line(line) => match self.register.submit(line, page) {
                Ok(length) => Back::Written(length),
                Err(_) => Back::TooShort,
            },
            Call::Collect { taker, entry } => self.collect(taker, entry),
            Call::Accept(entry) => self.accept(entry),
            Call::Decline(entry) => self.decline(entry),
        }
    }

    // Collects the Grant of an offered entry, and keeps it.
    fn collect(&mut self, taker: u32, entry: &Identifier) -> Back
        ensures serves { (page : List ℕ) → Serves request_lines (rules_at P.means A.means self.old) (book_at self.old)
            (record { sent = collects taker (arcs_of entry.now); back = back_of result page; book = book_at self.new }) }
        ensures rest { KeepsRest (register_of self.old) (register_of self.new) }
    {
        match self.register.collect(taker, entry) {
            Ok(grant) => {
                let (grant, terms) = grant.terms();
                self.held.push_reserved(Held {
                    entry: *entry,
                    grant,
                });
                Back::Handed(terms)
            }
            Err(refusal) => Back::Refused(refusal),
        }
    }

    // Spends the Grant that is kept for an entry: the entry becomes open. Where there is none, no register is asked.
    fn accept(&mut self, entry: &Identifier) -> Back
        ensures serves { (page : List ℕ) → Serves request_lines (rules_at P.means A.means self.old) (book_at self.old)
            (record { sent = accepts_grant (arcs_of entry.now); back = back_of result page; book = book_at self.new }) }
        ensures rest { KeepsRest (register_of self.old) (register_of self.new) }
    {
        let Some(place) = self.place_of(entry) else {
            return Back::Refused(Refusal::NotInHand);
        };
        let Held { entry: _, grant } = self.held.remove(place);
        match self.register.accept(grant) {
            Ok(_) => Back::Done,
            // A register's own Grant is never refused.
            Err(_unspent) => unreachable!(),
        }
    }

    // Spends the Grant that is kept for an entry: the entry becomes declined.
    fn decline(&mut self, entry: &Identifier) -> Back
        ensures serves { (page : List ℕ) → Serves request_lines (rules_at P.means A.means self.old) (book_at self.old)
            (record { sent = declines_grant (arcs_of entry.now); back = back_of result page; book = book_at self.new }) }
        ensures rest { KeepsRest (register_of self.old) (register_of self.new) }
    {
        let Some(place) = self.place_of(entry) else {
            return Back::Refused(Refusal::NotInHand);
        };
        let Held { entry: _, grant } = self.held.remove(place);
        match self.register.decline(grant) {
            Ok(_) => Back::Done,
            // A register's own Grant is never refused.
            Err(_unspent) => unreachable!(),
        }
    }
}

impl<P, A> Desk<P, A> {
    // Where the Grant is kept that was collected for an entry.
    pub(super) fn place_of(&self, entry: &Identifier) -> Option<usize>
        ensures { result ≡ position (is_for (arcs_of entry.now)) (held_in self.now.held.items) }
    {
        self.held.iter().position(|held| held.is_for(entry))
    }
}
