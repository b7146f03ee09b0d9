// The calls that give Grants, and those that spend them.
ghost use Rattle.std.specs.Prelude.{◌≡◌, IfOk, IfErr, List, ℕ};
ghost use Rattle.oid.specs.Meaning.{arcs_of};
ghost use Rattle.book.specs.Calls.{collect, accept_grant, decline_grant};
ghost use Rattle.book.specs.Grants.{IsOwn};
ghost use Rattle.book.specs.Questions.{ruling};
ghost use Rattle.book.specs.declared.event.Event.TheVariants.{AcceptGrant, DeclineGrant};
ghost use Rattle.register.specs.Granted.{grant_of, answer_collected, answer_by_grant, Spends};
ghost use Rattle.register.specs.Registers.{book_of, rules_of, serial_of, Follows, KeepsRest};

use super::Register;
use crate::grant::{Grant, Unspent};
use arc_rules::ArcRule;
use book::{Event, Refusal};
use oid::Identifier;

impl<P: ArcRule, A: ArcRule> Register<P, A> {
    // Puts an offered entry in hand, and gives the Grant for it.
    pub fn collect(&mut self, taker: u32, entry: &Identifier) -> Result<Grant, Refusal>
        ensures ruling { Follows (ruling (rules_of P.means A.means self.old) (book_of self.old) (collect taker (arcs_of entry.now))) (book_of self.old) (answer_collected result) (book_of self.new) }
        ensures own { IfOk result (λ grant. IsOwn (serial_of self.new) (book_of self.new) (arcs_of entry.now) (grant_of grant)) }
        ensures rest { KeepsRest self.old self.new }
    {
        let standing = self.turn_offer(taker, entry, Event::Collect)?;
        Ok(Grant {
            serial: self.serial,
            row: standing.number,
            holder: standing.row.holder,
            quota: standing.row.quota,
        })
    }

    // Spends a Grant: its entry becomes open. A Grant that is refused comes back unspent.
    pub fn accept(&mut self, grant: Grant) -> Result<Identifier, Unspent>
        ensures spends { Spends (serial_of self.old) (book_of self.old) (grant_of grant) AcceptGrant (answer_by_grant result) (book_of self.new) }
        ensures named { (t : List ℕ) → IsOwn (serial_of self.old) (book_of self.old) t (grant_of grant)
            → Follows (ruling (rules_of P.means A.means self.old) (book_of self.old) (accept_grant t)) (book_of self.old) (answer_by_grant result) (book_of self.new) }
        ensures unspent { IfErr result (λ unspent. unspent.grant ≡ grant) }
        ensures rest { KeepsRest self.old self.new }
    {
        self.spend(grant, Event::AcceptGrant)
    }

    // Spends a Grant: its entry becomes declined. A Grant that is refused comes back unspent.
    pub fn decline(&mut self, grant: Grant) -> Result<Identifier, Unspent>
        ensures spends { Spends (serial_of self.old) (book_of self.old) (grant_of grant) DeclineGrant (answer_by_grant result) (book_of self.new) }
        ensures named { (t : List ℕ) → IsOwn (serial_of self.old) (book_of self.old) t (grant_of grant)
            → Follows (ruling (rules_of P.means A.means self.old) (book_of self.old) (decline_grant t)) (book_of self.old) (answer_by_grant result) (book_of self.new) }
        ensures unspent { IfErr result (λ unspent. unspent.grant ≡ grant) }
        ensures rest { KeepsRest self.old self.new }
    {
        self.spend(grant, Event::DeclineGrant)
    }
}

impl<P, A> Register<P, A> {
    // 22. Has the Grant this register's serial, and is its entry in hand? Then the event of one of a Grant's calls changes the entry's kind.
    fn spend(&mut self, grant: Grant, event: Event) -> Result<Identifier, Unspent>
        ensures spends { Spends (serial_of self.old) (book_of self.old) (grant_of grant) event (answer_by_grant result) (book_of self.new) }
        ensures unspent { IfErr result (λ unspent. unspent.grant ≡ grant) }
        ensures rest { KeepsRest self.old self.new }
    {
        if grant.serial != self.serial || !self.turn(grant.row, event) {
            return Err(Unspent {
                grant,
                refusal: Refusal::NotInHand,
            });
        }
        let Grant {
            serial: _,
            row,
            holder: _,
            quota: _,
        } = grant;
        Ok(self.rows[row].identifier)
    }
}
