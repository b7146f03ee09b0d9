// Request lines answered.
ghost use Rattle.std.specs.Prelude.{ℕ, ◌≡◌, true, false, Ok, Err, cond, length};
ghost use Rattle.book.specs.Questions.{ruling};
ghost use Rattle.book.specs.Runs.{answer_to, Serves, after_made};
ghost use Rattle.request.specs.Limits.{has_room};
ghost use Rattle.request.specs.Reading.{call_of};
ghost use Rattle.request.specs.RequestLines.{request_lines};
ghost use Rattle.request.specs.Requests.{call_of_request};
ghost use Rattle.request.specs.declared.page.PageRefusal.TheVariants.{TooShort};
ghost use Rattle.register.specs.Registers.{book_of, rules_of, Follows, KeepsRest};
ghost use Rattle.register.specs.Submitted.{bytes_to, keeps_beyond, line_exchange, OnPage};
ghost use Rattle.register.specs.Yes.{answer_yes, bytes_yes, is_one_line};

use super::Register;
use crate::yes::Yes;
use arc_rules::ArcRule;
use book::{Event, Refusal};
use request::page::has_room;
use request::{Fault, PageRefusal, Request, read, write_first_line};

impl<P: ArcRule, A: ArcRule> Register<P, A> {
    // Answers one request line, without its end: writes the answer at the front of the page, and tells how long it is. A page that is too
    // short is untouched, and nothing is done.
    pub fn submit(&mut self, line: &[u8], page: &mut [u8]) -> Result<usize, PageRefusal>
        ensures value { result ≡ cond (has_room (length page.old)) (Ok (length (bytes_to (rules_of P.means A.means self.old) (book_of self.old) line.now (length page.old)))) (Err TooShort) }
        ensures page { has_room (length page.old) ≡ true → OnPage (bytes_to (rules_of P.means A.means self.old) (book_of self.old) line.now (length page.old)) (keeps_beyond (answer_to request_lines (rules_of P.means A.means self.old) (book_of self.old) line.now)) page.old page.new }
        ensures untouched { has_room (length page.old) ≡ false → page.new ≡ page.old }
        ensures serves { Serves request_lines (rules_of P.means A.means self.old) (book_of self.old)
            (line_exchange line.now (length page.old) result page.new (book_of self.new)) }
        ensures rest { KeepsRest self.old self.new }
    {
        if !has_room(page) {
            return Err(PageRefusal::TooShort);
        }
        match self.answer(line) {
            Ok(Yes::Named(identifier)) => write_first_line(Ok(identifier), page),
            Ok(Yes::Listed { authority, from }) => self.write_roll(&authority, from, page),
            Err(fault) => write_first_line(Err(fault), page),
        }
    }

    // What a line is answered. A no of the book is at the line's identifier.
    fn answer(&mut self, line: &[u8]) -> Result<Yes, Fault>
        ensures bytes { (page_length : ℕ) → bytes_yes (book_of self.new) page_length result ≡ bytes_to (rules_of P.means A.means self.old) (book_of self.old) line.now page_length }
        ensures one_line { is_one_line result ≡ keeps_beyond (answer_to request_lines (rules_of P.means A.means self.old) (book_of self.old) line.now) }
        ensures book { book_of self.new ≡ after_made (rules_of P.means A.means self.old) (book_of self.old) (call_of line.now) }
        ensures rest { KeepsRest self.old self.new }
    {
        let reading = read(line)?;
        match self.call(&reading.request) {
            Ok(yes) => Ok(yes),
            Err(refusal) => Err(Fault {
                refusal: request::Refusal::Book(refusal),
                offset: reading.offset,
            }),
        }
    }

    // Makes the call that a request asks for.
    fn call(&mut self, request: &Request) -> Result<Yes, Refusal>
        ensures ruling { Follows (ruling (rules_of P.means A.means self.old) (book_of self.old) (call_of_request request.now)) (book_of self.old) (answer_yes (book_of self.new) result) (book_of self.new) }
        ensures rest { KeepsRest self.old self.new }
    {
        let named = match request {
            Request::Grant { holder, authority } => self.grant(*holder, authority)?,
            Request::Claim {
                holder,
                authority,
                arc,
            } => self.claim(*holder, authority, *arc)?,
            Request::Offer {
                holder,
                authority,
                quota,
                taker,
            } => self.offer(*holder, authority, *quota, *taker)?,
            Request::Accept { taker, entry } => {
                self.turn_offer(*taker, entry, Event::Accept)?;
                *entry
            }
            Request::Decline { taker, entry } => {
                self.turn_offer(*taker, entry, Event::Decline)?;
                *entry
            }
            Request::Retire { holder, entry } => {
                self.retire(*holder, entry)?;
                *entry
            }
            Request::Roll {
                holder,
                authority,
                from,
            } => {
                self.as_holder(*holder, authority)?;
                return Ok(Yes::Listed {
                    authority: *authority,
                    from: *from,
                });
            }
        };
        Ok(Yes::Named(named))
    }
}
