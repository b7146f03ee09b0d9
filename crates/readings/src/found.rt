// What a line asks for.
ghost use Rattle.std.specs.Prelude.{Some, Ok};
ghost use Rattle.request.specs.Requests.{reading_of};
ghost use Rattle.readings.specs.Answers.{printed};

use codecs::Text;
use request::{Reading, Request};
use std::fmt;

// A request, and where in its line the identifier begins.
#[derive(Clone, Copy)]
pub struct Found(pub Reading);

// Where the identifier begins, and the request as a line without the prefix.
impl fmt::Display for Found {
    ghost output = { λ found. Some (printed (Ok (reading_of found.0))) };

    fn fmt<W: fmt::Write>(&self, f: &mut fmt::Formatter<W>) -> fmt::Result {
        let offset = self.0.offset;
        match &self.0.request {
            Request::Grant { holder, authority } => {
                let authority = Text(authority);
                write!(f, "{offset} grant {holder} {authority}")
            }
            Request::Claim {
                holder,
                authority,
                arc,
            } => {
                let authority = Text(authority);
                write!(f, "{offset} claim {holder} {authority} {arc}")
            }
            Request::Offer {
                holder,
                authority,
                quota,
                taker,
            } => {
                let authority = Text(authority);
                write!(f, "{offset} offer {holder} {authority} {quota} {taker}")
            }
            Request::Accept { taker, entry } => {
                let entry = Text(entry);
                write!(f, "{offset} accept {taker} {entry}")
            }
            Request::Decline { taker, entry } => {
                let entry = Text(entry);
                write!(f, "{offset} decline {taker} {entry}")
            }
            Request::Retire { holder, entry } => {
                let entry = Text(entry);
                write!(f, "{offset} retire {holder} {entry}")
            }
            Request::Roll {
                holder,
                authority,
                from,
            } => {
                let authority = Text(authority);
                write!(f, "{offset} roll {holder} {authority} {from}")
            }
        }
    }
}
