// The reader of request lines.
ghost use Rattle.std.specs.Prelude.{◌≡◌, true, IfErr, ◌+◌, ◌<◌, ◌^◌, length};
ghost use Rattle.std.specs.Option.{option_and_then};
ghost use Rattle.std.specs.Result.{result_ok, result_map_both};
ghost use Rattle.oid.specs.Meaning.{arcs_of};
ghost use Rattle.book.specs.Calls.{place_of};
ghost use Rattle.request.specs.Lines.{ReadsExactly};
ghost use Rattle.request.specs.Parts.{part_of};
ghost use Rattle.request.specs.Reading.{identifier_in, call_by, read_line, place_of_line};
ghost use Rattle.request.specs.Refusals.{is_of_text};
ghost use Rattle.request.specs.Requests.{call_of_request, read_as};

use crate::fields::Fields;
use crate::limits::is_line;
use crate::part::{Part, Parts, SPACE};
use crate::refusal::{Fault, LineRefusal, Refusal};
use crate::request::{Reading, Request};
use crate::verb::Verb;
use dotted::pieces::first_piece;
use oid::Identifier;

// Reads a line, any bytes, as a request, or finds the first fault of its text.
#[tactic(auto, unfolding(crate::specs::Reading::read_line))]
pub fn read(line: &[u8]) -> Result<Reading, Fault>
    ensures value { read_as result ≡ read_line line.now }
    ensures exactly { ReadsExactly line.now (read_as result) }
    ensures refused { IfErr result (λ fault. is_of_text fault.refusal ≡ true) }
    ensures place { place_of_line line.now ≡ option_and_then (λ reading. place_of (call_of_request reading.request)) (result_ok result) }
{
    if !is_line(line) {
        return Err(LineRefusal::LineLength.at(0));
    }
    let word = first_piece(line, SPACE);
    let Some(verb) = Verb::of(word) else {
        return Err(LineRefusal::UnknownVerb.at(0));
    };
    let parts = Parts {
        line,
        place: word.len() + 1,
    };
    let Some(fields) = Fields::of(verb, parts) else {
        return Err(LineRefusal::WrongFields.at(0));
    };
    let numbers = fields.numbers()?;
    let part = fields.identifier.part();
    let identifier = identifier_in(part)?;
    Ok(Reading {
        request: request(verb, numbers, identifier),
        offset: part.offset,
    })
}

// The identifier that a part of a line is, or the fault of its text, further on by where the part begins.
fn identifier_in(part: Part<'_>) -> Result<Identifier, Fault>
    requires { part.offset + length part.text.now < 2 ^ 64 }
    ensures { result_map_both arcs_of (λ fault. fault) result ≡ identifier_in (part_of part.entry) }
{
    let mut identifier = Identifier::smallest();
    if let Err(fault) = dotted::read(part.text, &mut identifier) {
        return Err(Fault {
            refusal: Refusal::Identifier(fault.refusal),
            offset: part.offset + fault.offset,
        });
    }
    Ok(identifier)
}

// The request that a verb makes, of the numbers in its number fields and its identifier.
fn request(verb: Verb, numbers: [u32; 3], identifier: Identifier) -> Request
    ensures { call_of_request result ≡ call_by verb numbers (arcs_of identifier) }
{
    let [caller, second, third] = numbers;
    match verb {
        Verb::Grant => Request::Grant {
            holder: caller,
            authority: identifier,
        },
        Verb::Claim => Request::Claim {
            holder: caller,
            authority: identifier,
            arc: second,
        },
        Verb::Offer => Request::Offer {
            holder: caller,
            authority: identifier,
            quota: second,
            taker: third,
        },
        Verb::Accept => Request::Accept {
            taker: caller,
            entry: identifier,
        },
        Verb::Decline => Request::Decline {
            taker: caller,
            entry: identifier,
        },
        Verb::Retire => Request::Retire {
            holder: caller,
            entry: identifier,
        },
        Verb::Roll => Request::Roll {
            holder: caller,
            authority: identifier,
            from: second,
        },
    }
}
