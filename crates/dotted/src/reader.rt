// The reader of dotted text.
ghost use Rattle.std.specs.Prelude.{◌≡◌, OnErr};
ghost use Rattle.oid.specs.Meaning.{arcs_of};
ghost use Rattle.oid.specs.Refusals.{answered, filled};
ghost use Rattle.dotted.specs.Laws.{Exactly, Prefixed, MalformedAtFirst};
ghost use Rattle.dotted.specs.Reading.{read_dotted};

use crate::form::first_fault;
use crate::pieces::collect_numbers;
use crate::prefix::prefix_length;
use oid::{Fault, Identifier, Refusal};

// Reads a text, with or without the prefix, into the caller's identifier. On a fault the identifier stays
// as it was.
pub fn read(text: &[u8], identifier: &mut Identifier) -> Result<(), Fault>
    ensures value { result ≡ answered (read_dotted text.now) }
    ensures after { arcs_of identifier.new ≡ filled (read_dotted text.now) (arcs_of identifier.old) }
    ensures same { OnErr result (identifier.new ≡ identifier.old) }
    ensures exactly { Exactly text.now result (arcs_of identifier.new) }
    ensures prefixed { Prefixed text.now result }
    ensures first { MalformedAtFirst text.now result }
{
    let start = prefix_length(text);
    if let Some(offset) = first_fault(text, start) {
        return Err(Refusal::NotDotted.at(offset));
    }
    *identifier = collect_numbers(text, start).finish()?;
    Ok(())
}
