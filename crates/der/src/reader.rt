// The reader of encoded identifiers.
ghost use Rattle.std.specs.Prelude.{◌≡◌, drop, OnErr};
ghost use Rattle.std.specs.Result.{result_unwrap_or};
ghost use Rattle.oid.specs.Meaning.{arcs_of};
ghost use Rattle.oid.specs.Refusals.{filled};
ghost use Rattle.der.specs.Laws.{Exactly, Splits};
ghost use Rattle.der.specs.Reading.{read_der, taken};

use crate::base128::is_last;
use crate::header::{HEADER_LENGTH, contents_in};
use crate::subidentifiers::arcs::collect_arcs;
use crate::subidentifiers::first_padded;
use oid::{Fault, Identifier, Refusal};

// Reads the identifier at the front of the bytes into the caller's, and answers how many bytes it took. On a fault the
// identifier stays as it was.
pub fn read(bytes: &[u8], identifier: &mut Identifier) -> Result<usize, Fault>
    ensures value { result ≡ taken bytes.now }
    ensures after { arcs_of identifier.new ≡ filled (read_der bytes.now) (arcs_of identifier.old) }
    ensures same { OnErr result (identifier.new ≡ identifier.old) }
    ensures exactly { Exactly bytes.now result (arcs_of identifier.new) }
{
    let contents = contents_in(bytes)?;
    let end = HEADER_LENGTH + contents.len();
    if !contents.last().is_some_and(|byte| is_last(*byte)) {
        return Err(Refusal::Unfinished.at(end - 1));
    }
    if let Some(offset) = first_padded(contents) {
        return Err(Refusal::Padded.at(offset));
    }
    *identifier = collect_arcs(contents).finish()?;
    Ok(end)
}

// How many bytes the identifier at the front takes, and what follows them; 0 and all of the bytes where none is read.
#[tactic(auto, using(crate::proofs::Theorems::taken_within))]
pub fn split(bytes: &[u8]) -> (usize, &[u8])
    ensures first { result.0 ≡ result_unwrap_or (taken bytes.now) 0 }
    ensures second { result.1.now ≡ drop (result_unwrap_or (taken bytes.now) 0) bytes.now }
    ensures exactly { Splits bytes.now result.0 result.1.now }
{
    let mut identifier = Identifier::smallest();
    let count = read(bytes, &mut identifier).unwrap_or(0);
    (count, &bytes[count..])
}
