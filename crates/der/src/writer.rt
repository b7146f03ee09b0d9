// The writer of encoded identifiers.
ghost use Rattle.std.specs.Prelude.{◌≡◌, ◌+◌, ◌≤◌, true, ◌∷◌, length, is_ok, IfOk};
ghost use Rattle.oid.specs.Meaning.{arcs_of};
ghost use Rattle.oid.specs.Pages.{at_front, new_end, page_after};
ghost use Rattle.der.specs.Header.{most_contents};
ghost use Rattle.der.specs.Laws.{ReadsBack};
ghost use Rattle.der.specs.Writing.{subidentifiers_of, contents_of, der_bytes, der_limit};

use crate::base128::{base128_length, write_base128};
use crate::header::{HEADER_LENGTH, TAG};
use crate::subidentifiers::arcs::PER_ROOT;
use oid::{Arc, Identifier, Refusal, fits};

// Writes the identifier's encoding into the page from a place onwards, and answers the new end. What it wrote reads
// back as the identifier, with nothing left over. Where too little of the page is left, or the place lies past its
// end, it refuses, and the page is untouched.
pub fn write(identifier: &Identifier, page: &mut [u8], place: usize) -> Result<usize, Refusal>
    ensures value { result ≡ new_end place (der_bytes (arcs_of identifier.now)) page.old }
    ensures after { page.new ≡ page_after place (der_bytes (arcs_of identifier.now)) page.old }
    ensures succeeds { place + der_limit ≤ length page.old → is_ok result ≡ true }
    ensures reads_back { IfOk result (λ end. ReadsBack page.new place end (arcs_of identifier.now)) }
{
    if !fits(page, place, encoding_length(identifier)) {
        return Err(Refusal::PageTooShort);
    }
    Ok(place + write_encoding(identifier, &mut page[place..]))
}

// How many bytes the encoding has.
fn encoding_length(identifier: &Identifier) -> usize
    ensures value { result ≡ length (der_bytes (arcs_of identifier.now)) }
    ensures bound { result ≤ der_limit }
{
    let (joined, later) = subidentifiers_of(identifier);
    let later_length: usize = later
        .iter()
        .map(|arc| base128_length(u64::from(*arc)))
        .sum();
    HEADER_LENGTH + base128_length(joined) + later_length
}

// Writes the encoding at the front of a page that has room for it, and answers how many bytes.
#[tactic(auto, using(crate::proofs::Contents::length_bytes))]
fn write_encoding(identifier: &Identifier, page: &mut [u8]) -> usize
    requires { length (der_bytes (arcs_of identifier.now)) ≤ length page.old }
    ensures value { result ≡ length (der_bytes (arcs_of identifier.now)) }
    ensures after { page.new ≡ at_front (der_bytes (arcs_of identifier.now)) page.old }
{
    let count = write_contents(identifier, &mut page[HEADER_LENGTH..]);
    page[0] = TAG;
    page[1] = count as u8;
    HEADER_LENGTH + count
}

// Writes the contents at the front of a page that has room for them, and answers how many bytes: few enough that one
// byte tells it.
#[tactic(auto, using(crate::proofs::Contents::length_more))]
fn write_contents(identifier: &Identifier, page: &mut [u8]) -> usize
    requires { length (contents_of (arcs_of identifier.now)) ≤ length page.old }
    ensures value { result ≡ length (contents_of (arcs_of identifier.now)) }
    ensures bound { result ≤ most_contents }
    ensures after { page.new ≡ at_front (contents_of (arcs_of identifier.now)) page.old }
{
    let (joined, later) = subidentifiers_of(identifier);
    let mut end = write_base128(joined, page);
    for arc in later {
        end += write_base128(u64::from(*arc), &mut page[end..]);
    }
    end
}

// An identifier's subidentifiers: its first two arcs share one, and each later arc is one of its own.
#[tactic(auto, using(oid::proofs::Tree::some_arcs, crate::proofs::Contents::subs_are))]
fn subidentifiers_of(identifier: &Identifier) -> (u64, &[Arc])
    ensures { result.0 ∷ result.1.now ≡ subidentifiers_of (arcs_of identifier.now) }
{
    let [first, second, later @ ..] = identifier.arcs() else {
        unreachable!()
    };
    (PER_ROOT * u64::from(*first) + u64::from(*second), later)
}
