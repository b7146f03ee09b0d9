// The writer of dotted text.
ghost use Rattle.std.specs.Prelude.{◌≡◌, ◌+◌, ◌≤◌, true, length, is_ok, IfOk};
ghost use Rattle.oid.specs.Meaning.{arcs_of};
ghost use Rattle.oid.specs.Pages.{fits, at_front, new_end, page_after};
ghost use Rattle.dotted.specs.Laws.{ReadsBack};
ghost use Rattle.dotted.specs.Writing.{after_dot, dotted_text, text_limit};

use crate::decimal::{digit_count, write_number};
use oid::{Arc, Identifier, Refusal, fits};

// No identifier's text has more bytes, whatever the arc limit within 64 bits: 16 arcs of at most 20 digits, with 15
// dots.
pub const TEXT_LIMIT: usize = 335;

// Writes the identifier's text into the page from a place onwards, and answers the new end. What it wrote
// reads back as the identifier. Where too little of the page is left, or the place lies past its end, it refuses,
// and the page is untouched.
pub fn write(identifier: &Identifier, page: &mut [u8], place: usize) -> Result<usize, Refusal>
    ensures value { result ≡ new_end place (dotted_text (arcs_of identifier.now)) page.old }
    ensures after { page.new ≡ page_after place (dotted_text (arcs_of identifier.now)) page.old }
    ensures succeeds { place + text_limit ≤ length page.old → is_ok result ≡ true }
    ensures reads_back { IfOk result (λ end. ReadsBack page.new place end (arcs_of identifier.now)) }
{
    if !has_room(identifier, page, place) {
        return Err(Refusal::PageTooShort);
    }
    let length = write_text(identifier, &mut page[place..]);
    Ok(place + length)
}

// Whether enough of the page is left for the identifier's text. It is not measured where there is enough for any, or the place lies past the end.
fn has_room(identifier: &Identifier, page: &[u8], place: usize) -> bool
    ensures { result ≡ fits place (dotted_text (arcs_of identifier.now)) page.now }
{
    fits(page, place, TEXT_LIMIT)
        || place <= page.len() && fits(page, place, text_length(identifier))
}

// How many bytes the identifier's text has: a dot with each arc but one.
fn text_length(identifier: &Identifier) -> usize
    ensures { result ≡ length (dotted_text (arcs_of identifier.now)) }
{
    let arcs = identifier.arcs();
    let with_dots: usize = arcs
        .iter()
        .map(|arc| 1 + digit_count(u64::from(*arc)))
        .sum();
    with_dots - 1
}

// Writes the identifier's text at the front of a page that has room for it, and answers how many bytes.
#[tactic(auto, using(oid::proofs::Tree::some_arcs))]
fn write_text(identifier: &Identifier, page: &mut [u8]) -> usize
    requires { length (dotted_text (arcs_of identifier.now)) ≤ length page.old }
    ensures value { result ≡ length (dotted_text (arcs_of identifier.now)) }
    ensures after { page.new ≡ at_front (dotted_text (arcs_of identifier.now)) page.old }
{
    let arcs = identifier.arcs();
    let mut end = write_number(u64::from(arcs[0]), page);
    for arc in &arcs[1..] {
        end += write_after_dot(*arc, &mut page[end..]);
    }
    end
}

// Writes a dot and an arc at the front of a page that has room for both, and answers how many bytes.
fn write_after_dot(arc: Arc, page: &mut [u8]) -> usize
    requires { length (after_dot arc) ≤ length page.old }
    ensures value { result ≡ length (after_dot arc) }
    ensures after { page.new ≡ at_front (after_dot arc) page.old }
{
    page[0] = b'.';
    1 + write_number(u64::from(arc), &mut page[1..])
}
