// The writer of one number.
ghost use Rattle.std.specs.Prelude.{◌≡◌, ◌≤◌, length, decimal};
ghost use Rattle.oid.specs.Pages.{at_front, new_end, page_after};

use digits::write_digits;
use oid::{Refusal, fits};

// Writes a number in decimal into the page from a place onwards, and answers the new end. Where too little of the page is left, or the
// place lies past its end, it refuses, and the page is untouched.
pub fn write_decimal(number: u64, page: &mut [u8], place: usize) -> Result<usize, Refusal>
    ensures value { result ≡ new_end place (decimal number) page.old }
    ensures after { page.new ≡ page_after place (decimal number) page.old }
{
    let length = digit_count(number);
    if !fits(page, place, length) {
        return Err(Refusal::PageTooShort);
    }
    write_number(number, &mut page[place..]);
    Ok(place + length)
}

// How many decimal digits a number has.
#[tactic(auto, using(crate::proofs::Digits::length_digits, crate::proofs::Digits::length_most))]
pub(crate) fn digit_count(number: u64) -> usize
    ensures value { result ≡ length (decimal number) }
    ensures most { result ≤ 20 }
{
    digits::digit_count::<10>(number)
}

// Writes a number in decimal at the front of a page that has room for it, and answers how many digits.
#[tactic(auto, using(crate::proofs::Digits::length_digits, digits::proofs::Steps::digit_below))]
pub(crate) fn write_number(number: u64, page: &mut [u8]) -> usize
    requires { length (decimal number) ≤ length page.old }
    ensures value { result ≡ length (decimal number) }
    ensures after { page.new ≡ at_front (decimal number) page.old }
{
    let Some(count) = write_digits::<10>(number, page) else {
        unreachable!()
    };
    for place in 0..count {
        page[place] += b'0';
    }
    count
}
