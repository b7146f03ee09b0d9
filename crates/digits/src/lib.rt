// Numbers in the digits of a base: the digits of a number, and a number read digit by digit.
#![tactic(auto)]

ghost use Rattle.std.specs.Prelude.{◌≡◌, ◌+◌, ◌-◌, ◌*◌, ◌^◌, ◌≤◌, ◌++◌, max, min, length, drop};
ghost use Rattle.arrayvec.specs.ArrayVec.{array_vec_len};
ghost use Rattle.digits.specs.Digits.{digits_in, digits_written, page_after};

use arrayvec::ArrayVec;

#[cfg(test)]
mod tests;

// No number of 64 bits has more digits, whatever the base.
pub const MOST_DIGITS: usize = 64;

// The digits of a number, the highest first: one at least. A base below 2 counts as 2.
#[tactic(auto, using(crate::proofs::Steps::length_most))]
pub fn digits<const BASE: u8>(number: u64) -> ArrayVec<u8, MOST_DIGITS>
    ensures { result.items ≡ digits_in (max BASE 2) number }
{
    let mut page = [0; MOST_DIGITS];
    let Some(count) = write_digits::<BASE>(number, &mut page) else {
        unreachable!()
    };
    let mut digits = ArrayVec::from(page);
    digits.truncate(count);
    digits
}

// How many digits a number has. A base below 2 counts as 2.
#[tactic(auto, using(crate::proofs::Steps::one_digit, crate::proofs::Steps::length_step, crate::proofs::Steps::length_most))]
pub fn digit_count<const BASE: u8>(number: u64) -> usize
    ensures value { result ≡ length (digits_in (max BASE 2) number) }
    ensures some { 1 ≤ result }
    ensures most { result ≤ 64 }
{
    let base = base_of::<BASE>();
    if number < base {
        return 1;
    }
    1 + digit_count::<BASE>(number / base)
}

// Writes the digits of a number at the front of a page, from the last to the first, and answers how many. None where the page has no
// room for them, and then it is untouched. A base below 2 counts as 2.
pub fn write_digits<const BASE: u8>(number: u64, page: &mut [u8]) -> Option<usize>
    ensures value { result ≡ digits_written (digits_in (max BASE 2) number) page.old }
    ensures after { page.new ≡ page_after (digits_in (max BASE 2) number) page.old }
{
    let base = base_of::<BASE>();
    let count = digit_count::<BASE>(number);
    if count > page.len() {
        return None;
    }
    page[count - 1] = (number % base) as u8;
    let mut rest = number / base;
    for place in (0..count - 1).rev() {
        page[place] = (rest % base) as u8;
        rest /= base;
    }
    Some(count)
}

// The base that is meant: 2 at least.
fn base_of<const BASE: u8>() -> u64
    ensures value { result ≡ max BASE 2 }
    ensures some { 2 ≤ result }
{
    u64::from(BASE.max(2))
}

// The value of some digits and one more behind them; the largest of 64 bits where it is larger.
pub fn with_digit<const BASE: u8>(value: u64, digit: u8) -> u64
    ensures { result ≡ min (value * BASE + digit) (2 ^ 64 - 1) }
{
    value
        .saturating_mul(u64::from(BASE))
        .saturating_add(u64::from(digit))
}
