// Numbers in base 128.
ghost use Rattle.std.specs.Prelude.{◌≡◌, ◌+◌, ◌-◌, ◌^◌, ◌≤◌, min, length, drop};
ghost use Rattle.oid.specs.Pages.{at_front};
ghost use Rattle.der.specs.Base128.{is_last, base128, first_series, value_of};

use digits::{digit_count, with_digit, write_digits};

// What is added to each byte but the last.
const MORE: u8 = 0x80;

// Whether nothing is added to a byte, so that it ends a number.
pub(crate) fn is_last(byte: u8) -> bool
    ensures { result ≡ is_last byte }
{
    byte < MORE
}

// The bytes at the front that belong to one number, up to the first that can be a last byte, or all; and those behind.
pub(crate) fn split_series(bytes: &[u8]) -> (&[u8], &[u8])
    ensures front { result.0.now ≡ first_series bytes.now }
    ensures back { result.1.now ≡ drop (length (first_series bytes.now)) bytes.now }
    ensures lengths { length result.0.now + length result.1.now ≡ length bytes.now }
{
    match bytes.iter().position(|byte| is_last(*byte)) {
        Some(last) => bytes.split_at(last + 1),
        None => (bytes, &[]),
    }
}

// The number that some bytes stand for, or the largest of 64 bits where it is larger.
pub(crate) fn read_base128(bytes: &[u8]) -> u64
    ensures { result ≡ min (value_of bytes.now) (2 ^ 64 - 1) }
{
    bytes
        .iter()
        .fold(0, |value, byte| with_digit::<128>(value, *byte % MORE))
}

// How many bytes a number has.
#[tactic(auto, using(crate::proofs::Digits::length_digits))]
pub(crate) fn base128_length(number: u64) -> usize
    ensures { result ≡ length (base128 number) }
{
    digit_count::<128>(number)
}

// Writes a number at the front of a page that has room for it, and answers how many bytes.
#[tactic(auto, using(crate::proofs::Digits::length_digits, crate::proofs::Digits::some_bytes))]
pub(crate) fn write_base128(number: u64, page: &mut [u8]) -> usize
    requires { length (base128 number) ≤ length page.old }
    ensures value { result ≡ length (base128 number) }
    ensures after { page.new ≡ at_front (base128 number) page.old }
{
    let Some(count) = write_digits::<128>(number, page) else {
        unreachable!()
    };
    for at in 0..count - 1 {
        page[at] += MORE;
    }
    count
}
