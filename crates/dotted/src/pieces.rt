// Pieces between separators, and the numbers of dotted text, piece by piece.
ghost use Rattle.std.specs.Prelude.{◌≡◌, ◌≤◌, ◌==◌, length, drop};
ghost use Rattle.std.specs.Iterator.{YieldsFirst, item_count};
ghost use Rattle.std.specs.List.{before_first};
ghost use Rattle.std.specs.Option.{option_and_then};
ghost use Rattle.std.specs.Str.{all_ascii_digits};
ghost use Rattle.oid.specs.Arcs.{arc_of};
ghost use Rattle.oid.specs.Collected.{Collected, numeral_of};
ghost use Rattle.dotted.specs.Form.{is_dot};
ghost use Rattle.dotted.specs.Pieces.{decimal_value, leading_zero, is_numeral, numeral, number_in, numbers_from};
ghost use Rattle.dotted.specs.Numerals.{numerals_left};

use digits::with_digit;
use oid::arc::arc_of;
use oid::{Arc, Collector, Numeral};

// All numbers of the text from `start` on.
pub(crate) fn collect_numbers(text: &[u8], start: usize) -> Collector
    requires { start ≤ length text.now }
    ensures { Collected result (numbers_from start (drop start text.now)) }
{
    let numerals = Numerals { text, place: start };
    let mut collector = Collector::new();
    for numeral in numerals {
        collector.add(numeral);
    }
    collector
}

// The numbers that a text writes from a place on. Behind the last one the place lies past the text's end.
#[derive(Drop)]
struct Numerals<'a> {
    text: &'a [u8],
    place: usize,
}

impl Iterator for Numerals<'_> {
    type Item = Numeral;

    ghost next_gives = { YieldsFirst numerals_left };

    ghost remaining = { item_count numerals_left };

    fn next(&mut self) -> Option<Numeral> {
        let piece = first_piece(self.text.get(self.place..)?, b'.');
        let numeral = numeral_in(piece, self.place);
        self.place += piece.len() + 1;
        Some(numeral)
    }
}

// The bytes before the first separator, or all of them.
pub fn first_piece(text: &[u8], separator: u8) -> &[u8]
    ensures { result.now ≡ before_first (λ byte. byte == separator) text.now }
{
    let end = text.iter().position(|byte| *byte == separator);
    &text[..end.unwrap_or(text.len())]
}

// The number that a piece writes, which begins at `offset`.
fn numeral_in(digits: &[u8], offset: usize) -> Numeral
    ensures { result ≡ numeral_of (number_in (record { offset = offset; digits = digits.now })) }
{
    Numeral {
        offset,
        arc: arc_in(digits),
        padded: leading_zero(digits),
    }
}

// The arc that decimal digits write; none where it is too large. Other bytes than digits are read as some digits.
pub fn arc_in(digits: &[u8]) -> Option<Arc>
    ensures { result ≡ arc_of (decimal_value digits.now) }
{
    let number = digits.iter().fold(0, |value, digit| {
        with_digit::<10>(value, digit.saturating_sub(b'0'))
    });
    arc_of(number)
}

// Whether there are two or more digits of which the first is 0.
pub fn leading_zero(digits: &[u8]) -> bool
    ensures { result ≡ leading_zero digits.now }
{
    digits.len() > 1 && digits[0] == b'0'
}

// The arc that decimal digits write without a needless 0 in front; none where the bytes are anything else, or the number is too large.
pub fn numeral(text: &[u8]) -> Option<Arc>
    ensures { result ≡ option_and_then arc_of (numeral text.now) }
{
    if !is_numeral(text) {
        return None;
    }
    arc_in(text)
}

// Whether the bytes are decimal digits without a needless 0 in front.
fn is_numeral(text: &[u8]) -> bool
    ensures { result ≡ is_numeral text.now }
{
    !text.is_empty() && all_digits(text) && !leading_zero(text)
}

fn all_digits(text: &[u8]) -> bool
    ensures { result ≡ all_ascii_digits text.now }
{
    text.iter().all(|byte| byte.is_ascii_digit())
}
