// What the programs print of bytes, and of a line that is too long.
ghost use Rattle.std.specs.Prelude.{◌≡◌, ◌<◌, Some, [], ◌∷◌};
ghost use Rattle.std.specs.Fmt.{WritesOnOk};
ghost use Rattle.input.specs.Hex.{digit_of, pair_of, pairs_of};
ghost use Rattle.input.specs.Limits.{too_long_text};

use crate::line::LINE_LIMIT;
use std::error::Error;
use std::fmt;

// Bytes as pairs of hexadecimal digits in capitals, with a text between neighbours.
#[derive(Clone, Copy)]
pub struct Pairs<'a> {
    pub bytes: &'a [u8],
    pub between: &'a str,
}

impl fmt::Display for Pairs<'_> {
    ghost output = { λ pairs. Some (pairs_of pairs.between.now pairs.bytes.now) };

    fn fmt<W: fmt::Write>(&self, f: &mut fmt::Formatter<W>) -> fmt::Result {
        let Some((first, others)) = self.bytes.split_first() else {
            return Ok(());
        };
        write_pair(*first, f)?;
        let between = self.between;
        for byte in others {
            f.write_str(between)?;
            write_pair(*byte, f)?;
        }
        Ok(())
    }
}

// The digits that write the values below 16, in capitals.
const DIGITS: [&str; 16] = [
    "0", "1", "2", "3", "4", "5", "6", "7", "8", "9", "A", "B", "C", "D", "E", "F",
];

// Writes a byte as a pair of hexadecimal digits in capitals.
fn write_pair<W: fmt::Write>(byte: u8, f: &mut fmt::Formatter<W>) -> fmt::Result
    ensures { WritesOnOk W.write_str_gives f.old result (pair_of byte) f.new }
{
    f.write_str(digit(byte / 16))?;
    f.write_str(digit(byte % 16))
}

// The digit that writes a value below 16.
fn digit(value: u8) -> &'static str
    requires { value < 16 }
    ensures { result.now ≡ digit_of value ∷ [] }
{
    DIGITS[usize::from(value)]
}

// A line has more bytes than may be read.
#[derive(Clone, Copy, PartialEq, Eq, Debug)]
pub struct TooLong;

impl fmt::Display for TooLong {
    ghost output = { λ _. Some too_long_text };

    fn fmt<W: fmt::Write>(&self, f: &mut fmt::Formatter<W>) -> fmt::Result {
        write!(
            f,
            "long {LINE_LIMIT} the line has more bytes than that, and was not read"
        )
    }
}

impl Error for TooLong {}
