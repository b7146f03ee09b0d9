// The bytes that a line's digits write.
ghost use Rattle.std.specs.Prelude.{◌≡◌, ◌<◌, ◌≤◌, length, Some, None, MatchResult, unwrap_or};
ghost use Rattle.input.specs.Hex.{unpaired, pairs_in};
ghost use Rattle.input.specs.Limits.{line_limit};

use crate::hex::{first_unpaired, read_pairs};
use crate::line::LINE_LIMIT;
use arrayvec::ArrayVec;

// No line has more pairs of digits.
pub const MOST_PAIRS: usize = LINE_LIMIT / 2;

// Where digits could not be read: at a byte that is no digit of a pair, or past as many as are read.
#[derive(Clone, Copy, PartialEq, Eq, Debug)]
pub struct Unpaired {
    pub offset: usize,
}

// The bytes that pairs of digits write, or the first byte at fault. More digits than a line has are not read, and the
// first past them is at fault.
pub fn content_of(digits: &[u8]) -> Result<ArrayVec<u8, MOST_PAIRS>, Unpaired>
    ensures few { length digits.now ≤ line_limit → MatchResult result (λ content. (unpaired digits.now ≡ None) × (content.items ≡ pairs_in digits.now)) (λ fault. unpaired digits.now ≡ Some fault.offset) }
    ensures many { line_limit < length digits.now → MatchResult result (λ content. ⊥) (λ fault. fault.offset ≡ unwrap_or (unpaired digits.now) line_limit) }
{
    let mut page = [0; MOST_PAIRS];
    let content = content_in(digits, &mut page)?;
    ArrayVec::try_from(content).map_err(|_| Unpaired { offset: LINE_LIMIT })
}

// The same, read to the front of a page that is lent.
pub fn content_in<'a>(digits: &[u8], page: &'a mut [u8; MOST_PAIRS]) -> Result<&'a [u8], Unpaired>
    ensures few { length digits.now ≤ line_limit → MatchResult result (λ content. (unpaired digits.now ≡ None) × (content.now ≡ pairs_in digits.now)) (λ fault. unpaired digits.now ≡ Some fault.offset) }
    ensures many { line_limit < length digits.now → MatchResult result (λ content. ⊥) (λ fault. fault.offset ≡ unwrap_or (unpaired digits.now) line_limit) }
{
    if let Some(offset) = first_unpaired(digits) {
        return Err(Unpaired { offset });
    }
    let Some(count) = read_pairs(digits, page) else {
        return Err(Unpaired { offset: LINE_LIMIT });
    };
    Ok(&page[..count])
}
