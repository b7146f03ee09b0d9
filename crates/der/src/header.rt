// What stands before the contents: the tag and the length.
ghost use Rattle.std.specs.Prelude.{◌≡◌, ◌+◌, ◌<◌, length, IfOk};
ghost use Rattle.std.specs.Result.{result_err};
ghost use Rattle.der.specs.Header.{header_length, taken_in, contents_in, bad_header};

use oid::{Fault, Refusal};

// The tag of an object identifier.
pub(crate) const TAG: u8 = 0x06;

// How many bytes of contents there are at most, so that one byte tells their length.
const MOST_CONTENTS: u8 = 0x7F;

// How many bytes stand before the contents.
pub(crate) const HEADER_LENGTH: usize = 2;

// The contents, which are some bytes at least; or why the header is no good.
#[tactic(auto, using(std::proofs::lemmas::Bool::Decides::nat_tests), unfolding(crate::specs::Header::bad_header))]
pub(crate) fn contents_in(bytes: &[u8]) -> Result<&[u8], Fault>
    ensures cases { result_err result ≡ bad_header bytes.now }
    ensures value { IfOk result (λ contents. contents.now ≡ contents_in bytes.now) }
    ensures told { IfOk result (λ contents. header_length + length contents.now ≡ taken_in bytes.now) }
    ensures some { IfOk result (λ contents. 0 < length contents.now) }
{
    match bytes {
        [TAG, length @ 1..=MOST_CONTENTS, rest @ ..] => rest
            .get(..usize::from(*length))
            .ok_or(Refusal::Header.at(1)),
        [TAG, ..] => Err(Refusal::Header.at(1)),
        _ => Err(Refusal::Header.at(0)),
    }
}
