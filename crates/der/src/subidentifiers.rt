// The subidentifiers of the contents, one after the other.
ghost use Rattle.std.specs.Prelude.{◌≡◌, ◌+◌, ◌-◌, ◌^◌, ◌<◌, min, length, ◌==◌, slice_index};
ghost use Rattle.std.specs.Iterator.{YieldsFirstBy, item_count};
ghost use Rattle.oid.specs.Numbers.{first_at};
ghost use Rattle.der.specs.Base128.{more, value_of};
ghost use Rattle.der.specs.Header.{header_length};
ghost use Rattle.der.specs.Subidentifiers.{series_from, subidentifiers_from};

use crate::base128::{read_base128, split_series};
use crate::header::HEADER_LENGTH;

pub(crate) mod arcs;

// The first byte of a subidentifier that has a needless digit in front: the digit 0, with 80 added.
const PADDING: u8 = 0x80;

// The bytes of one subidentifier, and where they begin.
#[derive(Clone, Copy)]
pub(crate) struct Subidentifier<'a> {
    pub(crate) offset: usize,
    bytes: &'a [u8],
}

impl Subidentifier<'_> {
    // Its number, or the largest of 64 bits where it is larger.
    pub(crate) fn value(&self) -> u64
        ensures { result ≡ min (value_of self.now.bytes.now) (2 ^ 64 - 1) }
    {
        read_base128(self.bytes)
    }

    // Whether it begins with 80.
    pub(crate) fn is_padded(&self) -> bool
        ensures { result ≡ (slice_index self.now.bytes.now 0 == more) }
    {
        self.bytes.first() == Some(&PADDING)
    }
}

// The subidentifiers of what is left of the contents, and where that begins.
#[derive(Drop)]
pub(crate) struct Subidentifiers<'a> {
    left: &'a [u8],
    offset: usize,
    ghost addressed: { offset + length left.now < 2 ^ 64 },
}

impl<'a> Subidentifiers<'a> {
    // Those of the contents, which stand behind the header.
    pub(crate) fn new(contents: &'a [u8]) -> Self
        ensures left { result.left.now ≡ contents.now }
        ensures offset { result.offset ≡ header_length }
    {
        Subidentifiers {
            left: contents,
            offset: HEADER_LENGTH,
        }
    }
}

impl<'a> Iterator for Subidentifiers<'a> {
    type Item = Subidentifier<'a>;

    ghost next_gives = { YieldsFirstBy (λ item. record { offset = item.offset; bytes = item.bytes.now }) (λ walk. series_from walk.offset walk.left.now) };

    ghost remaining = { item_count (λ walk. series_from walk.offset walk.left.now) };

    #[tactic(auto, using(crate::proofs::Series::series_none, crate::proofs::Series::series_split))]
    fn next(&mut self) -> Option<Subidentifier<'a>> {
        if self.left.is_empty() {
            return None;
        }
        let (bytes, left) = split_series(self.left);
        let subidentifier = Subidentifier {
            offset: self.offset,
            bytes,
        };
        self.left = left;
        self.offset += bytes.len();
        Some(subidentifier)
    }
}

// The offset of the first subidentifier that begins with 80.
pub(crate) fn first_padded(contents: &[u8]) -> Option<usize>
    ensures { result ≡ first_at (λ number. number.padded) (subidentifiers_from header_length contents.now) }
{
    Subidentifiers::new(contents)
        .find(|subidentifier| subidentifier.is_padded())
        .map(|subidentifier| subidentifier.offset)
}
