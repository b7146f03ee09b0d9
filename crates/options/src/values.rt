// The values of options, read.
ghost use Rattle.std.specs.Prelude.{◌≡◌, take};
ghost use Rattle.std.specs.Option.{option_map};
ghost use Rattle.std.specs.Result.{result_map_both};
ghost use Rattle.oid.specs.Meaning.{arcs_of};
ghost use Rattle.arc_rules.specs.Kept.{range_set, listed_set, refusal_of};
ghost use Rattle.options.specs.Values.{kept_most, root_in, number_in, range_in, panels_in, authorities_in, arcs_in};

use crate::bad_option::BadOption;
use crate::name::Name;
use crate::pieces::cut;
use arc_rules::{LISTED_MOST, Listed, Range};
use arrayvec::ArrayVec;
use dotted::pieces::numeral;
use oid::{Arc, Identifier};

// The largest number of 32 bits, and the most bytes of a page.
pub const MOST_NUMBER: u32 = u32::MAX;

pub const MOST_PAGE: u32 = 1_048_576;

// How many arcs of a list are kept: one more than a rule may list, so that a rule made of them is refused where the whole list is too long.
const KEPT_MOST: usize = LISTED_MOST + 1;

// The identifier that dotted text stands for.
pub(crate) fn root_in(text: &[u8]) -> Result<Identifier, BadOption>
    ensures { result_map_both arcs_of (λ bad. bad) result ≡ root_in text.now }
{
    let mut root = Identifier::smallest();
    match dotted::read(text, &mut root) {
        Ok(()) => Ok(root),
        Err(fault) => Err(BadOption::NotAnIdentifier(fault)),
    }
}

// A number from 0 to the most.
pub(crate) fn number_in(option: Name, most: u32, text: &[u8]) -> Result<u32, BadOption>
    ensures { result ≡ number_in option most text.now }
{
    let bad = BadOption::NotANumber { option, most };
    let Some(number) = numeral(text) else {
        return Err(bad);
    };
    if number <= most { Ok(number) } else { Err(bad) }
}

// The rule of the arcs from one to another, with - between.
pub(crate) fn panels_in(text: &[u8]) -> Result<Range, BadOption>
    ensures { result_map_both range_set (λ bad. bad) result ≡ panels_in text.now }
{
    range_in(text).ok_or(BadOption::NotARange)
}

fn range_in(text: &[u8]) -> Option<Range>
    ensures { option_map range_set result ≡ range_in text.now }
{
    let (first, behind) = cut(text, b'-');
    let (last, more) = cut(behind?, b'-');
    if more.is_some() {
        return None;
    }
    Some(Range::new(numeral(first)?, numeral(last)?))
}

// The rule of the arcs that are listed, with a comma between neighbours.
pub(crate) fn authorities_in(text: &[u8]) -> Result<Listed, BadOption>
    ensures { result_map_both (λ rule. (listed_set rule, refusal_of rule)) (λ bad. bad) result ≡ authorities_in text.now }
{
    match arcs_in(text) {
        Some(arcs) => Ok(Listed::new(&arcs)),
        None => Err(BadOption::NotAList),
    }
}

// The listed arcs; of a list that is longer than is kept, as many as are.
fn arcs_in(text: &[u8]) -> Option<ArrayVec<Arc, KEPT_MOST>>
    ensures { option_map (λ arcs. arcs.items) result ≡ option_map (take kept_most) (arcs_in text.now) }
{
    let mut arcs = ArrayVec::new();
    let mut left = (!text.is_empty()).then_some(text);
    while let Some(rest) = left {
        let (piece, behind) = cut(rest, b',');
        let arc = numeral(piece)?;
        if arcs.len() < KEPT_MOST {
            arcs.push(arc);
        }
        left = behind;
    }
    Some(arcs)
}
