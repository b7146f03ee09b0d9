// A field of a line, and the number in it.
ghost use Rattle.std.specs.Prelude.{◌≡◌, MatchResult, Some, None};
ghost use Rattle.request.specs.Fields.{number_in};
ghost use Rattle.request.specs.Parts.{part_of, field_of};
ghost use Rattle.request.specs.declared.refusal.LineRefusal.TheVariants.{NotANumber};

use crate::part::Part;
use crate::refusal::LineRefusal;
use book::ranges::{is_holder, is_quota};
use dotted::pieces::numeral;

// A field is a part of its line, and stands for a holder's number, an identifier, an arc or a quota.
#[derive(Clone, Copy)]
pub(crate) enum Field<'a> {
    Holder(Part<'a>),
    Identifier(Part<'a>),
    Arc(Part<'a>),
    Quota(Part<'a>),
}

impl<'a> Field<'a> {
    // The part of the line that the field is.
    pub(crate) fn part(&self) -> Part<'a>
        ensures { part_of result ≡ (field_of self.now).part }
    {
        match self {
            Field::Holder(part) | Field::Identifier(part) | Field::Arc(part) | Field::Quota(part) =>
                *part,
        }
    }

    // The number in a number field. It is refused where it is not a number in its range.
    pub(crate) fn number(&self) -> Result<u32, LineRefusal>
        ensures { MatchResult result (λ number. number_in (field_of self.now) ≡ Some number) (λ refusal. (number_in (field_of self.now) ≡ None) × (refusal ≡ NotANumber)) }
    {
        let Some(number) = numeral(self.part().text) else {
            return Err(LineRefusal::NotANumber);
        };
        let in_range = match self {
            Field::Holder(_) => is_holder(number),
            Field::Arc(_) => true,
            Field::Quota(_) => is_quota(number),
            Field::Identifier(_) => false,
        };
        if !in_range {
            return Err(LineRefusal::NotANumber);
        }
        Ok(number)
    }
}
