// The fields of a line, and the numbers in them.
ghost use Rattle.std.specs.Prelude.{◌≡◌, drop};
ghost use Rattle.std.specs.Option.{option_map, ForSome};
ghost use Rattle.std.specs.Result.{result_map_both};
ghost use Rattle.request.specs.Fields.{in_form};
ghost use Rattle.request.specs.Parts.{parts_left, field_of, split, split_of, more_of, number_fields_of, two, three};
ghost use Rattle.request.specs.Reading.{numbers_in, number_at};
ghost use Rattle.request.specs.Verbs.{an_identifier, form_of};

use crate::field::Field;
use crate::part::Parts;
use crate::refusal::{Fault, LineRefusal};
use crate::verb::Verb;

// The fields that follow a verb: the caller and an identifier, and what else some verbs have.
#[derive(Clone, Copy)]
pub(crate) struct Fields<'a> {
    pub(crate) caller: Field<'a>,
    pub(crate) identifier: Field<'a>,
    pub(crate) more: More<'a>,
}

// The fields that some verbs have besides.
#[derive(Clone, Copy)]
pub(crate) enum More<'a> {
    Nothing,
    One(Field<'a>),
    Two(Field<'a>, Field<'a>),
}

impl<'a> Fields<'a> {
    // The parts as the fields of a verb; none where they are not as many as the verb's, or one is empty.
    pub(crate) fn of(verb: Verb, mut parts: Parts<'a>) -> Option<Fields<'a>>
        ensures value { option_map split_of result ≡ option_map split (in_form (form_of verb) (parts_left parts.entry)) }
        ensures identifier { ForSome result (λ fields. (field_of fields.identifier).sort ≡ an_identifier) }
    {
        let caller = parts.filled()?;
        let identifier = parts.filled()?;
        let more = More::of(verb, parts)?;
        Some(Fields {
            caller: Field::Holder(caller),
            identifier: Field::Identifier(identifier),
            more,
        })
    }

    // The numbers in the number fields, in their order, with 0 for those that the verb does not have; or the fault at the first that is
    // not a number in its range.
    pub(crate) fn numbers(&self) -> Result<[u32; 3], Fault>
        ensures { result ≡ result_map_both three (λ fault. fault) (numbers_in (number_fields_of self.now)) }
    {
        let caller = number_at(self.caller)?;
        let (second, third) = self.more.numbers()?;
        Ok([caller, second, third])
    }
}

impl<'a> More<'a> {
    // The parts as the fields behind the first two of a verb.
    fn of(verb: Verb, mut parts: Parts<'a>) -> Option<More<'a>>
        ensures { option_map more_of result ≡ in_form (drop 2 (form_of verb)) (parts_left parts.entry) }
    {
        let more = match verb {
            Verb::Grant | Verb::Accept | Verb::Decline | Verb::Retire => More::Nothing,
            Verb::Claim | Verb::Roll => More::One(Field::Arc(parts.filled()?)),
            Verb::Offer => {
                let quota = parts.filled()?;
                let taker = parts.filled()?;
                More::Two(Field::Quota(quota), Field::Holder(taker))
            }
        };
        parts.is_done().then_some(more)
    }

    // The numbers in them, or the first fault.
    fn numbers(self) -> Result<(u32, u32), Fault>
        ensures { result ≡ result_map_both two (λ fault. fault) (numbers_in (more_of self.entry)) }
    {
        match self {
            More::Nothing => Ok((0, 0)),
            More::One(field) => Ok((number_at(field)?, 0)),
            More::Two(field, last) => Ok((number_at(field)?, number_at(last)?)),
        }
    }
}

// The number in a number field, or the fault where it is not a number in its range.
fn number_at(field: Field<'_>) -> Result<u32, Fault>
    ensures { result ≡ number_at (field_of field.entry) }
{
    let Ok(number) = field.number() else {
        return Err(LineRefusal::NotANumber.at(field.part().offset));
    };
    Ok(number)
}
