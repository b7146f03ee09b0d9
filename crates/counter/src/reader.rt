// The reader of counter calls.
ghost use Rattle.std.specs.Prelude.{◌≡◌, ◌+◌, ◌<◌, ◌^◌, length};
ghost use Rattle.std.specs.Result.{result_map_both};
ghost use Rattle.oid.specs.Meaning.{arcs_of};
ghost use Rattle.request.specs.Parts.{part_of, parts_left};
ghost use Rattle.counter.specs.Meaning.{read_as};
ghost use Rattle.counter.specs.Reading.{is_counter, collect_in, entry_in, number_in, identifier_in, read_call};

use crate::call::CounterCall;
use crate::name::Name;
use crate::no_call::NoCall;
use dotted::pieces::numeral;
use oid::Identifier;
use request::{Part, Parts};

// The largest number of 32 bits.
pub(crate) const MOST_NUMBER: u32 = u32::MAX;

// Whether a line is for the counter: it begins with @.
pub fn is_counter(line: &[u8]) -> bool
    ensures { result ≡ is_counter line.now }
{
    line.starts_with(b"@")
}

// Reads a line, any bytes, as a counter call, or finds what is wrong first.
pub fn read(line: &[u8]) -> Result<CounterCall, NoCall>
    ensures { read_as result ≡ read_call line.now }
{
    let mut parts = Parts { line, place: 0 };
    let Some(word) = parts.next_part() else {
        return Err(NoCall::UnknownName);
    };
    let Some(name) = Name::of(word.text) else {
        return Err(NoCall::UnknownName);
    };
    match name {
        Name::Collect => collect_in(parts),
        Name::Accept => Ok(CounterCall::Accept {
            entry: entry_in(name, parts)?,
        }),
        Name::Decline => Ok(CounterCall::Decline {
            entry: entry_in(name, parts)?,
        }),
        Name::Terms => Ok(CounterCall::Terms {
            entry: entry_in(name, parts)?,
        }),
        Name::Left => Ok(CounterCall::Left {
            entry: entry_in(name, parts)?,
        }),
        Name::Tells if parts.is_done() => Ok(CounterCall::Tells),
        Name::Tells => Err(NoCall::WrongFields(name)),
    }
}

// A taker and an entry, as the parts that are left.
fn collect_in(mut parts: Parts<'_>) -> Result<CounterCall, NoCall>
    ensures { read_as result ≡ collect_in (parts_left parts.entry) }
{
    let wrong = NoCall::WrongFields(Name::Collect);
    let number = parts.next_part().ok_or(wrong)?;
    let entry = parts.next_part().ok_or(wrong)?;
    if !parts.is_done() {
        return Err(wrong);
    }
    let taker = number_in(number)?;
    let entry = identifier_in(entry)?;
    Ok(CounterCall::Collect { taker, entry })
}

// The number that a part of a line is.
fn number_in(part: Part<'_>) -> Result<u32, NoCall>
    ensures { result ≡ number_in (part_of part.entry) }
{
    let Some(number) = numeral(part.text) else {
        return Err(NoCall::NotANumber {
            offset: part.offset,
        });
    };
    Ok(number)
}

// An entry, as the only part that is left.
fn entry_in(name: Name, mut parts: Parts<'_>) -> Result<Identifier, NoCall>
    ensures { result_map_both arcs_of (λ no_call. no_call) result ≡ entry_in name (parts_left parts.entry) }
{
    let wrong = NoCall::WrongFields(name);
    let entry = parts.next_part().ok_or(wrong)?;
    if !parts.is_done() {
        return Err(wrong);
    }
    identifier_in(entry)
}

// The identifier that a part of a line is. A fault of its text is further on by where the part begins.
fn identifier_in(part: Part<'_>) -> Result<Identifier, NoCall>
    requires { part.offset + length part.text.now < 2 ^ 64 }
    ensures { result_map_both arcs_of (λ no_call. no_call) result ≡ identifier_in (part_of part.entry) }
{
    let mut identifier = Identifier::smallest();
    match dotted::read(part.text, &mut identifier) {
        Ok(()) => Ok(identifier),
        Err(fault) => Err(NoCall::NotAnIdentifier(fault.refusal.at(part.offset + fault.offset))),
    }
}
