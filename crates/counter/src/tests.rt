// Counter calls, and lines that are none.
use crate::{CounterCall, Name, NoCall, is_counter, read};
use oid::{Identifier, Refusal};
use std::test::Fail;

fn identifier() -> Identifier {
    Identifier::from_arcs(&[2, 999, 1]).unwrap_or(Identifier::smallest())
}

#[test]
fn calls(rt: HostRuntime) {
    let entry = identifier();
    let calls: [(&[u8], CounterCall); 8] = [
        (
            b"@collect 7 2.999.1",
            CounterCall::Collect { taker: 7, entry },
        ),
        (
            b"@collect 4294967295 urn:oid:2.999.1",
            CounterCall::Collect {
                taker: 4294967295,
                entry,
            },
        ),
        (b"@accept 2.999.1", CounterCall::Accept { entry }),
        (b"@decline 2.999.1", CounterCall::Decline { entry }),
        (b"@terms 2.999.1", CounterCall::Terms { entry }),
        (b"@left 2.999.1", CounterCall::Left { entry }),
        (b"@left urn:oid:2.999.1", CounterCall::Left { entry }),
        (b"@tells", CounterCall::Tells),
    ];
    for (line, call) in calls {
        assert!(rt; is_counter(line));
        assert!(rt; read(line).is_ok_and(|found| found == call));
    }
    assert!(rt; !is_counter(b"accept 7 2.999.1") && !is_counter(b""));
}

#[test]
fn no_calls(rt: HostRuntime) {
    let identifier = |offset| NoCall::NotAnIdentifier(Refusal::NotDotted.at(offset));
    let lines: [(&[u8], NoCall); 13] = [
        (b"", NoCall::UnknownName),
        (b"@", NoCall::UnknownName),
        (b"@lefts 2.999", NoCall::UnknownName),
        (b"@tells ", NoCall::WrongFields(Name::Tells)),
        (b"@accept", NoCall::WrongFields(Name::Accept)),
        (b"@accept  2.999", NoCall::WrongFields(Name::Accept)),
        (b"@accept 2.999 ", NoCall::WrongFields(Name::Accept)),
        (b"@collect x", NoCall::WrongFields(Name::Collect)),
        (b"@collect 07 x", NoCall::NotANumber { offset: 9 }),
        (
            b"@collect 4294967296 2.999",
            NoCall::NotANumber { offset: 9 },
        ),
        (b"@accept ", identifier(8)),
        (b"@collect 7 x", identifier(11)),
        (
            b"@left urn:oid:2.08",
            NoCall::NotAnIdentifier(Refusal::LeadingZero.at(16)),
        ),
    ];
    for (line, no_call) in lines {
        assert_eq!(rt; read(line).err(), Some(no_call));
    }
}

#[test]
fn words(rt: HostRuntime) -> Result<(), Fail> {
    let cases = [
        (
            NoCall::WrongFields(Name::Left),
            "@left takes an identifier, with one space before it",
        ),
        (
            NoCall::NotANumber { offset: 9 },
            "a number from 0 to 4294967295 was expected at offset 9",
        ),
        (
            NoCall::NotAnIdentifier(Refusal::LeadingZero.at(8)),
            "an identifier was expected, as 2.999 (2 8 the number here has a needless 0 in front)",
        ),
    ];
    for (no_call, words) in cases {
        let text = format!(in rt.alloc(); "{no_call}")?;
        assert_eq!(rt; text.as_str(), words);
    }
    Ok(())
}
