// Readings and refusals at every edge, and what the writer leaves.
use crate::{read, write};
use oid::{Arc, Identifier};
use std::test::Fail;

// Texts that are refused, with the number and the offset.
const REFUSED: [(&[u8], u8, usize); 30] = [
    (b"", 1, 0),
    (b"urn:oid:", 1, 8),
    (b"urn:oid", 1, 0),
    (b"urn:oid:urn:oid:1.2", 1, 8),
    (b".", 1, 0),
    (b"1.", 1, 1),
    (b".1", 1, 0),
    (b"1..2", 1, 1),
    (b"1.x", 1, 1),
    (b"1.2 ", 1, 3),
    (b"1.2\xe9", 1, 3),
    (b"\xff", 1, 0),
    (b"01.2.x", 1, 4),
    (b"00.1", 2, 0),
    (b"1.02", 2, 2),
    (b"urn:oid:1.02", 2, 10),
    (b"4294967296.01", 2, 11),
    (b"2.4294967296", 3, 2),
    (b"4294967296", 3, 0),
    (b"1.2.999999999999999999999999999999", 3, 4),
    (b"1", 4, 0),
    (b"urn:oid:1", 4, 0),
    (b"1.1.1.1.1.1.1.1.1.1.1.1.1.1.1.1.1", 4, 0),
    (b"3.1.1.1.1.1.1.1.1.1.1.1.1.1.1.1.1", 4, 0),
    (b"3.1", 5, 0),
    (b"3.40", 5, 0),
    (b"urn:oid:3.1", 5, 8),
    (b"0.40", 5, 2),
    (b"1.40", 5, 2),
    (b"urn:oid:1.40", 5, 10),
];

// Texts that are read, with their arcs.
const READ: [(&[u8], &[Arc]); 10] = [
    (b"0.0", &[0, 0]),
    (b"0.39", &[0, 39]),
    (b"1.39", &[1, 39]),
    (b"2.40", &[2, 40]),
    (b"2.999", &[2, 999]),
    (b"urn:oid:2.999.100", &[2, 999, 100]),
    (b"2.4294967295", &[2, 4294967295]),
    (b"2.0.10", &[2, 0, 10]),
    (b"1.2.840.113549", &[1, 2, 840, 113549]),
    (
        b"1.1.1.1.1.1.1.1.1.1.1.1.1.1.1.9",
        &[1, 1, 1, 1, 1, 1, 1, 1, 1, 1, 1, 1, 1, 1, 1, 9],
    ),
];

#[test]
fn refused(rt: HostRuntime) -> Result<(), Fail> {
    for (text, number, offset) in REFUSED {
        let mut identifier = Identifier::smallest();
        match read(text, &mut identifier) {
            Ok(()) => return Err(Fail::new("it was read")),
            Err(fault) => {
                assert_eq!(rt; fault.refusal.number(), number);
                assert_eq!(rt; fault.offset, offset);
            }
        }
        assert!(rt; identifier.arcs() == [0, 0].as_slice());
    }
    Ok(())
}

#[test]
fn accepted(rt: HostRuntime) {
    for (text, arcs) in READ {
        let mut identifier = Identifier::smallest();
        assert!(rt; read(text, &mut identifier).is_ok());
        assert!(rt; identifier.arcs() == arcs);
    }
}

#[test]
fn written(rt: HostRuntime) -> Result<(), Fail> {
    let Some(identifier) = Identifier::from_arcs(&[2, 999, 4294967295]) else {
        return Err(Fail::new("no identifier"));
    };
    let mut page = [b'-'; 20];
    assert_eq!(rt; write(&identifier, &mut page, 3).ok(), Some(19));
    assert!(rt; page.as_slice() == b"---2.999.4294967295-".as_slice());
    assert!(rt; write(&identifier, &mut page, 5).is_err());
    assert!(rt; write(&identifier, &mut page, 21).is_err());
    assert!(rt; write(&identifier, &mut page, usize::MAX).is_err());
    assert!(rt; page.as_slice() == b"---2.999.4294967295-".as_slice());
    assert_eq!(rt; write(&identifier, &mut page, 4).ok(), Some(20));
    assert!(rt; page.as_slice() == b"---22.999.4294967295".as_slice());
    Ok(())
}
