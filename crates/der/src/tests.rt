// Readings and refusals at every edge, what follows, and what the writer leaves.
use crate::{read, split, write};
use oid::{Arc, Identifier};
use std::test::Fail;

// Bytes that are refused, with the number and the offset.
const REFUSED: [(&[u8], u8, usize); 18] = [
    (&[], 6, 0),
    (&[0x05, 0x01, 0x50], 6, 0),
    (&[0x06], 6, 1),
    (&[0x06, 0x00], 6, 1),
    (&[0x06, 0x01], 6, 1),
    (&[0x06, 0x02, 0x88], 6, 1),
    (&[0x06, 0x81, 0x01, 0x00], 6, 1),
    (&[0x06, 0x80], 6, 1),
    (&[0x06, 0x01, 0x80], 7, 2),
    (&[0x06, 0x03, 0x80, 0x01, 0x80], 7, 4),
    (&[0x06, 0x02, 0x80, 0x01], 8, 2),
    (&[0x06, 0x03, 0x01, 0x80, 0x01], 8, 3),
    (&[0x06, 0x05, 0x90, 0x80, 0x80, 0x80, 0x50], 3, 2),
    (&[0x06, 0x06, 0x00, 0x90, 0x80, 0x80, 0x80, 0x00], 3, 3),
    (
        &[0x06, 0x07, 0x90, 0x80, 0x80, 0x80, 0x50, 0x80, 0x01],
        8,
        7,
    ),
    (
        &[0x06, 0x10, 1, 1, 1, 1, 1, 1, 1, 1, 1, 1, 1, 1, 1, 1, 1, 1],
        4,
        0,
    ),
    (
        &[
            0x06, 0x14, 1, 1, 1, 1, 1, 1, 1, 1, 1, 1, 1, 1, 1, 1, 1, 0x90, 0x80, 0x80, 0x80, 0x00,
        ],
        3,
        17,
    ),
    (
        &[
            0x06, 0x0B, 0xFF, 0xFF, 0xFF, 0xFF, 0xFF, 0xFF, 0xFF, 0xFF, 0xFF, 0xFF, 0x7F,
        ],
        3,
        2,
    ),
];

// Encodings, with their arcs.
const READ: [(&[u8], &[Arc]); 10] = [
    (&[0x06, 0x01, 0x00], &[0, 0]),
    (&[0x06, 0x01, 0x27], &[0, 39]),
    (&[0x06, 0x01, 0x28], &[1, 0]),
    (&[0x06, 0x01, 0x4F], &[1, 39]),
    (&[0x06, 0x01, 0x50], &[2, 0]),
    (&[0x06, 0x02, 0x81, 0x00], &[2, 48]),
    (&[0x06, 0x03, 0x81, 0x34, 0x03], &[2, 100, 3]),
    (
        &[0x06, 0x05, 0x90, 0x80, 0x80, 0x80, 0x4F],
        &[2, 4294967295],
    ),
    (
        &[0x06, 0x06, 0x00, 0x8F, 0xFF, 0xFF, 0xFF, 0x7F],
        &[0, 0, 4294967295],
    ),
    (
        &[0x06, 0x0F, 1, 1, 1, 1, 1, 1, 1, 1, 1, 1, 1, 1, 1, 1, 1],
        &[0, 1, 1, 1, 1, 1, 1, 1, 1, 1, 1, 1, 1, 1, 1, 1],
    ),
];

#[test]
fn refused(rt: HostRuntime) -> Result<(), Fail> {
    for (bytes, number, offset) in REFUSED {
        let mut identifier = Identifier::smallest();
        match read(bytes, &mut identifier) {
            Ok(_) => return Err(Fail::new("it was read")),
            Err(fault) => {
                assert_eq!(rt; fault.refusal.number(), number);
                assert_eq!(rt; fault.offset, offset);
            }
        }
        assert!(rt; identifier.arcs() == [0, 0].as_slice());
        let (count, rest) = split(bytes);
        assert_eq!(rt; count, 0);
        assert!(rt; rest == bytes);
    }
    Ok(())
}

#[test]
fn accepted(rt: HostRuntime) {
    for (bytes, arcs) in READ {
        let mut identifier = Identifier::smallest();
        assert_eq!(rt; read(bytes, &mut identifier).ok(), Some(bytes.len()));
        assert!(rt; identifier.arcs() == arcs);
        let mut page = [0xAA; 20];
        assert_eq!(rt;
            write(&identifier, &mut page, 1).ok(),
            Some(bytes.len() + 1)
        );
        assert!(rt; page.as_slice().starts_with(&[0xAA]));
        assert!(rt; split(&page.as_slice()[1..]).0 == bytes.len());
    }
}

#[test]
fn written(rt: HostRuntime) -> Result<(), Fail> {
    let Some(identifier) = Identifier::from_arcs(&[2, 999, 128]) else {
        return Err(Fail::new("no identifier"));
    };
    let mut page = [0xAA; 8];
    assert_eq!(rt; write(&identifier, &mut page, 1).ok(), Some(7));
    assert!(rt; page.as_slice() == [0xAA, 0x06, 0x04, 0x88, 0x37, 0x81, 0x00, 0xAA].as_slice());
    assert!(rt; write(&identifier, &mut page, 3).is_err());
    assert!(rt; write(&identifier, &mut page, 9).is_err());
    assert!(rt; write(&identifier, &mut page, usize::MAX).is_err());
    assert!(rt; page.as_slice() == [0xAA, 0x06, 0x04, 0x88, 0x37, 0x81, 0x00, 0xAA].as_slice());
    let (count, rest) = split(&page.as_slice()[1..]);
    assert_eq!(rt; count, 6);
    assert!(rt; rest == [0xAA].as_slice());
    Ok(())
}
