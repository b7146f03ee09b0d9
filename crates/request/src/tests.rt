// Answers and rolls on pages of many lengths.
use crate::{Child, Fault, LineRefusal, PageRefusal, Refusal, Written, write_first_line};
use book::Kind;
use oid::{Arc, Identifier};
use std::test::Fail;

const BLANK: u8 = b'.';

fn identifier(arcs: &[Arc]) -> Identifier {
    Identifier::from_arcs(arcs).unwrap_or(Identifier::smallest())
}

#[test]
fn answers(rt: HostRuntime) -> Result<(), Fail> {
    let book = Fault {
        refusal: Refusal::Book(book::Refusal::TooLittleLeft),
        offset: 8,
    };
    let codec = Fault {
        refusal: Refusal::Identifier(oid::Refusal::LeadingZero),
        offset: 8,
    };
    let answers: [(Result<Identifier, Fault>, &[u8]); 4] = [
        (Ok(identifier(&[2, 999, 100])), b"ok 2.999.100\n"),
        (Err(book), b"no 18 R 8\n"),
        (Err(codec), b"no 2 C 8\n"),
        (Err(LineRefusal::NotANumber.at(15)), b"no 13 L 15\n"),
    ];
    for (answer, line) in answers {
        let mut page = [BLANK; 256];
        assert_eq!(rt; write_first_line(answer, &mut page), Ok(line.len()));
        assert!(rt; page.starts_with(line));
        assert!(rt;
            page[line.len().min(256)..]
                .iter()
                .all(|byte| *byte == BLANK)
        );
        let mut short = [BLANK; 255];
        assert_eq!(rt;
            write_first_line(answer, &mut short),
            Err(PageRefusal::TooShort)
        );
        assert!(rt; short.iter().all(|byte| *byte == BLANK));
    }
    Ok(())
}

fn child(arc: Arc, kind: Kind) -> Child {
    Child {
        arc,
        kind,
        holder: 7,
        quota: 4,
    }
}

#[test]
fn rolls(rt: HostRuntime) -> Result<(), Fail> {
    let mut page = [BLANK; 63];
    let mut written = Written { length: 0 };
    assert!(rt; written.put_child(&mut page, &child(1, Kind::Open)));
    assert!(rt; written.put_child(&mut page, &child(3, Kind::InHand)));
    assert!(rt; written.put_child(&mut page, &child(100, Kind::Retired)));
    assert_eq!(rt; written.length, 36);
    // 11 bytes more would leave 16, and 12 would leave 15.
    let mut ended = Written {
        length: written.length,
    };
    assert!(rt; written.put_child(&mut page, &child(1000, Kind::Panel)));
    assert!(rt; !ended.put_child(&mut page, &child(10000, Kind::Panel)));
    assert_eq!(rt; ended.length, 36);
    assert!(rt; ended.put_last(&mut page, Some(10000)));
    assert!(rt; page.starts_with(b"1 open 7 4\n3 inhand 7 4\n100 retired\nmore 10000\n"));
    assert!(rt; written.put_last(&mut page, None));
    assert_eq!(rt; written.length, 51);
    Ok(())
}
