// Calls sent to a register just founded, and what comes back of them.
use crate::{Back, Call, Desk, Replayed, Said, Sent, replay};
use arc_rules::{Listed, Range};
use book::Refusal;
use oid::{Arc, Identifier};
use register::{Founding, Terms};
use std::alloc::{AllocError, Global};
use std::test::Fail;

fn identifier(arcs: &[Arc]) -> Identifier {
    Identifier::from_arcs(arcs).unwrap_or(Identifier::smallest())
}

// A register below 2.999, with the panels 100 to 102, and 1, 3 and 5 for authorities.
fn founding() -> Founding<Range, Listed> {
    Founding {
        root: identifier(&[2, 999]),
        holder: 1,
        quota: 10,
        serial: 1,
        panels: Range::new(100, 102),
        authorities: Listed::new(&[1, 3, 5]),
    }
}

// A line, with a page of some length.
fn line(alloc: Global, text: &[u8], length: usize) -> Result<Sent, AllocError> {
    Ok(Sent::Line {
        bytes: text.to_vec(alloc)?,
        page: vec![in alloc; b'.'; length]?,
    })
}

fn is_written(said: &Said, text: &[u8]) -> bool {
    match said {
        Said::Written(bytes) => bytes.as_slice() == text,
        _ => false,
    }
}

#[test]
fn replayed(rt: HostRuntime) -> Result<(), Fail> {
    let alloc = rt.alloc();
    let entry = identifier(&[2, 999, 1]);
    let calls = vec![in alloc;
        line(alloc, b"grant 1 2.999", 256)?,
        line(alloc, b"claim 1 2.999 102", 256)?,
        line(alloc, b"offer 1 2.999 4 7", 256)?,
        Sent::Collect { taker: 7, entry },
        Sent::Accept { entry },
        line(alloc, b"grant 7 2.999.1", 256)?,
        line(alloc, b"offer 1 2.999 3 8", 256)?,
        Sent::Decline { entry },
        line(alloc, b"grant 1 2.999", 255)?,
    ]?;
    let Replayed { desk, said } = replay(alloc, founding(), calls)?;
    assert_eq!(rt; desk.out(), 0);
    let register = desk.close();
    assert!(rt; register.left(&identifier(&[2, 999])) == Ok(3));
    let [
        panel,
        claimed,
        offered,
        collected,
        accepted,
        below,
        little,
        declined,
        short,
    ] = said.as_slice()
    else {
        panic!(rt; "as many come back as were sent");
    };
    assert!(rt; is_written(panel, b"ok 2.999.100\n"));
    assert!(rt; is_written(claimed, b"ok 2.999.102\n"));
    assert!(rt; is_written(offered, b"ok 2.999.1\n"));
    assert!(rt;
        matches!(
            collected,
            Said::Handed(Terms {
                holder: 7,
                quota: 4
            })
        )
    );
    assert!(rt; matches!(accepted, Said::Done));
    assert!(rt; is_written(below, b"ok 2.999.1.100\n"));
    assert!(rt; is_written(little, b"no 18 R 8\n"));
    assert!(rt; matches!(declined, Said::Refused(Refusal::NotInHand)));
    assert!(rt; matches!(short, Said::TooShort));
    Ok(())
}

// A Grant that is out has its entry's terms, and a decline of it ends the desk.
#[test]
fn closed(rt: HostRuntime) -> Result<(), Fail> {
    let entry = identifier(&[2, 999, 1]);
    let terms = Terms {
        holder: 7,
        quota: 4,
    };
    let mut page = [b'.'; 256];
    let mut desk = Desk::founded(rt.alloc(), founding())?;
    let offered = desk.serve(Call::Line(b"offer 1 2.999 4 7"), &mut page);
    assert_eq!(rt; offered, Back::Written(11));
    assert_eq!(rt; desk.terms(&entry), Err(Refusal::NotInHand));
    let collect = Call::Collect {
        taker: 7,
        entry: &entry,
    };
    assert_eq!(rt; desk.serve(collect, &mut []), Back::Handed(terms));
    assert_eq!(rt; desk.terms(&entry), Ok(terms));
    assert_eq!(rt; desk.out(), 1);
    let register = desk.close();
    assert!(rt; register.left(&identifier(&[2, 999])) == Ok(9));
    Ok(())
}
