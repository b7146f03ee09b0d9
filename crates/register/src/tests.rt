// The rows of a register: founded, entered, counted, searched and turned.
use crate::row::Row;
use crate::{Founding, MOST_ENTRIES, Register};
use arc_rules::{Listed, Range};
use book::{Event, Kind, Refusal};
use oid::{Arc, Identifier, next_arc};
use std::alloc::{AllocError, Global};
use std::test::Fail;

type Hall = Register<Range, Listed>;

fn identifier(arcs: &[Arc]) -> Identifier {
    Identifier::from_arcs(arcs).unwrap_or(Identifier::smallest())
}

fn row(arcs: &[Arc], kind: Kind, quota: u32) -> Row {
    Row {
        identifier: identifier(arcs),
        kind,
        holder: 1,
        quota,
    }
}

// A register below 2.999, with the panels 100 to 102, and 1, 3 and 5 for authorities.
fn hall(alloc: Global, holder: u32, quota: u32) -> Result<Hall, AllocError> {
    Register::founded(
        alloc,
        Founding {
            root: identifier(&[2, 999]),
            holder,
            quota,
            serial: 7,
            panels: Range::new(100, 102),
            authorities: Listed::new(&[1, 3, 5]),
        },
    )
}

#[test]
fn founded(rt: HostRuntime) -> Result<(), Fail> {
    for (holder, quota, number) in [
        (1, 511, 0),
        (65_535, 0, 0),
        (1, 512, 23),
        (0, 4_294_967_295, 23),
        (0, 511, 24),
        (65_536, 0, 24),
    ] {
        let register = hall(rt.alloc(), holder, quota)?;
        assert_eq!(rt; register.tells(), number);
        let left = register.left(&identifier(&[2, 999]));
        if number == 0 {
            assert!(rt; left == Ok(u64::from(quota)));
        } else {
            assert!(rt; left == Err(Refusal::NotInBook));
        }
    }
    Ok(())
}

// Enters a row. What a call names does not stand in the book of a register that was refused.
fn enters(register: &mut Hall, row: Row) -> Result<Identifier, Refusal> {
    if register.refusal().is_some() {
        return Err(Refusal::NotInBook);
    }
    register.enter(row)
}

#[test]
fn turned(rt: HostRuntime) -> Result<(), Fail> {
    let mut register = hall(rt.alloc(), 1, 9)?;
    assert!(rt; enters(&mut register, row(&[2, 999, 100], Kind::Panel, 0)).is_ok());
    assert!(rt; enters(&mut register, row(&[2, 999, 1], Kind::Offered, 4)).is_ok());
    assert!(rt; !register.turn(1, Event::Accept));
    assert!(rt; register.turn(1, Event::Retire));
    assert!(rt; !register.turn(1, Event::Retire));
    assert!(rt; register.turn(2, Event::Collect));
    assert!(rt; !register.turn(2, Event::Decline));
    assert!(rt; register.turn(2, Event::DeclineGrant));
    assert!(rt; !register.turn(3, Event::Retire));
    let panel = register
        .entry(&identifier(&[2, 999, 100]))
        .map(|row| row.kind);
    assert!(rt; panel == Some(Kind::Retired));
    let offer = register
        .entry(&identifier(&[2, 999, 1]))
        .map(|row| row.kind);
    assert!(rt; offer == Some(Kind::Declined));
    assert!(rt; register.left(&identifier(&[2, 999])) == Ok(7));
    Ok(())
}

// A retired panel's arc and a declined authority's stay taken; a declined quota comes back, and the 1 does not.
#[test]
fn counted_and_searched(rt: HostRuntime) -> Result<(), Fail> {
    let mut register = hall(rt.alloc(), 1, 20)?;
    let root = identifier(&[2, 999]);
    assert!(rt; register.panel_arc(&root) == Some(100));
    assert!(rt; register.offer_arc(&root) == Some(1));
    for entered in [
        row(&[2, 999, 101], Kind::Panel, 0),
        row(&[2, 999, 1], Kind::Open, 4),
        row(&[2, 999, 1, 100], Kind::Panel, 0),
        row(&[2, 999, 100], Kind::Retired, 0),
        row(&[2, 999, 5], Kind::Declined, 3),
        row(&[2, 999, 3], Kind::InHand, 2),
    ] {
        assert!(rt; enters(&mut register, entered).is_ok());
    }
    assert!(rt; register.left(&root) == Ok(9));
    assert!(rt; register.left(&identifier(&[2, 999, 1])) == Ok(3));
    assert!(rt; register.left(&identifier(&[2, 999, 5])) == Ok(3));
    assert!(rt; register.left(&identifier(&[2, 999, 100])) == Err(Refusal::WrongKind));
    assert!(rt; register.left(&identifier(&[2, 999, 102])) == Err(Refusal::NotInBook));
    assert!(rt; register.panel_arc(&root) == Some(102));
    assert!(rt; register.offer_arc(&root).is_none());
    assert!(rt; register.panel_arc(&identifier(&[2, 999, 1])) == Some(101));
    let mut listed = [0; 6];
    let mut from = 0;
    for place in &mut listed {
        let Some(child) = register.child_from(&root, from) else {
            break;
        };
        *place = child.arc();
        from = next_arc(child.arc()).unwrap_or(from);
    }
    assert!(rt; listed == [1, 3, 5, 100, 101, 0]);
    Ok(())
}

#[test]
fn full(rt: HostRuntime) -> Result<(), Fail> {
    let mut register = hall(rt.alloc(), 1, 511)?;
    for arc in 1..512 {
        assert!(rt;
            enters(&mut register, row(&[2, 999, arc], Kind::Panel, 0))
                == Ok(identifier(&[2, 999, arc]))
        );
    }
    assert!(rt;
        enters(&mut register, row(&[2, 999, 512], Kind::Panel, 0)) == Err(Refusal::BookFull)
    );
    assert!(rt; register.row_at(&identifier(&[2, 999, 511])) == Some(MOST_ENTRIES - 1));
    assert!(rt; register.left(&identifier(&[2, 999])) == Ok(0));
    Ok(())
}
