// Identifiers at the edges of the rule, and their family.
use crate::{Arc, Identifier};
use std::test::Fail;

const BROKEN: [&[Arc]; 7] = [
    &[],
    &[1],
    &[3, 1],
    &[0, 40],
    &[1, 40],
    &[4294967295, 0],
    &[1, 1, 1, 1, 1, 1, 1, 1, 1, 1, 1, 1, 1, 1, 1, 1, 1],
];

#[test]
fn broken_rules(rt: HostRuntime) {
    for arcs in BROKEN {
        assert!(rt; Identifier::from_arcs(arcs).is_none());
    }
}

#[test]
fn family(rt: HostRuntime) -> Result<(), Fail> {
    let Some(hall) = Identifier::from_arcs(&[2, 999]) else {
        return Err(Fail::new("2.999"));
    };
    assert!(rt; hall.parent().is_none());
    let Some(panel) = hall.child(100) else {
        return Err(Fail::new("2.999.100"));
    };
    assert_eq!(rt; panel.len(), 3);
    assert!(rt; panel.arcs() == [2, 999, 100].as_slice());
    let Some(parent) = panel.parent() else {
        return Err(Fail::new("its parent"));
    };
    assert!(rt; parent == hall);
    assert!(rt; panel != hall);
    assert!(rt; panel.below(&hall));
    assert!(rt; hall.at_or_below(&hall));
    assert!(rt; !hall.below(&hall));
    assert!(rt; !hall.at_or_below(&panel));
    Ok(())
}

#[test]
fn no_seventeenth_arc(rt: HostRuntime) -> Result<(), Fail> {
    let Some(full) = Identifier::from_arcs(&[
        2, 1, 2, 3, 4, 5, 6, 7, 8, 9, 10, 11, 12, 13, 14, 4294967295,
    ]) else {
        return Err(Fail::new("sixteen arcs"));
    };
    assert!(rt; full.child(0).is_none());
    Ok(())
}
