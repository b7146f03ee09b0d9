// Rules alone and under three layers, against a plain loop over a few arcs.
use crate::EvenArcs;
use arc_rules::{ArcRule, HeldBack, Listed, Range, RuleRefusal, has_arc};
use arrayvec::ArrayString;
use oid::{ARC_LIMIT, Arc};
use std::fmt::Write;

// The first and the last arc that each of three layers holds back, the lowest layer first, among arcs from 0 to 9.
const LAYERS: [[(Arc, Arc); 3]; 9] = [
    [(1, 0), (9, 0), (5, 4)],
    [(0, 1), (2, 3), (4, 5)],
    [(4, 5), (2, 3), (0, 1)],
    [(2, 3), (0, 1), (4, 4)],
    [(3, 5), (4, 7), (0, 3)],
    [(5, 5), (4, 6), (3, 7)],
    [(0, 0), (9, 9), (2, 7)],
    [(0, 9), (1, 0), (3, 3)],
    [(7, ARC_LIMIT), (6, 8), (2, 2)],
];

// Arcs of a rule in ascending order.
const SETS: [&[Arc]; 5] = [
    &[],
    &[0],
    &[2, 3, 4, 5, 6],
    &[1, 4, 8],
    &[0, 1, 2, 3, 4, 5, 6, 7, 8, 9],
];

// One arc more than a rule may list.
const TOO_MANY: [Arc; 33] = [
    0, 1, 2, 3, 4, 5, 6, 7, 8, 9, 10, 11, 12, 13, 14, 15, 16, 17, 18, 19, 20, 21, 22, 23, 24, 25,
    26, 27, 28, 29, 30, 31, 32,
];

fn pile<R: ArcRule>(rule: R, layers: &[(Arc, Arc); 3]) -> HeldBack<HeldBack<HeldBack<R>>> {
    let low = HeldBack::over(rule, layers[0].0, layers[0].1);
    let middle = HeldBack::over(low, layers[1].0, layers[1].1);
    HeldBack::over(middle, layers[2].0, layers[2].1)
}

// The lowest of the arcs that is not below the one asked for and that no layer holds back.
fn plain(arcs: &[Arc], layers: &[(Arc, Arc); 3], asked: Arc) -> Option<Arc> {
    for arc in arcs {
        let held_back = layers
            .iter()
            .any(|layer| layer.0 <= *arc && *arc <= layer.1);
        if *arc >= asked && !held_back {
            return Some(*arc);
        }
    }
    None
}

// Whether the rule answers as the plain loop does, for each arc from 0 to 10.
fn agrees<R: ArcRule>(rule: &R, arcs: &[Arc], layers: &[(Arc, Arc); 3]) -> bool {
    (0..11).all(|asked| {
        let lowest = plain(arcs, layers, asked);
        rule.lowest_from(asked) == lowest && has_arc(rule, asked) == (lowest == Some(asked))
    })
}

#[test]
fn listed(rt: HostRuntime) {
    for layers in &LAYERS {
        for arcs in SETS {
            let rule = Listed::new(arcs);
            assert_eq!(rt; rule.tells(), 0);
            assert!(rt; agrees(&pile(rule, layers), arcs, layers));
        }
    }
}

#[test]
fn ranges(rt: HostRuntime) {
    for layers in &LAYERS {
        assert!(rt;
            agrees(
                &pile(Range::new(0, 9), layers),
                &[0, 1, 2, 3, 4, 5, 6, 7, 8, 9],
                layers
            )
        );
        assert!(rt; agrees(&pile(Range::new(2, 6), layers), &[2, 3, 4, 5, 6], layers));
        assert!(rt; agrees(&pile(Range::new(4, 4), layers), &[4], layers));
        assert!(rt; agrees(&pile(Range::new(6, 2), layers), &[], layers));
    }
}

#[test]
fn a_rule_from_outside(rt: HostRuntime) {
    for layers in &LAYERS {
        assert!(rt; agrees(&pile(EvenArcs::new(), layers), &[0, 2, 4, 6, 8, 10], layers));
    }
    assert!(rt; EvenArcs::new().lowest_from(ARC_LIMIT).is_none());
}

#[test]
fn lists_that_are_refused(rt: HostRuntime) {
    assert_eq!(rt; Listed::new(&TOO_MANY[1..]).tells(), 0);
    assert!(rt; Listed::new(&TOO_MANY[1..]).lowest_from(32) == Some(32));
    for refused in [TOO_MANY.as_slice(), &[1, 1], &[0, 2, 1]] {
        let rule = Listed::new(refused);
        assert_eq!(rt; rule.tells(), 27);
        assert!(rt; rule.lowest_from(0).is_none());
    }
}

#[test]
fn at_the_limit(rt: HostRuntime) {
    let bottom = Range::new(ARC_LIMIT - 2, ARC_LIMIT);
    assert!(rt; bottom.lowest_from(0) == Some(ARC_LIMIT - 2));
    let middle = HeldBack::over(bottom, ARC_LIMIT - 2, ARC_LIMIT - 2);
    assert!(rt; middle.lowest_from(0) == Some(ARC_LIMIT - 1));
    let top = HeldBack::over(middle, ARC_LIMIT, ARC_LIMIT);
    assert!(rt; top.lowest_from(ARC_LIMIT - 1) == Some(ARC_LIMIT - 1));
    assert!(rt; top.lowest_from(ARC_LIMIT).is_none());
}

#[test]
fn words(rt: HostRuntime) {
    let mut text = ArrayString::<80>::new();
    assert!(rt; write!(text, "{}", RuleRefusal::UnfitList).is_ok());
    assert!(rt; text.as_str() == "the listed arcs are not strictly ascending, or more than 32");
}
