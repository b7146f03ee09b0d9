// Command lines, and what is wrong with some.
use crate::{BadOption, MOST_PAGE, Name, Options};
use arc_rules::{RuleRefusal, has_arc};
use oid::{Identifier, Refusal};
use std::test::Fail;

fn root(arcs: &[u32]) -> Identifier {
    Identifier::from_arcs(arcs).unwrap_or(Identifier::smallest())
}

#[test]
fn nothing_told(rt: HostRuntime) -> Result<(), Fail> {
    let Ok(usual) = Options::of(&["wall"]) else {
        return Err(Fail::new("no arguments"));
    };
    assert!(rt; usual.root == root(&[2, 999]));
    assert_eq!(rt; [usual.holder, usual.quota], [1, 10]);
    assert_eq!(rt; usual.page, 4096);
    for (arc, panels, authorities) in [
        (1, false, true),
        (5, false, true),
        (100, true, false),
        (102, true, false),
        (103, false, false),
    ] {
        assert_eq!(rt; has_arc(&usual.panels, arc), panels);
        assert_eq!(rt; has_arc(&usual.authorities, arc), authorities);
    }
    Ok(())
}

#[test]
fn all_told(rt: HostRuntime) -> Result<(), Fail> {
    let words = [
        "desk",
        "--page",
        "1048576",
        "--authorities",
        "",
        "--panels",
        "7-6",
        "--quota",
        "4294967295",
        "--holder",
        "0",
        "--root",
        "urn:oid:1.2",
    ];
    let Ok(options) = Options::of(&words) else {
        return Err(Fail::new("all options"));
    };
    assert!(rt; options.root == root(&[1, 2]));
    assert_eq!(rt; [options.holder, options.quota], [0, 4294967295]);
    assert_eq!(rt; options.page, 1048576);
    assert!(rt; !has_arc(&options.panels, 6) && !has_arc(&options.panels, 7));
    assert_eq!(rt; options.authorities.refusal(), None);
    assert!(rt; !has_arc(&options.authorities, 1));
    Ok(())
}

#[test]
fn lists(rt: HostRuntime) {
    let most =
        "0,1,2,3,4,5,6,7,8,9,10,11,12,13,14,15,16,17,18,19,20,21,22,23,24,25,26,27,28,29,30,31";
    let more =
        "0,1,2,3,4,5,6,7,8,9,10,11,12,13,14,15,16,17,18,19,20,21,22,23,24,25,26,27,28,29,30,31,32";
    for (list, refusal) in [
        (most, None),
        (more, Some(RuleRefusal::UnfitList)),
        ("1,3,3", Some(RuleRefusal::UnfitList)),
    ] {
        let options = Options::of(&["wall", "--authorities", list]);
        assert!(rt; options.is_ok_and(|options| options.authorities.refusal() == refusal));
    }
}

#[test]
fn bad_options(rt: HostRuntime) {
    let number = BadOption::NotANumber {
        option: Name::Quota,
        most: 4294967295,
    };
    let cases: [(&[&str], BadOption); 10] = [
        (&["wall", "--rot", "2.999"], BadOption::Unknown { index: 1 }),
        (
            &["wall", "--quota", "1", "2"],
            BadOption::Unknown { index: 3 },
        ),
        (&["wall", "--quota"], BadOption::NoValue(Name::Quota)),
        (
            &["wall", "--page", "1", "--page", "2"],
            BadOption::Twice(Name::Page),
        ),
        (
            &["wall", "--root", "2.08"],
            BadOption::NotAnIdentifier(Refusal::LeadingZero.at(2)),
        ),
        (&["wall", "--quota", "01"], number),
        (&["wall", "--quota", "4294967296"], number),
        (&["wall", "--panels", "1-2-3"], BadOption::NotARange),
        (&["wall", "--panels", "12"], BadOption::NotARange),
        (&["wall", "--authorities", "1,,3"], BadOption::NotAList),
    ];
    for (words, bad) in cases {
        assert_eq!(rt; Options::of(words).err(), Some(bad));
    }
}

#[test]
fn words(rt: HostRuntime) -> Result<(), Fail> {
    let root = BadOption::NotAnIdentifier(Refusal::LeadingZero.at(2));
    let text = format!(in rt.alloc(); "{root}")?;
    assert_eq!(rt;
        text.as_str(),
        "--root: an identifier was expected, as 2.999 (2 2 the number here has a needless 0 in front)"
    );
    let page = BadOption::NotANumber {
        option: Name::Page,
        most: MOST_PAGE,
    };
    let text = format!(in rt.alloc(); "{page}")?;
    assert_eq!(rt;
        text.as_str(),
        "--page: a number from 0 to 1048576 was expected"
    );
    Ok(())
}
