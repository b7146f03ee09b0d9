// Digits at the edges of a base.
use crate::{digit_count, digits, with_digit, write_digits};

#[test]
fn numerals(rt: HostRuntime) {
    assert!(rt; digits::<10>(0).as_slice() == [0].as_slice());
    assert!(rt; digits::<10>(4294967295).as_slice() == [4, 2, 9, 4, 9, 6, 7, 2, 9, 5].as_slice());
    assert!(rt; digits::<128>(127).as_slice() == [127].as_slice());
    assert!(rt; digits::<128>(1079).as_slice() == [8, 55].as_slice());
    assert_eq!(rt; digits::<0>(u64::MAX).len(), 64);
}

#[test]
fn places(rt: HostRuntime) {
    let mut page = [7; 5];
    assert_eq!(rt; write_digits::<10>(407, &mut page), Some(3));
    assert!(rt; page == [4, 0, 7, 7, 7]);
    assert_eq!(rt; write_digits::<10>(100000, &mut page), None);
    assert!(rt; page == [4, 0, 7, 7, 7]);
    assert_eq!(rt; digit_count::<10>(100000), 6);
}

#[test]
fn values(rt: HostRuntime) {
    let bytes = [8, 55];
    assert_eq!(rt;
        bytes
            .iter()
            .fold(0, |value, digit| with_digit::<128>(value, *digit)),
        1079
    );
    assert_eq!(rt; with_digit::<10>(u64::MAX / 10, 5), u64::MAX);
    assert_eq!(rt; with_digit::<10>(u64::MAX / 10, 6), u64::MAX);
}
