// Comparisons that agree, and one that differs.
use crate::difference::Difference;
use crate::running::compare_all;
use std::test::Fail;

#[test]
fn the_first_difference_is_told(rt: HostRuntime) -> Result<(), Fail> {
    let mut input = b"equal 1.2 06012A\nmany 1.2 06012A\nequal 1.2 06012B\n".as_slice();
    let (first, out) = compare_all(rt.alloc(), &mut input, Vec::new(rt.alloc()))?;
    assert!(rt; first == Some(Difference::TextRead));
    let told =
        b"2.100.3 is 06 03 81 34 03: agreed\n2.999.3 is 06 03 88 37 03: agreed\n1 encodings agreed\nline 2 differs: the text is read otherwise\n";
    assert!(rt; out.as_slice() == told.as_slice());
    Ok(())
}
