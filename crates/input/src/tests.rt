// Lines of some input checked, counted and answered.
ghost use Rattle.std.specs.Prelude.{◌++◌, length, cond, codes, decimal, nat_le};
ghost use Rattle.input.specs.Limits.{too_long_text};

use crate::{Checker, Line, TooLong, check_lines};
use std::test::Fail;

// Any line that is not too long will do.
#[derive(Clone, Copy)]
struct Lengths;

impl Checker for Lengths {
    ghost good = { λ bytes. nat_le (length bytes) 4096 };

    ghost answer = { λ bytes. cond (nat_le (length bytes) 4096) (codes "ok " ++ decimal (length bytes)) (codes "no " ++ too_long_text) };

    type Found = usize;

    type Trouble = TooLong;

    fn check(&self, line: &Line) -> Result<usize, TooLong> {
        match line.whole() {
            Some(bytes) => Ok(bytes.len()),
            None => Err(TooLong),
        }
    }
}

#[test]
fn lines_are_answered_and_counted(rt: HostRuntime) -> Result<(), Fail> {
    let mut text = vec![in rt.alloc(); b'7'; 4097]?;
    text.extend_from_slice(b"\n1.2\n\nlast")?;
    let mut input = text.as_slice();
    let (tally, out) = check_lines(rt.alloc(), Lengths, &mut input, Vec::new(rt.alloc()))?;
    assert_eq!(rt; tally.read, 4);
    assert_eq!(rt; tally.refused, 1);
    let answers =
        b"no long 4096 the line has more bytes than that, and was not read\nok 3\nok 0\nok 4\n4 read, 1 refused\n";
    assert!(rt; out.as_slice() == answers.as_slice());
    Ok(())
}
