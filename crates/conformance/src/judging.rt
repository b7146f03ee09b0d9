// A line compared.
ghost use Rattle.std.specs.Prelude.{◌≡◌, ℕ, ◌≤◌, List, length, Some};
ghost use Rattle.std.specs.Result.{result_err};
ghost use Rattle.input.specs.Limits.{line_limit};
ghost use Rattle.input.specs.Lines.{Took};
ghost use Rattle.conformance.specs.Differences.{by_mark, from_line};

use crate::case::Case;
use crate::difference::Difference;
use crate::mark::{Mark, mark_of};
use input::{Line, MOST_PAIRS, content_in, split_field};

// Whether we agree with a line; else where we differ from it.
pub fn compare_line(line: &Line) -> Result<(), Difference>
    ensures { (bytes : List ℕ) → Took line.now bytes → result_err result ≡ from_line bytes }
{
    let Some(bytes) = line.whole() else {
        return Err(Difference::Form);
    };
    let (word, rest) = split_field(bytes);
    let mark = mark_of(word).ok_or(Difference::Form)?;
    compare_rest(mark, rest)
}

// The same of what stands behind the mark.
fn compare_rest(mark: Mark, rest: &[u8]) -> Result<(), Difference>
    requires { length rest.now ≤ line_limit }
    ensures { result_err result ≡ by_mark (Some mark) rest.now }
{
    let (text, digits) = split_field(rest);
    let mut page = [0; MOST_PAIRS];
    let encoding = content_in(digits, &mut page).map_err(|_| Difference::Form)?;
    let case = Case { text, encoding };
    case.compare(mark)
}
