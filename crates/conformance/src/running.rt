// The examples and all lines compared, and what came of it written.
ghost use Rattle.std.specs.Prelude.{◌≡◌, ℕ, List, IfOk};
ghost use Rattle.std.specs.Io.KnownBytes.{Appends};
ghost use Rattle.input.specs.Lines.{LinesOf};
ghost use Rattle.conformance.specs.Output.{example_line, example_of, first_of_all, from_example, output_of};

use crate::case::Case;
use crate::difference::Difference;
use crate::mark::Mark;
use crate::taking::compare_lines;
use input::{Pairs, close};
use std::alloc::Global;
use std::io;
use std::io::{BufWriter, Read, Write};

// X.690's example of an object identifier.
const STANDARDS: Case<'static> = Case {
    text: b"2.100.3",
    encoding: &[0x06, 0x03, 0x81, 0x34, 0x03],
};

// The same rule for an arc that newer editions use.
const NEWER: Case<'static> = Case {
    text: b"2.999.3",
    encoding: &[0x06, 0x03, 0x88, 0x37, 0x03],
};

// Compares the examples and then all lines of the input, and writes what came of it. The answer is the first
// difference, if there is one.
pub fn compare_all<R: Read, W: Write + Drop>(
    heap: Global,
    input: &mut R,
    out: W,
) -> anyhow::Result<(Option<Difference>, W)>
    ensures { IfOk result (λ done. (lines : List (List ℕ)) × LinesOf (R.remaining input.old) lines
        × (done.0 ≡ first_of_all lines)
        × Appends (W.contents out) (W.contents done.1) (output_of lines)) }
{
    let mut buffered = BufWriter::new(heap, out)?;
    let standards = compare_example(&STANDARDS, &mut buffered)?;
    let newer = compare_example(&NEWER, &mut buffered)?;
    let comparison = compare_lines(heap, input)?;
    let first = standards.or(newer).or(comparison.first);
    let out = close(&comparison, buffered)?;
    Ok((first, out))
}

// Compares an example, writes what came of it, and answers how we differ.
fn compare_example<W: Write>(example: &Case, out: &mut W) -> io::Result<Option<Difference>>
    ensures { IfOk result (λ difference. (difference ≡ from_example (example_of example.now))
        × Appends (W.contents out.old) (W.contents out.new) (example_line (example_of example.now))) }
{
    let encoding = Pairs {
        bytes: example.encoding,
        between: " ",
    };
    out.write_all(example.text)?;
    write!(out, " is {encoding}: ")?;
    match example.compare(Mark::Equal) {
        Ok(()) => {
            writeln!(out, "agreed")?;
            Ok(None)
        }
        Err(difference) => {
            writeln!(out, "{difference}")?;
            Ok(Some(difference))
        }
    }
}
