// Request lines as lines to be checked.
ghost use Rattle.std.specs.Prelude.{◌≡◌, ℕ, List, IfOk};
ghost use Rattle.std.specs.Io.KnownBytes.{Appends};
ghost use Rattle.input.specs.Counting.{tally_of};
ghost use Rattle.input.specs.Lines.{LinesOf, Took};
ghost use Rattle.request.specs.Reading.{read_line};
ghost use Rattle.readings.specs.Answers.{reading_in, good_line, answer_to, output_of};

use crate::found::Found;
use input::{Checker, Line, Tally, check_lines};
use request::{Fault, LineRefusal, read};
use std::alloc::Global;
use std::io::{Read, Write};

// Takes each line for a request line.
#[derive(Clone, Copy)]
pub struct RequestLines;

impl Checker for RequestLines {
    ghost good = { good_line };

    ghost answer = { answer_to };

    type Found = Found;

    type Trouble = Fault;

    #[tactic(auto, using(crate::proofs::Judged::read_good, crate::proofs::Judged::read_says))]
    fn check(&self, line: &Line) -> Result<Found, Fault> {
        judge(line)
    }
}

// Reads a line that has ended. A line that is too long to be held has more bytes than lines have.
fn judge(line: &Line) -> Result<Found, Fault>
    ensures { (bytes : List ℕ) → Took line.now bytes → reading_in result ≡ read_line bytes }
{
    let Some(bytes) = line.whole() else {
        return Err(LineRefusal::LineLength.at(0));
    };
    Ok(Found(read(bytes)?))
}

// All lines of the input, answered and counted.
pub fn answer_lines<R: Read, W: Write + Drop>(
    heap: Global,
    input: &mut R,
    out: W,
) -> anyhow::Result<(Tally, W)>
    ensures { IfOk result (λ done. (lines : List (List ℕ)) × LinesOf (R.remaining input.old) lines
        × (done.0 ≡ tally_of good_line lines)
        × Appends (W.contents out) (W.contents done.1) (output_of lines)) }
{
    check_lines(heap, RequestLines, input, out)
}
