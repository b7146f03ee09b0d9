// Stickers and chips as lines to be checked.
ghost use Rattle.std.specs.Prelude.{◌≡◌, ℕ, List, IfOk};
ghost use Rattle.std.specs.Io.KnownBytes.{Appends};
ghost use Rattle.input.specs.Counting.{tally_of};
ghost use Rattle.input.specs.Lines.{LinesOf};
ghost use Rattle.sticker.specs.Answers.{good_line, answer_to, output_of};

use crate::found::Found;
use crate::judging::judge;
use crate::trouble::Trouble;
use input::{Checker, Line, Tally, check_lines};
use std::alloc::Global;
use std::io::{Read, Write};

// Takes each line for a sticker's text or a chip's content.
#[derive(Clone, Copy)]
pub struct StickersAndChips;

impl Checker for StickersAndChips {
    ghost good = { good_line };

    ghost answer = { answer_to };

    type Found = Found;

    type Trouble = Trouble;

    #[tactic(auto, using(crate::proofs::Judged::found_good))]
    fn check(&self, line: &Line) -> Result<Found, Trouble> {
        judge(line)
    }
}

// All lines of the input, answered and counted.
pub fn answer_lines<R: Read, W: Write + Drop>(
    heap: Global,
    input: &mut R,
    out: W,
) -> anyhow::Result<(Tally, W)>
    ensures { IfOk result (λ done. (lines : List (List ℕ)) × LinesOf (R.remaining input.old) lines
        × (done.0 ≡ tally_of good_line lines)
        × Appends (W.contents out) (W.contents done.1) (output_of lines)) }
{
    check_lines(heap, StickersAndChips, input, out)
}
