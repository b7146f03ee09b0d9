// Lines checked, counted and answered, one after the other.
ghost use Rattle.std.specs.Prelude.{◌≡◌, ℕ, Bool, List, [], ◌∷◌, ◌++◌, Some, is_ok, IfOk, OnOk, codes, refl};
ghost use Rattle.std.specs.Io.Buffered.{writer_buffer, writer_contents};
ghost use Rattle.std.specs.Io.KnownBytes.{Appends, Keeps};
ghost use Rattle.std.proofs.Common.{sym, ap, ◌∙◌, subst};
ghost use Rattle.std.proofs.KnownBytes.{Appends-nil, Appends-trans};
ghost use Rattle.std.proofs.lemmas.Grind.{flat_map-append};
ghost use Rattle.std.proofs.lemmas.List.Sums.{fold-append};
ghost use Rattle.input.specs.Answers.{in_words, answers, report};
ghost use Rattle.input.specs.Counting.{counted, all_counted, tally_of};
ghost use Rattle.input.specs.Limits.{line_feed};
ghost use Rattle.input.specs.Lines.{Took, LinesOf};

use crate::closing::close;
use crate::feed::{LineTaker, read_lines};
use crate::line::Line;
use crate::tally::Tally;
use std::alloc::Global;
use std::fmt::Display;
use std::io;
use std::io::{BufWriter, Read, Write};

// What a program makes of a line.
pub trait Checker {
    // whether a line is good
    ghost good: { List ℕ → Bool };

    // the answer to a line
    ghost answer: { List ℕ → List ℕ };

    // What is printed of a good line, and of another.
    type Found: Display + Drop;

    type Trouble: Display + Drop;

    // What a line that has ended holds, or the trouble with it.
    fn check(&self, line: &Line) -> Result<Self::Found, Self::Trouble>
        ensures is_good { (bytes : List ℕ) → Took line.now bytes → is_ok result ≡ good bytes }
        ensures says { (bytes : List ℕ) → Took line.now bytes
            → in_words Self.Found.output Self.Trouble.output result ≡ Some (answer bytes) };
}

// The lines so far, counted; answers are written as the lines come.
#[derive(Drop)]
struct Checked<C, W: Write + Drop> {
    tally: Tally,
    checker: C,
    out: BufWriter<W>,
}

impl<C: Checker, W: Write + Drop> LineTaker for Checked<C, W> {
    ghost taken = { λ before lines after. (after.tally ≡ all_counted C.good lines before.tally)
        × Appends (writer_contents W.contents before.out) (writer_contents W.contents after.out) (answers C.answer lines) };

    fn take_line(&mut self, line: &Line) -> io::Result<()>
        ensures taken { OnOk result ((bytes : List ℕ) → Took line.now bytes
            → (self.new.tally ≡ all_counted C.good (bytes ∷ []) self.old.tally)
            × Appends (writer_contents W.contents self.old.out) (writer_contents W.contents self.new.out) (answers C.answer (bytes ∷ []))) }
        // Also where the answer could not be written.
        ensures counts { (bytes : List ℕ) → Took line.now bytes → self.new.tally ≡ counted (C.good bytes) self.old.tally }
    {
        let answer = self.checker.check(line);
        self.tally.count(answer.is_ok());
        match answer {
            Ok(found) => writeln!(self.out, "ok {found}"),
            Err(trouble) => writeln!(self.out, "no {trouble}"),
        }
    }

    fn pause(&mut self) -> io::Result<()>
        ensures pauses { OnOk result ((self.new.tally ≡ self.old.tally)
            × Appends (writer_contents W.contents self.old.out) (writer_contents W.contents self.new.out) []) }
        ensures handed_on { OnOk result (writer_buffer self.new.out ≡ []) }
        // Also where the answers could not be handed on.
        ensures kept { (self.new.tally ≡ self.old.tally)
            × Keeps (writer_contents W.contents self.old.out) (writer_contents W.contents self.new.out) }
    {
        self.out.flush()
    }

    ghost none = { λ checked. (refl, Appends-nil (writer_contents W.contents checked.out)) };

    ghost further = { λ first second third lines more one two. (
      two.0 ∙ ap (all_counted C.good more) one.0
          ∙ sym (fold-append (λ tally line. counted (C.good line) tally) first.tally lines more),
      subst (Appends (writer_contents W.contents first.out) (writer_contents W.contents third.out))
          (sym (flat_map-append (λ line. C.answer line ++ line_feed ∷ []) lines more))
          (Appends-trans (writer_contents W.contents first.out) (writer_contents W.contents second.out) (writer_contents W.contents third.out)
          (answers C.answer lines) (answers C.answer more) one.1 two.1),
    ) };
}

// All lines of the input, counted and answered through a buffer, and the counts behind the answers.
pub fn check_lines<C: Checker + Drop, R: Read, W: Write + Drop>(
    heap: Global,
    checker: C,
    input: &mut R,
    out: W,
) -> anyhow::Result<(Tally, W)>
    ensures { IfOk result (λ done. (lines : List (List ℕ)) × LinesOf (R.remaining input.old) lines
        × (done.0 ≡ tally_of C.good lines)
        × Appends (W.contents out) (W.contents done.1) (report C.good C.answer lines)) }
{
    let tally = Tally::new();
    let buffered = BufWriter::new(heap, out)?;
    let mut checked = Checked {
        tally,
        checker,
        out: buffered,
    };
    read_lines(heap, input, &mut checked)?;
    let Checked {
        tally,
        checker: _,
        out,
    } = checked;
    let out = close(&tally, out)?;
    Ok((tally, out))
}
