// All lines of some input, served by a desk.
ghost use Rattle.std.specs.Prelude.{◌≡◌, ℕ, List, [], ◌∷◌, ◌++◌, map, length, IsOk, OnOk, IfOk, refl};
ghost use Rattle.std.specs.Io.Buffered.{writer_contents, writer_buffer};
ghost use Rattle.std.specs.Io.KnownBytes.{Appends, Keeps};
ghost use Rattle.std.specs.List.{flat_map};
ghost use Rattle.std.proofs.Common.{sym, ap, ◌∙◌, subst};
ghost use Rattle.std.proofs.KnownBytes.{Appends-nil, Appends-trans};
ghost use Rattle.std.proofs.lemmas.Grind.{flat_map-append};
ghost use Rattle.std.proofs.lemmas.List.{map-append};
ghost use Rattle.book.specs.Runs.{line as sent_line};
ghost use Rattle.input.specs.Lines.{Took, LinesOf};
ghost use Rattle.register.specs.Registers.{KeepsRest};
ghost use Rattle.runs.specs.Desks.{register_of, book_at, rules_at};
ghost use Rattle.runs.proofs.Declining.{same_rest, rest_kept};
ghost use Rattle.runs.proofs.Joined.{joined};
ghost use Rattle.runs.proofs.Onwards.{goes_on};
ghost use Rattle.runs.proofs.Progress.{same_rules};
ghost use Rattle.hall.specs.Served.{printed, LinesServed};

use crate::lines::serve_line;
use arc_rules::ArcRule;
use input::{Line, LineTaker, read_lines};
use runs::Desk;
use std::alloc::Global;
use std::io;
use std::io::{BufWriter, Read, Write};

// A desk that serves lines, with the page that it writes each answer on, and the output that the answers go to.
struct Serving<P, A, W: Write + Drop> {
    desk: Desk<P, A>,
    page: Vec<u8>,
    out: BufWriter<W>,
}

impl<P: ArcRule, A: ArcRule, W: Write + Drop> LineTaker for Serving<P, A, W> {
    ghost taken = { λ before lines after. LinesServed (rules_at P.means A.means before.desk) (book_at before.desk) lines (length before.page.items) (book_at after.desk)
        (writer_contents W.contents before.out) (writer_contents W.contents after.out)
        × KeepsRest (register_of before.desk) (register_of after.desk)
        × (length after.page.items ≡ length before.page.items) };

    fn take_line(&mut self, line: &Line) -> io::Result<()> {
        serve_line(&mut self.desk, line, &mut self.page, &mut self.out)
    }

    fn pause(&mut self) -> io::Result<()> {
        self.out.flush()
    }

    ghost none = { λ serving. (
      record {
        run = [];
        runs = tt;
        ends = refl;
        sent = refl;
        prints = Appends-nil (writer_contents W.contents serving.out);
        law = λ start earlier led. goes_on start earlier [] (rules_at P.means A.means serving.desk) (book_at serving.desk) (book_at serving.desk) led tt refl;
      },
      same_rest (register_of serving.desk),
      refl,
    ) };

    ghost further = { λ first second third lines more one two.
        let rules = rules_at P.means A.means first.desk in
        let both = joined rules (rules_at P.means A.means second.desk) (book_at first.desk) (book_at second.desk) (book_at third.desk) one.0.run two.0.run
        one.0.runs one.0.ends (same_rules P.means A.means first.desk second.desk one.1) two.0.runs two.0.ends in (
          record {
            run = one.0.run ++ two.0.run;
            runs = both.0;
            ends = both.1;
            sent = map-append (λ exchange. exchange.sent) one.0.run two.0.run
                ∙ (λ i. one.0.sent i ++ (two.0.sent ∙ ap (λ n. map (λ bytes. sent_line bytes n) more) one.2) i)
                ∙ sym (map-append (λ bytes. sent_line bytes (length first.page.items)) lines more);
            prints = subst (Appends (writer_contents W.contents first.out) (writer_contents W.contents third.out))
                (sym (flat_map-append (λ exchange. printed exchange.back) one.0.run two.0.run))
                (Appends-trans (writer_contents W.contents first.out) (writer_contents W.contents second.out) (writer_contents W.contents third.out)
                (flat_map (λ exchange. printed exchange.back) one.0.run) (flat_map (λ exchange. printed exchange.back) two.0.run) one.0.prints two.0.prints);
            law = λ start earlier led. goes_on start earlier (one.0.run ++ two.0.run) rules (book_at first.desk) (book_at third.desk) led both.0 both.1;
          },
          rest_kept (register_of first.desk) (register_of second.desk) (register_of third.desk) one.1 two.1,
          two.2 ∙ one.2,
        ) };
}

// Serves all lines of the input, each with this page, and hands over the answers that the buffer still has. The desk comes back in any
// case.
pub fn serve_lines<P: ArcRule, A: ArcRule, R: Read, W: Write + Drop>(
    desk: Desk<P, A>,
    page: Vec<u8>,
    heap: Global,
    input: &mut R,
    out: BufWriter<W>,
) -> (Desk<P, A>, anyhow::Result<W>)
    ensures served { IfOk result.1 (λ output. (lines : List (List ℕ)) × LinesOf (R.remaining input.old) lines
        × LinesServed (rules_at P.means A.means desk) (book_at desk) lines (length page.items) (book_at result.0) (writer_contents W.contents out) (W.contents output)) }
    ensures rest { OnOk result.1 (KeepsRest (register_of desk) (register_of result.0)) }
{
    let mut serving = Serving { desk, page, out };
    let reading = read_lines(heap, input, &mut serving);
    let Serving { desk, page: _, out } = serving;
    (desk, finish(reading, out))
}

// The output that has all that was written, where all lines were served.
fn finish<W: Write + Drop>(serving: anyhow::Result<()>, out: BufWriter<W>) -> anyhow::Result<W>
    ensures all { IfOk result (λ output. Keeps (writer_contents W.contents out) (W.contents output)) }
    ensures served { OnOk result (IsOk serving) }
{
    serving?;
    Ok(hand_over(out)?)
}

// Hands over what the buffer still has.
fn hand_over<W: Write + Drop>(out: BufWriter<W>) -> io::Result<W>
    ensures { IfOk result (λ output. Keeps (writer_contents W.contents out) (W.contents output)) }
{
    Ok(out.into_inner()?)
}
