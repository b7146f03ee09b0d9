// The program: a register founded, and all lines of the input answered at its desk.
ghost use Rattle.std.specs.Prelude.{◌≡◌, ℕ, List, [], ◌++◌, count_by, IfOk, OnOk};
ghost use Rattle.std.specs.Io.Buffered.{writer_contents, writer_buffer};
ghost use Rattle.std.specs.Io.KnownBytes.{Appends};
ghost use Rattle.book.specs.Founding.{founding_refusal};
ghost use Rattle.hall.specs.Founded.{founding_told, refusal_told};
ghost use Rattle.input.specs.Lines.{LinesOf};
ghost use Rattle.options.specs.Options.{held};
ghost use Rattle.runs.specs.Hands.{in_hand};
ghost use Rattle.desk.specs.Left.{left_told};
ghost use Rattle.desk.specs.Lines.{at_founding, all_served};
ghost use Rattle.desk.specs.States.{Has};

use crate::lines::Service;
use hall::{founding, tell_refusal};
use input::read_lines;
use options::Options;
use runs::Desk;
use std::alloc::Global;
use std::io;
use std::io::{BufWriter, Read, Write};

// Founds a register by the options, tells why if that is refused, and answers all lines of the input at its desk. Then the Grants that are
// still out are declined, and it is told how many.
pub fn answer_lines<R: Read, W: Write + Drop, E: Write>(
    heap: Global,
    options: Options,
    input: &mut R,
    out: W,
    errors: &mut E,
) -> anyhow::Result<BufWriter<W>>
    ensures answered { IfOk result (λ output. (lines : List (List ℕ)) × LinesOf (R.remaining input.old) lines
        × Has (writer_contents W.contents output) (all_served (at_founding (founding_told (held options)) options.page (W.contents out)) lines).output
        × Appends (E.contents errors.old) (E.contents errors.new)
        (refusal_told (founding_refusal (founding_told (held options)))
        ++ left_told (count_by in_hand (all_served (at_founding (founding_told (held options)) options.page (W.contents out)) lines).book))) }
    ensures handed_on { IfOk result (λ output. writer_buffer output ≡ []) }
{
    let page = vec![in heap; 0; options.page]?;
    let buffered = BufWriter::new(heap, out)?;
    let founding = founding(options);
    tell_refusal(founding.refusal(), errors)?;
    let desk = Desk::founded(heap, founding)?;
    let mut service = Service {
        desk,
        page,
        out: buffered,
    };
    let answering = read_lines(heap, input, &mut service);
    let Service {
        desk,
        page: _,
        mut out,
    } = service;
    let left = desk.out();
    desk.close();
    answering?;
    out.flush()?;
    tell_left(left, errors)?;
    Ok(out)
}

// Tells how many Grants were still out, if any were.
pub fn tell_left<W: Write>(count: usize, out: &mut W) -> io::Result<()>
    ensures { OnOk result (Appends (W.contents out.old) (W.contents out.new) (left_told count)) }
{
    match count {
        0 => Ok(()),
        1 => writeln!(out, "1 Grant was still out, and is declined"),
        _ => writeln!(out, "{count} Grants were still out, and are declined"),
    }
}
