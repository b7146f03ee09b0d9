// A register founded, and lines answered.
ghost use Rattle.std.specs.Prelude.{◌≡◌, ℕ, List, [], IfOk};
ghost use Rattle.std.specs.Io.KnownBytes.{Appends};
ghost use Rattle.book.specs.Founding.{founding_refusal};
ghost use Rattle.hall.specs.Founded.{founding_told, refusal_told};
ghost use Rattle.input.specs.Lines.{LinesOf};
ghost use Rattle.options.specs.Options.{held};
ghost use Rattle.wall.specs.Answered.{Answered};

use hall::{founding, serve_lines, tell_refusal};
use options::Options;
use runs::Desk;
use std::alloc::Global;
use std::io::{BufWriter, Read, Write};

// Founds a register by the options, tells why if that is refused, and answers all lines of the input.
pub fn answer_lines<R: Read, W: Write + Drop, E: Write>(
    heap: Global,
    options: Options,
    input: &mut R,
    out: W,
    errors: &mut E,
) -> anyhow::Result<W>
    ensures answered { IfOk result (λ output. (lines : List (List ℕ)) × LinesOf (R.remaining input.old) lines
        × Answered (founding_told (held options)) options.page lines (W.contents out) (W.contents output)) }
    ensures told { IfOk result (λ output. Appends (E.contents errors.old) (E.contents errors.new) (refusal_told (founding_refusal (founding_told (held options))))) }
{
    let page = vec![in heap; 0; options.page]?;
    let buffered = BufWriter::new(heap, out)?;
    let founding = founding(options);
    tell_refusal(founding.refusal(), errors)?;
    let desk = Desk::founded(heap, founding)?;
    let (desk, answering) = serve_lines(desk, page, heap, input, buffered);
    desk.close();
    answering
}
