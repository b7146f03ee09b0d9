// A line of input, served by a desk.
ghost use Rattle.std.specs.Prelude.{◌≡◌, ℕ, List, length, OnOk};
ghost use Rattle.std.specs.Io.Buffered.{writer_contents};
ghost use Rattle.std.specs.Io.KnownBytes.{Appends};
ghost use Rattle.input.specs.Lines.{Took};
ghost use Rattle.register.specs.Registers.{KeepsRest};
ghost use Rattle.runs.specs.Calls.{back_of};
ghost use Rattle.runs.specs.Desks.{register_of, book_at, rules_at};
ghost use Rattle.hall.specs.Served.{printed, LineServed};

use arc_rules::ArcRule;
use input::Line;
use runs::{Back, Call, Desk};
use std::io;
use std::io::{BufWriter, Write};

// What is written of a page that is too short for answers.
const TOO_SHORT: &[u8] = b"9\n";

// Sends a line that has ended to a desk, and writes what comes back. Of a line that is too long to be kept the bytes that are kept are
// sent: they are too many, too.
pub fn serve_line<P: ArcRule, A: ArcRule, W: Write + Drop>(
    desk: &mut Desk<P, A>,
    line: &Line,
    page: &mut [u8],
    out: &mut BufWriter<W>,
) -> io::Result<()>
    ensures served { (bytes : List ℕ) → Took line.now bytes
        → LineServed (rules_at P.means A.means desk.old) (book_at desk.old) bytes (length page.old) (book_at desk.new)
        result (writer_contents W.contents out.old) (writer_contents W.contents out.new) }
    ensures page { length page.new ≡ length page.old }
    ensures rest { KeepsRest (register_of desk.old) (register_of desk.new) }
{
    let back = desk.serve(Call::Line(line.kept()), page);
    print(back, page, out)
}

// Writes what came back of a line; of the other calls nothing.
fn print<W: Write + Drop>(back: Back, page: &[u8], out: &mut BufWriter<W>) -> io::Result<()>
    ensures { OnOk result (Appends (writer_contents W.contents out.old) (writer_contents W.contents out.new) (printed (back_of back page.now))) }
{
    match back {
        Back::TooShort => out.write_all(TOO_SHORT),
        Back::Written(length) => out.write_all(&page[..length.min(page.len())]),
        Back::Handed(_) | Back::Done | Back::Refused(_) => Ok(()),
    }
}
