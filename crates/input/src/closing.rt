// The last line of what a program writes.
ghost use Rattle.std.specs.Prelude.{◌∷◌, [], ◌++◌, IfOk, IfSome};
ghost use Rattle.std.specs.Io.Buffered.{writer_contents};
ghost use Rattle.std.specs.Io.KnownBytes.{Appends};
ghost use Rattle.input.specs.Limits.{line_feed};

use std::fmt::Display;
use std::io;
use std::io::{BufWriter, Write};

// Writes a last line, and hands over what the buffer still has.
pub fn close<T: Display, W: Write + Drop>(last: &T, mut buffered: BufWriter<W>) -> io::Result<W>
    ensures { IfOk result (λ out. IfSome (T.output last.now) (λ text.
        Appends (writer_contents W.contents buffered) (W.contents out) (text ++ line_feed ∷ []))) }
{
    writeln!(buffered, "{last}")?;
    Ok(buffered.into_inner()?)
}
