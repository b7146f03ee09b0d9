// How we may differ from an example or a line.
ghost use Rattle.std.specs.Prelude.{Some};
ghost use Rattle.conformance.specs.Output.{difference_text};

use std::error::Error;
use std::fmt;

#[derive(Clone, Copy, PartialEq, Eq, Debug)]
pub enum Difference {
    // The line is no mark, text and pairs of digits.
    Form,
    // The text is read otherwise than marked.
    TextRead,
    // Other bytes are written of the text's identifier.
    BytesWritten,
    // The bytes are read otherwise than marked.
    BytesRead,
    // Another text is written of the bytes' identifier.
    TextWritten,
}

impl fmt::Display for Difference {
    ghost output = { λ difference. Some (difference_text difference) };

    fn fmt<W: fmt::Write>(&self, f: &mut fmt::Formatter<W>) -> fmt::Result {
        f.write_str(match self {
            Difference::Form => "it is not a mark, a text and pairs of hexadecimal digits",
            Difference::TextRead => "the text is read otherwise",
            Difference::BytesWritten => "other bytes are written",
            Difference::BytesRead => "the bytes are read otherwise",
            Difference::TextWritten => "another text is written",
        })
    }
}

impl Error for Difference {}
