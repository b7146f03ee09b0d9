// How the programs found their register, by what their options tell.
ghost use Rattle.std.specs.Prelude.{◌≡◌, OnOk};
ghost use Rattle.std.specs.Io.KnownBytes.{Appends};
ghost use Rattle.options.specs.Options.{held};
ghost use Rattle.register.specs.Registers.{founding_of};
ghost use Rattle.hall.specs.Founded.{range_meaning, listed_meaning, founding_told, program_serial, refusal_told};

use arc_rules::{Listed, Range};
use book::FoundingRefusal;
use options::Options;
use register::Founding;
use std::io;
use std::io::Write;

// The serial of the one register of a program.
const SERIAL: u32 = 1;

// What the register is founded with.
pub fn founding(options: Options) -> Founding<Range, Listed>
    ensures founding { founding_of range_meaning listed_meaning result ≡ founding_told (held options) }
    ensures serial { result.serial ≡ program_serial }
{
    Founding {
        root: options.root,
        holder: options.holder,
        quota: options.quota,
        serial: SERIAL,
        panels: options.panels,
        authorities: options.authorities,
    }
}

// Tells why a founding is refused, if it is.
pub fn tell_refusal<W: Write>(refusal: Option<FoundingRefusal>, out: &mut W) -> io::Result<()>
    ensures { OnOk result (Appends (W.contents out.old) (W.contents out.new) (refusal_told refusal)) }
{
    let Some(refusal) = refusal else {
        return Ok(());
    };
    let number = refusal.number();
    writeln!(out, "the founding is refused: {number} {refusal}")
}
