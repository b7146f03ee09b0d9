// Input cut into lines.
ghost use Rattle.std.specs.Prelude.{◌≡◌, ℕ, List, [], ◌∷◌, ◌++◌, Some, IfSome, OnOk};
ghost use Rattle.input.specs.Lines.{Took, LinesOf, underway, ended, last_line};

use crate::line::Line;
use anyhow::bail;
use std::alloc::Global;
use std::io;
use std::io::Read;

// How many bytes are read at once.
const CHUNK: usize = 4096;

// What lines are handed to, one after the other.
pub trait LineTaker {
    // from the one state to the other it has taken these lines
    ghost taken: { Self → List (List ℕ) → Self → Type 0 };

    // Takes a line that has ended.
    fn take_line(&mut self, line: &Line) -> io::Result<()>
        ensures { OnOk result ((bytes : List ℕ) → Took line.now bytes → taken self.old (bytes ∷ []) self.new) };

    // Called where the input pauses: whoever waits for answers can have them.
    fn pause(&mut self) -> io::Result<()>
        ensures { OnOk result (taken self.old [] self.new) };

    // a taker that stays as it is has taken none
    ghost none: { (taker : Self) → taken taker [] taker };

    // lines and further lines are taken together
    ghost further: { (first second third : Self) (lines more : List (List ℕ)) → taken first lines second → taken second more third → taken first (lines ++ more) third };
}

// Hands all lines of the input to a taker. A last line without a line feed is a line; nothing after the last line feed
// is none.
pub fn read_lines<R: Read, T: LineTaker>(
    heap: Global,
    input: &mut R,
    taker: &mut T,
) -> anyhow::Result<()>
    ensures taken { OnOk result ((lines : List (List ℕ)) × LinesOf (R.remaining input.old) lines × T.taken taker.old lines taker.new) }
    ensures end { OnOk result (IfSome (R.remaining input.old) (λ bytes. R.remaining input.new ≡ Some [])) }
{
    let mut line = Line::new(heap)?;
    let mut chunk = [0; CHUNK];
    for _ in 0..u64::MAX {
        let count = input.read(&mut chunk)?;
        if count == 0 {
            take_last(&line, taker)?;
            return Ok(());
        }
        take_bytes(&chunk[..count], &mut line, taker)?;
        taker.pause()?;
    }
    bail!("the input does not end")
}

// Takes what is under way where the input has ended, if that is anything.
fn take_last<T: LineTaker>(line: &Line, taker: &mut T) -> io::Result<()>
    ensures { OnOk result ((bytes : List ℕ) → Took line.now bytes → T.taken taker.old (last_line bytes) taker.new) }
{
    if line.is_empty() {
        return Ok(());
    }
    taker.take_line(line)
}

// Takes more input: each line feed ends a line, and every other byte belongs to one.
fn take_bytes<T: LineTaker>(input: &[u8], line: &mut Line, taker: &mut T) -> io::Result<()>
    ensures rest { OnOk result ((bytes : List ℕ) → Took line.old bytes → Took line.new (underway bytes input.now)) }
    ensures taken { OnOk result ((bytes : List ℕ) → Took line.old bytes → T.taken taker.old (ended bytes input.now) taker.new) }
{
    for byte in input {
        if *byte == b'\n' {
            end_line(line, taker)?;
        } else {
            line.take(*byte);
        }
    }
    Ok(())
}

// Takes the line, which has ended, and begins anew, also where the taking fails.
fn end_line<T: LineTaker>(line: &mut Line, taker: &mut T) -> io::Result<()>
    ensures after { Took line.new [] }
    ensures taken { OnOk result ((bytes : List ℕ) → Took line.old bytes → T.taken taker.old (bytes ∷ []) taker.new) }
{
    match taker.take_line(line) {
        Ok(()) => line.clear(),
        Err(error) => {
            line.clear();
            return Err(error);
        }
    }
    Ok(())
}
