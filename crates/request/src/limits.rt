// How long request lines are.
ghost use Rattle.std.specs.Prelude.{◌≡◌};
ghost use Rattle.request.specs.Limits.{is_line};

// The fewest and the most bytes of a line.
pub const LEAST_LINE: usize = 1;

pub const MOST_LINE: usize = 240;

// Whether a line has as many bytes as are read.
pub fn is_line(line: &[u8]) -> bool
    ensures { result ≡ is_line line.now }
{
    (LEAST_LINE..=MOST_LINE).contains(&line.len())
}
