// What a line is marked with.
ghost use Rattle.std.specs.Prelude.{◌≡◌};
ghost use Rattle.conformance.specs.Differences.{mark_of};

// What must be said of an identifier: it is within our limits, or which of them it passes.
#[derive(Clone, Copy)]
pub enum Mark {
    // Its text and its encoding are read and written, equal to those of the line.
    Equal,
    // An arc is too large.
    Large,
    // No arc is too large, and there are too many.
    Many,
    // An arc is too large, and the encoding is too long.
    LargeLong,
    // No arc is too large, there are too many, and the encoding is too long.
    ManyLong,
}

// The mark that a word stands for.
pub fn mark_of(word: &[u8]) -> Option<Mark>
    ensures { result ≡ mark_of word.now }
{
    match word {
        b"equal" => Some(Mark::Equal),
        b"large" => Some(Mark::Large),
        b"many" => Some(Mark::Many),
        b"large-long" => Some(Mark::LargeLong),
        b"many-long" => Some(Mark::ManyLong),
        _ => None,
    }
}
