// A law of counter calls, as the contract of a function.
ghost use Rattle.counter.specs.Lines.{ReadExactly};

// A line is read as a call exactly when it is the call's words with one space between, with the prefix before the entry or without.
pub fn read_exactly()
    ensures { ReadExactly }
{}
