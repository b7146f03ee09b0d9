// What the definitions of both notations say of examples, as the contract of a function.
ghost use Rattle.codecs.specs.Examples.{WorkedExamples};

// Identifiers and their encodings, and texts and bytes that are refused, at the edges of the rules.
pub fn worked_examples()
    ensures { WorkedExamples }
{}
