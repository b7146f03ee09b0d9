// What the examples come to, as the contract of a function.
ghost use Rattle.conformance.specs.Laws.{ExamplesAgree};

// Our readers and writers agree with the standard's example, and with the same rule for a newer arc.
pub fn examples_agree()
    ensures { ExamplesAgree }
{}
