// Laws of request lines, each as the contract of a function.
ghost use Rattle.book.specs.Runs.{Recovers};
ghost use Rattle.request.specs.Example.{WorkedLines};
ghost use Rattle.request.specs.Fitting.{LinesFit, RollsFit};
ghost use Rattle.request.specs.Lines.{EqualButPrefix};
ghost use Rattle.request.specs.ReadBack.{IdentifiersReadBack, ChildLinesApart};
ghost use Rattle.request.specs.RequestLines.{request_lines};
ghost use Rattle.request.specs.Rolls.{RollsAreLines};

// Two lines that are read as one call are equal but for their identifiers' prefix.
pub fn equal_but_prefix()
    ensures { EqualButPrefix }
{}

// From what is written for a line, of whatever answer, can be read back the identifier that the answer has; and none if it has none.
pub fn identifiers_read_back()
    ensures { IdentifiersReadBack }
{}

// Two children whose lines are equal are shown alike, and no line of a child is one that ends a roll.
pub fn child_lines_apart()
    ensures { ChildLinesApart }
{}

// On the least page that is answered on, each first line fits with 16 bytes behind it; and in those fits each line that ends a roll.
pub fn lines_fit()
    ensures { LinesFit }
{}

// A roll fits, with the line that ends it, on each page that is long enough for answers.
pub fn rolls_fit()
    ensures { RollsFit }
{}

// The lines of a worked example make its calls, and what is written for them is as the rules say; and so it is at the edges.
pub fn worked_lines()
    ensures { WorkedLines }
{}

// A roll has the lines of its first children, as many as leave 16 bytes of the page behind each, and the line that ends it.
pub fn rolls_are_lines()
    ensures { RollsAreLines }
{}

// Identifiers can be told from what is written for request lines, as the law over every run asks of lines.
pub fn lines_recover()
    ensures { Recovers request_lines }
{}
