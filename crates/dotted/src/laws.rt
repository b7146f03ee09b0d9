// Laws of dotted text, each as the contract of a function.
ghost use Rattle.dotted.specs.Laws.{OneText, PrefixMovesFaults};

// Two texts without a prefix that read to one identifier are equal.
pub fn one_text_for_each()
    ensures { OneText }
{}

// The prefix before a text that does not itself begin with it changes no answer, except that faults at a byte are
// further on.
pub fn prefix_moves_faults()
    ensures { PrefixMovesFaults }
{}
