// Laws of arc rules, each as the contract of a function.
ghost use Rattle.arc_rules.specs.Laws.{AnswersTellSet, OneAnswer, OnlyLowest};

// The lowest arc of a set that is not below another is what the search finds, and nothing else.
#[tactic(auto, using(crate::proofs::Theorems::only_lowest))]
pub fn only_lowest()
    ensures { OnlyLowest }
{}

// Two answers to one question are equal, for one set, and for two with the same arcs.
#[tactic(auto, using(crate::proofs::Theorems::one_answer))]
pub fn one_answer()
    ensures { OneAnswer }
{}

// Two sets with the same answers have the same arcs.
pub fn answers_tell_set()
    ensures { AnswersTellSet }
{}
