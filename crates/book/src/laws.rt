// Laws of the register, each as the contract of a function.
ghost use Rattle.book.specs.Beneath.{EntriesApart, EntriesStay, GoodFoundings, OneRun, PanelsHolders, RefusedFoundings, RunsAreCalls, SomeLines};
ghost use Rattle.book.specs.Edges.{EdgeAnswers};
ghost use Rattle.book.specs.Example.{WorkedExample};
ghost use Rattle.book.specs.Grants.{CollectsGiveOwn, OwnGrants, OwnGrantsStay};
ghost use Rattle.book.specs.Law.{EveryRun, FoundedAlike};
ghost use Rattle.book.specs.Passing.{AllPass};
ghost use Rattle.book.specs.Rolls.{RollsInOrder};
ghost use Rattle.book.specs.Tables.{WrittenTables};

// In every run from every founding neighbours are unfelt, nothing is given twice, what is given is given by rule, and quotas add up.
pub fn every_run()
    ensures { EveryRun }
{}

// Foundings with equal root, holder and quota, and rules with the same arcs, are alike, as the law asks of two starts.
pub fn founded_alike()
    ensures { FoundedAlike }
{}

// Whatever is sent, there is a run in which it is sent, and only one.
pub fn one_run()
    ensures { OneRun }
{}

// There are ways to read and answer lines as the law asks.
pub fn some_lines()
    ensures { SomeLines }
{}

// A run leaves the book that its calls leave; so what the laws below say of calls holds of runs.
pub fn runs_are_calls()
    ensures { RunsAreCalls }
{}

// After a good founding the entries, and what all that are offered, in hand or open have left, are one more than the root's quota. So the
// book never has more than 512 entries, and the question about that never refuses.
pub fn good_foundings()
    ensures { GoodFoundings }
{}

// After a refused founding the book stays empty.
pub fn refused_foundings()
    ensures { RefusedFoundings }
{}

// No two entries have one identifier.
pub fn entries_apart()
    ensures { EntriesApart }
{}

// A panel's holder is its parent's.
pub fn panels_holders()
    ensures { PanelsHolders }
{}

// No entry is ever removed, nothing of it but its kind changes, and that only in few ways.
pub fn entries_stay()
    ensures { EntriesStay }
{}

// A call is answered yes exactly when each of its questions is.
pub fn all_pass()
    ensures { AllPass }
{}

// A roll lists the children with arcs from one upwards, each arc once, in ascending order.
pub fn rolls_in_order()
    ensures { RollsInOrder }
{}

// A Grant that is the register's own for an entry does what the calls do that name the entry.
pub fn own_grants()
    ensures { OwnGrants }
{}

// What a collect gives is the register's own Grant.
pub fn collects_give_own()
    ensures { CollectsGiveOwn }
{}

// And it stays so, whatever is called.
pub fn own_grants_stay()
    ensures { OwnGrantsStay }
{}

// A worked example, as calls and their answers.
pub fn worked_example()
    ensures { WorkedExample }
{}

// Answers at the edges: who may call, which kinds are wanted, and which question is put first.
pub fn edge_answers()
    ensures { EdgeAnswers }
{}

// Tables written out: places, numbers, the limits of a founding, Grants of any kind, and what comes back.
pub fn written_tables()
    ensures { WrittenTables }
{}
