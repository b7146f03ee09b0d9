// Laws of the answers, each as the contract of a function.
ghost use Rattle.sticker.specs.Laws.{GivenBack};

// What is printed of an identifier, given back, is read as that identifier.
pub fn given_back()
    ensures { GivenBack }
{}
