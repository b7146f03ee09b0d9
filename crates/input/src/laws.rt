// Laws of pairs of hexadecimal digits, each as the contract of a function.
ghost use Rattle.input.specs.Laws.{PairsReadBack};

// The pairs that are printed of some bytes, with nothing between neighbours, are read as these bytes.
pub fn pairs_read_back()
    ensures { PairsReadBack }
{}
