// Laws of the encoding, each as the contract of a function.
ghost use Rattle.der.specs.Laws.{OneEncoding, FewestBytes};

// Two strings of bytes that read to one identifier with nothing left over are equal.
pub fn one_encoding_for_each()
    ensures { OneEncoding }
{}

// The bytes of a number in base 128 stand for it, and no other bytes that do, one at least, are fewer.
pub fn fewest_bytes()
    ensures { FewestBytes }
{}
