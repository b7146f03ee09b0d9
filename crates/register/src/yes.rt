// A yes to a request.
use oid::{Arc, Identifier};

// What is answered: an identifier, which is new or was named; or an authority, whose children with arcs from one upwards are listed.
#[derive(Clone, Copy)]
pub(crate) enum Yes {
    Named(Identifier),
    Listed { authority: Identifier, from: Arc },
}
