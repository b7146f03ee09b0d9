// Requests: lines that have been read.
use oid::{Arc, Identifier};

// The requests that lines make: who asks, by a holder's number; of which authority or entry; and what else the request names.
#[derive(Clone, Copy, PartialEq, Eq)]
pub enum Request {
    // a panel below the authority
    Grant {
        holder: u32,
        authority: Identifier,
    },
    // a panel below the authority, with the arc
    Claim {
        holder: u32,
        authority: Identifier,
        arc: Arc,
    },
    // an authority below the authority, with the quota, offered to the taker
    Offer {
        holder: u32,
        authority: Identifier,
        quota: u32,
        taker: u32,
    },
    // the offered entry opened
    Accept {
        taker: u32,
        entry: Identifier,
    },
    // the offered entry declined
    Decline {
        taker: u32,
        entry: Identifier,
    },
    // the panel retired
    Retire {
        holder: u32,
        entry: Identifier,
    },
    // the authority's children listed, those with arcs from one upwards
    Roll {
        holder: u32,
        authority: Identifier,
        from: Arc,
    },
}

// A request, and where in its line the identifier begins.
#[derive(Clone, Copy, PartialEq, Eq)]
pub struct Reading {
    pub request: Request,
    pub offset: usize,
}
