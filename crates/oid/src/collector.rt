// Numbers as a reader meets them, kept as far as the shared questions need them.
ghost use Rattle.std.specs.Prelude.{◌≡◌, length};
ghost use Rattle.oid.specs.Tree.{most_arcs, fewest_arcs};

use crate::arc::Arc;
use crate::identifier::{FEWEST_ARCS, MOST_ARCS};

mod filling;

// Takes any count of numbers in constant memory: how many there were, the first 16, where the first two begin, and where
// the first one with a leading zero and the first too large one do.
#[derive(Clone, Copy)]
pub struct Collector {
    count: usize,
    arcs: [Arc; MOST_ARCS],
    starts: [usize; FEWEST_ARCS],
    padded: Option<usize>,
    large: Option<usize>,
    ghost arc_places: { length arcs ≡ most_arcs },
    ghost start_places: { length starts ≡ fewest_arcs },
}
