// The arcs that subidentifiers stand for.
ghost use Rattle.std.specs.Prelude.{◌≡◌};
ghost use Rattle.oid.specs.Collected.{Collected, numeral_of};
ghost use Rattle.der.specs.Header.{header_length};
ghost use Rattle.der.specs.Subidentifiers.{subidentifiers_from, arc_number, arc_numbers, root_in};

use super::Subidentifiers;
use oid::arc::arc_of;
use oid::{Collector, Numeral};

// How many second arcs are counted for each of the roots 0 and 1.
pub(crate) const PER_ROOT: u64 = 40;

// The arcs of the contents, the first subidentifier of which stands for two.
pub(crate) fn collect_arcs(contents: &[u8]) -> Collector
    ensures { Collected result (arc_numbers (subidentifiers_from header_length contents.now)) }
{
    let mut collector = Collector::new();
    let mut subidentifiers = Subidentifiers::new(contents);
    let Some(first) = subidentifiers.next() else {
        return collector;
    };
    let value = first.value();
    let root = root_in(value);
    collector.add(arc_numeral(first.offset, root));
    collector.add(arc_numeral(first.offset, value - PER_ROOT * root));
    for later in subidentifiers {
        collector.add(arc_numeral(later.offset, later.value()));
    }
    collector
}

// The root that a first subidentifier means.
fn root_in(value: u64) -> u64
    ensures { result ≡ root_in value }
{
    if value < PER_ROOT {
        0
    } else if value < 2 * PER_ROOT {
        1
    } else {
        2
    }
}

// A number that should be an arc, with its subidentifier's offset.
fn arc_numeral(offset: usize, value: u64) -> Numeral
    ensures { result ≡ numeral_of (arc_number offset value) }
{
    Numeral {
        offset,
        arc: arc_of(value),
        padded: false,
    }
}
