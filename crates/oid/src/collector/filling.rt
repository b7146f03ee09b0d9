// Giving a collector its numbers, and the answer of the shared questions.
ghost use Rattle.std.specs.Prelude.{◌≡◌, [], if◌then◌else◌, nat_lt, slice_index, slice_set};
ghost use Rattle.oid.specs.Collected.{Collected, Adds, Finishes};
ghost use Rattle.oid.specs.Tree.{last_root};

use super::Collector;
use crate::identifier::{FEWEST_ARCS, Identifier, LAST_ROOT, MOST_ARCS};
use crate::numeral::Numeral;
use crate::refusal::{Fault, Refusal};

impl Collector {
    // A collector that was given no number yet.
    #[tactic(auto, unfolding(crate::specs::Numbers::first_at))]
    pub fn new() -> Collector
        ensures { Collected result [] }
    {
        Collector {
            count: 0,
            arcs: [0; MOST_ARCS],
            starts: [0; FEWEST_ARCS],
            padded: None,
            large: None,
        }
    }

    // One number more.
    pub fn add(&mut self, numeral: Numeral)
        ensures { Adds self.old numeral self.new }
    {
        let Numeral {
            offset,
            arc,
            padded,
        } = numeral;
        store(&mut self.arcs, self.count, arc.unwrap_or(0));
        store(&mut self.starts, self.count, offset);
        self.count = self.count.saturating_add(1);
        self.padded = self.padded.or(padded.then_some(offset));
        self.large = self.large.or(arc.is_none().then_some(offset));
    }

    // The identifier that the numbers stand for, or the first of the shared questions that says no.
    pub fn finish(&self) -> Result<Identifier, Fault>
        ensures { Finishes self.now result }
    {
        if let Some(offset) = self.padded {
            return Err(Refusal::LeadingZero.at(offset));
        }
        if let Some(offset) = self.large {
            return Err(Refusal::ArcTooLarge.at(offset));
        }
        if self.count < FEWEST_ARCS || self.count > MOST_ARCS {
            return Err(Refusal::ArcCount.at(0));
        }
        let unfit = Refusal::FirstArcs.at(self.wrong_start());
        Identifier::from_arcs(&self.arcs[..self.count]).ok_or(unfit)
    }

    // Where the first number begins if it is no root, else the second.
    fn wrong_start(&self) -> usize
        ensures { result ≡ slice_index self.now.starts (if nat_lt last_root (slice_index self.now.arcs 0) then 0 else 1) }
    {
        let [first, second] = self.starts;
        if self.arcs[0] > LAST_ROOT {
            first
        } else {
            second
        }
    }
}

// Puts a value into the place with this index, if there is one.
#[tactic(auto, using(std::proofs::lemmas::List::set_past))]
fn store<T: Copy>(places: &mut [T], index: usize, value: T)
    ensures { places.new ≡ slice_set places.old index value }
{
    if index < places.len() {
        places[index] = value;
    }
}
