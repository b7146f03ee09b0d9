// Arcs: the numbers on the branches of the tree.
ghost use Rattle.std.specs.Prelude.{◌≡◌};
ghost use Rattle.oid.specs.Arcs.{arc_of, next_arc};

// One number of an identifier, from 0 to ARC_LIMIT.
pub type Arc = u32;

// The largest arc.
pub const ARC_LIMIT: Arc = 4_294_967_295;

// The number as an arc; none where it is above the limit.
#[tactic(auto, using(crate::proofs::Arcs::arc_of_some, crate::proofs::Arcs::arc_of_none), unfolding(crate::specs::Arcs::arc_limit))]
pub fn arc_of(number: u64) -> Option<Arc>
    ensures { result ≡ arc_of number }
{
    Arc::try_from(number).ok().filter(|arc| *arc <= ARC_LIMIT)
}

// The arc one above; none above the largest.
pub fn next_arc(arc: Arc) -> Option<Arc>
    ensures { result ≡ next_arc arc }
{
    arc_of(u64::from(arc) + 1)
}
