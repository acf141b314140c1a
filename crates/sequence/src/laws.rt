// What holds of numbers and places.
ghost use Rattle.sequence.specs.Laws.{PlaceLaw};

// A number stands for the place congruent to it that lies nearest low, and for no other.
#[tactic(auto, using(crate::proofs::PlaceLaws::place_law))]
pub fn place_law()
    ensures { PlaceLaw }
{}
