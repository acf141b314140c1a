// What is promised of one direction of a stream.
ghost use Rattle.stream.specs.Cases.{Cases};
ghost use Rattle.stream.specs.Machine.{MachinesGive};
ghost use Rattle.stream.specs.Promise.{Promise};

// Whatever a machine gives its program stands, byte by byte, in the pieces that came to it.
#[tactic(auto, using(crate::proofs::Machines::machines_give))]
pub fn machines_give()
    ensures { MachinesGive }
{}

// Whatever comes to a stream: one byte for each place, no word in the text, nothing lost of what an honest sender says.
pub fn stream_kept()
    ensures { Promise }
{}

// The worked cases of streams, states and places.
#[tactic(auto, using(crate::proofs::Cases::cases))]
pub fn worked_cases()
    ensures { Cases }
{}
